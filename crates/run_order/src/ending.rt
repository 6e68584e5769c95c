// How a run ends: before a turn, or by a refused word.
ghost use Rattle.std.specs.Prelude.{◌≡◌, ◌<◌};
ghost use Rattle.machine.specs.Outcomes.{told_outcome};
ghost use Rattle.run_order.specs.Cursor.{streams_in};
ghost use Rattle.run_order.specs.Ending.{told_halt, halt_of, refused_word, quiet_after};

use crate::cursor::{Cursor, StreamsView};
use machine::refusal::{Outcome, Refusal};

// WordRefused ends a run after its turns; CallRefused is a call that takes none.
#[derive(Clone, Copy, Debug, PartialEq, Eq)]
pub enum Ending {
    Finished,
    Stuck,
    BudgetUsed,
    WordRefused(Refusal),
    CallRefused(Refusal),
}

// What ends a run before a turn, if anything does: `quiet` turns in a row went without a passed word, and `left` turns of the budget
// are left.
#[tactic(auto, unfolding(crate::specs::Ending::halt_of))]
pub fn halted(streams: StreamsView<'_>, c: Cursor, quiet: u32, left: u32) -> Option<Ending>
    ensures { told_halt result ≡ halt_of (streams_in streams.entry) c quiet left }
{
    if streams.used_up(c) {
        return Some(Ending::Finished);
    }
    if 3 <= quiet {
        return Some(Ending::Stuck);
    }
    if left == 0 {
        return Some(Ending::BudgetUsed);
    }
    None
}

// A refused word ends the run.
#[tactic(auto, unfolding(crate::specs::Ending::refused_word))]
pub fn refused_word(o: Outcome) -> Option<Ending>
    ensures { told_halt result ≡ refused_word (told_outcome o) }
{
    match o {
        Outcome::Refused(r) => Some(Ending::WordRefused(r)),
        Outcome::Idle | Outcome::Passed | Outcome::Stalled(_) => None,
    }
}

// Turns in a row without a passed word, a turn with this outcome included. Internal: fewer than three went before.
#[tactic(auto, unfolding(crate::specs::Ending::quiet_after))]
pub fn quiet_after(o: Outcome, quiet: u32) -> u32
    requires { quiet < 3 }
    ensures { result ≡ quiet_after (told_outcome o) quiet }
{
    match o {
        Outcome::Passed => 0,
        Outcome::Idle | Outcome::Stalled(_) | Outcome::Refused(_) => quiet + 1,
    }
}
