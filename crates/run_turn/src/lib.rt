// One turn.
#![tactic(auto)]

ghost use Rattle.std.specs.Prelude.{◌≡◌, List, ℕ};
ghost use Rattle.machine.specs.Lent.{machine_at, SameLoans};
ghost use Rattle.machine.specs.Outcomes.{told_outcome};
ghost use Rattle.run_order.specs.Cursor.{streams_in};
ghost use Rattle.run_rules.specs.Run.{turned, turn_of};
ghost use Rattle.run_rules.specs.Ready.{ReadyApart};

use machine::control::Control;
use machine::lent::SizedStores;
use machine::refusal::Outcome;
use machine::units::ThreadNumber;
use run_order::cursor::{Cursor, StreamsView};
use step_offer::offer;

// What came of a turn, and the control part and cursor after it.
#[derive(Clone, Copy)]
pub struct Turned {
    pub outcome: Outcome,
    pub control: Control,
    pub cursor: Cursor,
}

// Offers the next thread's word, or does nothing if its stream is used up, whatever cells Dest has. Internal: the call was not refused.
#[tactic(auto, unfolding(run_rules::specs::Run::turn_of, run_order::specs::Cursor::moved_of))]
pub fn turn(
    control: Control,
    stores: &mut SizedStores<'_>,
    streams: StreamsView<'_>,
    c: Cursor,
) -> Turned
    requires { ReadyApart (streams_in streams) (machine_at control stores.old) c }
    ensures same { SameLoans stores.new stores.old }
    ensures answer { (cells : List ℕ) → turned (told_outcome result.outcome) (machine_at result.control stores.new cells) result.cursor ≡ turn_of (streams_in streams.entry) (machine_at control stores.old cells) c }
{
    let Some(word) = streams.next_word(c) else {
        return Turned {
            outcome: Outcome::Idle,
            control,
            cursor: c.onward(),
        };
    };
    let Some(t) = ThreadNumber::new(c.next) else {
        unreachable!()
    };
    let x = offer(control, stores, t, word);
    Turned {
        outcome: x.outcome,
        control: x.control,
        cursor: c.moved(x.outcome),
    }
}
