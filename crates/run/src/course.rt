// The turns of a run, one after another.
ghost use Rattle.std.specs.Prelude.{◌≡◌, List, ℕ};
ghost use Rattle.machine.specs.Lent.{machine_at, SameLoans};
ghost use Rattle.run_order.specs.Cursor.{streams_in};
ghost use Rattle.run_rules.specs.Ready.{ReadyApart};
ghost use Rattle.run_rules.specs.Run.{run_from, summary_of};
ghost use Rattle.run.specs.Ran.{told_run};

use crate::Ran;
use machine::control::Control;
use machine::lent::SizedStores;
use run_order::cursor::{Cursor, StreamsView};
use run_order::ending::{Ending, halted, quiet_after, refused_word};
use run_order::stalls::no_stalls;
use run_turn::turn;

// Takes turns until the run ends, whatever cells Dest has. Internal: the call was not refused.
pub(crate) fn take_turns(
    control: Control,
    stores: &mut SizedStores<'_>,
    streams: StreamsView<'_>,
    cursor: Cursor,
    budget: u32,
) -> Ran
    requires { ReadyApart (streams_in streams) (machine_at control stores.old) cursor }
    ensures same { SameLoans stores.new stores.old }
    ensures answer { (cells : List ℕ) → told_run result (machine_at result.control stores.new cells) ≡ summary_of cursor (run_from budget (streams_in streams.entry) 0 (machine_at control stores.old cells) cursor) }
{
    let mut ran = Ran {
        answer: Ending::BudgetUsed,
        turns: 0,
        control,
        cursor,
        stalls: no_stalls(),
    };
    let mut quiet: u32 = 0;
    loop {
        if let Some(answer) = halted(streams, ran.cursor, quiet, budget - ran.turns) {
            ran.answer = answer;
            return ran;
        }
        let thread = ran.cursor.next;
        let t = turn(ran.control, stores, streams, ran.cursor);
        ran.control = t.control;
        ran.cursor = t.cursor;
        ran.turns += 1;
        ran.stalls = ran.stalls.after(t.outcome, thread);
        if let Some(refused) = refused_word(t.outcome) {
            ran.answer = refused;
            return ran;
        }
        quiet = quiet_after(t.outcome, quiet);
    }
}
