// A run of a whole machine: its parts are lent once, so that no caller holds them all.
ghost use Rattle.std.specs.Prelude.{◌≡◌};
ghost use Rattle.machine.specs.Fresh.{machine_of};
ghost use Rattle.run_order.specs.Cursor.{streams_in};
ghost use Rattle.run_rules.specs.Run.{run_of, summary_of};
ghost use Rattle.whole_machine.specs.Ran.{ran_summary};

use machine::fresh::WholeMachine;
use run_order::cursor::{Cursor, StreamsView};
use run_order::ending::Ending;
use run_order::stalls::LastStalls;

// What came of a run, the turns that it took, the cursor at its end, and each thread's last stall.
#[derive(Clone, Copy)]
pub struct WholeRan {
    pub answer: Ending,
    pub turns: u32,
    pub cursor: Cursor,
    pub stalls: LastStalls,
}

// Runs the machine: refusals 4 (of a stream), 10, 5 and 6, then turns until the run ends.
pub fn run_whole(
    m: &mut WholeMachine,
    streams: StreamsView<'_>,
    cursor: Cursor,
    budget: u32,
) -> WholeRan
    ensures { ran_summary result (machine_of m.new) ≡ summary_of cursor (run_of (streams_in streams.entry) (machine_of m.old) cursor budget) }
{
    let WholeMachine {
        control,
        settings,
        gprs,
        config,
        dest,
        marks,
        src_a,
        src_b,
    } = m;
    let ran = run::run(
        *control, settings, gprs, config, dest, marks, src_a, src_b, streams, cursor, budget,
    );
    *control = ran.control;
    WholeRan {
        answer: ran.answer,
        turns: ran.turns,
        cursor: ran.cursor,
        stalls: ran.stalls,
    }
}
