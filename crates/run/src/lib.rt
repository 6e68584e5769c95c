// Three streams of words on one machine: a cursor, a budget of turns, and how it ends (document 01, "A run").
#![tactic(auto)]

mod checks;
mod course;

ghost use Rattle.std.specs.Prelude.{◌≡◌};
ghost use Rattle.machine.specs.Machine.{machine};
ghost use Rattle.run_order.specs.Cursor.{streams_in};
ghost use Rattle.run_rules.specs.Run.{run_of, summary_of};
ghost use Rattle.run.specs.Ran.{told_run};

use crate::checks::check_call;
use crate::course::take_turns;
use machine::control::Control;
use machine::lent::{MachineView, SizedStores};
use run_order::cursor::{Cursor, StreamsView};
use run_order::ending::Ending;
use run_order::stalls::{LastStalls, no_stalls};

// How a run ended, the turns it took, the control part and cursor that it leaves, and each thread's last stall. The rest of the machine
// is written where it is lent.
#[derive(Clone, Copy)]
pub struct Ran {
    pub answer: Ending,
    pub turns: u32,
    pub control: Control,
    pub cursor: Cursor,
    pub stalls: LastStalls,
}

// Runs the three streams from the cursor for at most `budget` turns: refusals 4, 10, 5 and 6, then turns until the run ends. The parts
// are lent one by one: behind a reference to a struct of them none could be lent on as an array, which the borrow checker does not cover.
pub fn run(
    control: Control,
    settings: &mut [u16],
    gprs: &mut [u32],
    config: &mut [u32],
    dest: &[u16],
    marks: &mut [bool],
    src_a: &mut [u32],
    src_b: &mut [u32],
    streams: StreamsView<'_>,
    cursor: Cursor,
    budget: u32,
) -> Ran
    ensures { told_run result (machine result.control settings.new gprs.new config.new dest.now marks.new src_a.new src_b.new) ≡ summary_of cursor (run_of (streams_in streams.entry) (machine control settings.old gprs.old config.old dest.now marks.old src_a.old src_b.old) cursor budget) }
{
    let view = MachineView {
        control,
        settings: &settings[..],
        gprs: &gprs[..],
        config: &config[..],
        dest,
        marks: &marks[..],
        src_a: &src_a[..],
        src_b: &src_b[..],
    };
    if let Err(r) = check_call(view, streams, cursor, budget) {
        return Ran {
            answer: Ending::CallRefused(r),
            turns: 0,
            control,
            cursor,
            stalls: no_stalls(),
        };
    }
    let Some(settings) = settings.as_mut_array() else {
        unreachable!()
    };
    let Some(gprs) = gprs.as_mut_array() else {
        unreachable!()
    };
    let Some(config) = config.as_mut_array() else {
        unreachable!()
    };
    let Some(marks) = marks.as_mut_array() else {
        unreachable!()
    };
    let Some(src_a) = src_a.as_mut_array() else {
        unreachable!()
    };
    let Some(src_b) = src_b.as_mut_array() else {
        unreachable!()
    };
    let mut stores = SizedStores {
        settings,
        gprs,
        config,
        marks,
        src_a,
        src_b,
    };
    take_turns(control, &mut stores, streams, cursor, budget)
}
