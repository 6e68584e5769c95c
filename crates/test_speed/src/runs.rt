// Jobs of runs: the same streams, each from their start on the machine that the one before left. A line is how the last ended, the turns
// of all, the numbers and causes of the last stalls that the last handed on, added up, and the machine's digest after them.
ghost use Rattle.std.specs.Prelude.{◌+◌, ◌≤◌, length};

use machine::refusal::StallCause;
use run_order::cursor::{Cursor, StreamsView};
use run_order::ending::Ending;
use run_order::stalls::{LastStalls, no_stalls};
use test_jobs::{Job, Line};
use test_machines::whole::{digest_whole, with_fresh_control};
use whole_machine::runs::{WholeRan, run_whole};

// All positions at the start, thread 0 next.
const START: Cursor = Cursor {
    at0: 0,
    at1: 0,
    at2: 0,
    next: 0,
};

// 0 finished, 1 stuck, 2 budget; a refused word is 100 more than its number, a refused call 200 more.
fn ending_number(e: Ending) -> u32 {
    match e {
        Ending::Finished => 0,
        Ending::Stuck => 1,
        Ending::BudgetUsed => 2,
        Ending::WordRefused(r) => u32::from(r).wrapping_add(100),
        Ending::CallRefused(r) => u32::from(r).wrapping_add(200),
    }
}

fn stall_sum(x: Option<StallCause>) -> u32 {
    match x {
        None => 0,
        Some(s) => s.number().wrapping_add(s.cause() % 65536),
    }
}

fn stalls_sum(l: LastStalls) -> u32 {
    stall_sum(l.t0)
        .wrapping_add(stall_sum(l.t1))
        .wrapping_add(stall_sum(l.t2))
}

// On the stores of the seed's machine, with a fresh control part. The streams are one after the other in the words. Internal: they are
// there. Finished after no turn where there is no run.
pub(crate) fn do_runs(j: Job, words: &[u32]) -> Line
    requires { j.n0 + j.n1 + j.n2 ≤ length words.now }
{
    let e0 = j.n0 as usize;
    let e1 = e0 + j.n1 as usize;
    let e2 = e1 + j.n2 as usize;
    let streams = StreamsView {
        s0: &words[..e0],
        s1: &words[e0..e1],
        s2: &words[e1..e2],
    };
    let mut m = with_fresh_control(j.seed);
    let mut last = WholeRan {
        answer: Ending::Finished,
        turns: 0,
        cursor: START,
        stalls: no_stalls(),
    };
    for _ in 0..j.times {
        let before = last.turns;
        last = run_whole(&mut m, streams, START, j.limit);
        last.turns = last.turns.wrapping_add(before);
    }
    Line::OfWords([
        ending_number(last.answer),
        last.turns,
        stalls_sum(last.stalls),
        digest_whole(&m),
    ])
}
