// Runs streams on machines made for it and prints what came of each run, with the machine's digest after it, for comparison with
// the oracle. Standard input, little-endian words of 4 bytes, is cases, each with a machine of its own: how it is made and lent
// (6 words, `test_machines`), a budget, the three positions, the next thread, and three streams (input.rt). A line is
// `END turns N at N N N next N stalls S S S machine D`: how the run ended, with document 01's number where it was refused
// (`rejected` is a refused call), its turns, the cursor, each thread's last stall (`NUMBER:CAUSE`, or `-` for none) and the
// digest.
#![tactic(auto)]

mod cases;
mod input;
mod lines;

use crate::input::CASE_BYTES;
use machine::sizes::STREAM_WORDS;
use program_io::read_full;
use std::io;

const INPUT_MOST: usize = 1048576;

// One more than a stream may have.
const STREAM_ROOM: usize = STREAM_WORDS + 1;

// The cases, one after the other, up to the input's end or a case that is cut.
fn run_cases(
    rt: &HostRuntime,
    input: &[u8],
    s0: &mut [u32; STREAM_ROOM],
    s1: &mut [u32; STREAM_ROOM],
    s2: &mut [u32; STREAM_ROOM],
) -> io::Result<()> {
    let mut at = 0;
    while CASE_BYTES <= input.len() - at {
        at = cases::run_case(rt, input, at, s0, s1, s2)?;
    }
    Ok(())
}

// The cases of standard input, which `input` takes.
fn run_input(
    rt: &HostRuntime,
    input: &mut [u8],
    s0: &mut [u32; STREAM_ROOM],
    s1: &mut [u32; STREAM_ROOM],
    s2: &mut [u32; STREAM_ROOM],
) -> io::Result<()> {
    let n = read_full(&mut rt.stdin(), input)?;
    run_cases(rt, &input[..n], s0, s1, s2)
}

// The same, in an array that is lent whole.
fn run_in(
    rt: &HostRuntime,
    input: &mut [u8; INPUT_MOST],
    s0: &mut [u32; STREAM_ROOM],
    s1: &mut [u32; STREAM_ROOM],
    s2: &mut [u32; STREAM_ROOM],
) -> io::Result<()> {
    run_input(rt, input, s0, s1, s2)
}

fn main(rt: HostRuntime) -> io::Result<()> {
    let mut input = [0; INPUT_MOST];
    let mut s0 = [0; STREAM_ROOM];
    let mut s1 = [0; STREAM_ROOM];
    let mut s2 = [0; STREAM_ROOM];
    run_in(&rt, &mut input, &mut s0, &mut s1, &mut s2)
}
