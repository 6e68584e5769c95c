// Runs words on machines made for it and prints what came of each, with the machine's digest after it, for comparison with the
// oracle. Standard input, in little-endian words of 4 bytes, is groups: how the machine is made and lent (6 words,
// `test_machines`), a count, and that many cases of a thread and a word. Within a group the machine goes on from case to case.
// A line is `p D`, `s N C D` or `r N D`: passed, stalled or refused with document 01's number, a stall's cause (document 02, K3),
// and the digest.
#![tactic(auto)]

mod cases;
mod input;
mod lines;

use crate::input::HEADER_BYTES;
use program_io::read_full;
use std::io;

const INPUT_MOST: usize = 1048576;

// The groups, one after the other, up to the input's end or a header that is cut.
fn run_groups(rt: &HostRuntime, input: &[u8]) -> io::Result<()> {
    let mut at = 0;
    while HEADER_BYTES <= input.len() - at {
        at = cases::run_group(rt, input, at)?;
    }
    Ok(())
}

// The groups of standard input, which `input` takes.
fn run_input(rt: &HostRuntime, input: &mut [u8]) -> io::Result<()> {
    let n = read_full(&mut rt.stdin(), input)?;
    run_groups(rt, &input[..n])
}

// The same, in an array that is lent whole.
fn run_in(rt: &HostRuntime, input: &mut [u8; INPUT_MOST]) -> io::Result<()> {
    run_input(rt, input)
}

fn main(rt: HostRuntime) -> io::Result<()> {
    let mut input = [0; INPUT_MOST];
    run_in(&rt, &mut input)
}
