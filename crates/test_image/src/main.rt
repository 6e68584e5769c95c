// Saves and loads images and prints what came of each call, for comparison with the oracle. The first line is of a fresh
// machine. Standard input, in words of 4 bytes, is groups: how the machine is made that is saved (6 words, `test_machines`), how
// long the output is, how the machine is made that is loaded over (6), a count, and that many loads. A load is a place in the
// output, the byte that stands there for this load, and how many bytes of the output are the image. A line is `w SUM`,
// `r N SUM` of a save, with the sum of the whole output; `t DIGEST SUM`, `r N DIGEST` or `r 9 OFFSET DIGEST` of a load, with
// the machine's digest after it and the sum of the image that is saved of it again.
#![tactic(auto)]

mod group;
mod lines;
mod loads;

use program_io::read_full;
use std::io;

const INPUT_MOST: usize = 262144;

// The groups, one after the other, up to the input's end or a header that is cut.
fn run_groups(rt: &HostRuntime, input: &[u8]) -> io::Result<()> {
    let mut at = 0;
    while group::HEADER_BYTES <= input.len() - at {
        at = group::run_group(rt, input, at)?;
    }
    Ok(())
}

fn main(rt: HostRuntime) -> io::Result<()> {
    let mut input = [0; INPUT_MOST];
    let n = read_full(&mut rt.stdin(), &mut input)?;
    group::save_fresh(&rt)?;
    run_groups(&rt, &input[..n])
}
