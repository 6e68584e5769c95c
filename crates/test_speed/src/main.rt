// Makes one call as often as a job says, so that benches/run can time it beside plain Rust of the same rules. Standard input is
// jobs one after the other. A line is the job's kind, what the last call answered, and a checksum.
#![tactic(auto)]

mod images;
mod runs;

use std::io;
use test_jobs::{BYTES_MOST, Job, Kind, Line, WORDS_MOST, all_jobs, words_of};

// Does the job; not where its kind is another, its words are not there, or it asks for more room than there is.
fn do_job(j: Job, words: &[u32]) -> Option<Line> {
    if words.len() < words_of(j) {
        return None;
    }
    match j.kind {
        Kind::Run => Some(runs::do_runs(j, words)),
        Kind::Save => images::do_saves(j),
        Kind::Load => Some(images::do_loads(j)),
        Kind::Expand => None,
    }
}

fn main(rt: HostRuntime) -> io::Result<()> {
    let mut room = [0u8; BYTES_MOST];
    let mut words = [0u32; WORDS_MOST];
    all_jobs(&rt, &mut room, &mut words, do_job)
}
