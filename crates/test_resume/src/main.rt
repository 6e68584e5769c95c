// Runs `resume` on inputs whose image is of a seed's machine, and prints what it wrote: the lines as they are, and the
// Adler-32 of the whole output in place of the image. oracle/cases/cases_resume.py makes the cases and what is expected.
// Standard input is cases: seven numbers of 4 bytes (`case.rt`), and the bytes that they say.
#![tactic(auto)]

mod case;
mod lines;

use program_resume::{RESUME_READS, RESUME_ROOM};
use std::io;

// No input uses the turns up: they are what a proved loop counts down.
fn answer_all(
    rt: &HostRuntime,
    room: &mut [u8; RESUME_READS],
    out: &mut [u8; RESUME_ROOM],
) -> io::Result<()> {
    for _ in 0..u32::MAX {
        if !case::answer(rt, room, out)? {
            break;
        }
    }
    Ok(())
}

fn main(rt: HostRuntime) -> io::Result<()> {
    let mut room = [0u8; RESUME_READS];
    let mut out = [0u8; RESUME_ROOM];
    answer_all(&rt, &mut room, &mut out)
}
