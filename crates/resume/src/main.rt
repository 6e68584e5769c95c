// Reads an image and what is to run on it from standard input, runs it and prints how it ended and the image after it.
#![tactic(auto)]

ghost use Rattle.std.specs.Prelude.{◌≡◌, ◌≤◌, length};
ghost use Rattle.program_resume.specs.Resume.{resume_reads, resume_room};

use program_io::read_full;
use program_resume::{RESUME_READS, RESUME_ROOM};
use std::io;

// Answers the input. The room that it is read into has just the bytes of which `LongResumes` says that no further one counts.
fn answer(rt: &HostRuntime, room: &mut [u8], out: &mut [u8]) -> io::Result<()>
    requires { (length room.old ≡ resume_reads) × (resume_room ≤ length out.old) }
{
    let n = read_full(&mut rt.stdin(), room)?;
    let m = program_resume::resume(&room[..n], out);
    rt.write_all(&out[..m])
}

// The same, in arrays that are lent whole: a slice of such an array where it is made, with its bytes written out, gets no proof.
fn answer_in(
    rt: &HostRuntime,
    room: &mut [u8; RESUME_READS],
    out: &mut [u8; RESUME_ROOM],
) -> io::Result<()> {
    answer(rt, room, out)
}

fn main(rt: HostRuntime) -> io::Result<()> {
    let mut room = [0u8; RESUME_READS];
    let mut out = [0u8; RESUME_ROOM];
    answer_in(&rt, &mut room, &mut out)
}
