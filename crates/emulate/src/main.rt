// Reads a kernel from standard input, runs it on a fresh machine and prints how it ended.
#![tactic(auto)]

ghost use Rattle.std.specs.Prelude.{◌≡◌, ◌≤◌, length};
ghost use Rattle.program_report.specs.Lines.{lines_room};
ghost use Rattle.program_emulate.specs.Emulation.{emulate_reads};

use program_emulate::EMULATE_READS;
use program_io::read_full;
use program_report::LINES_BYTES;
use std::io;

// Answers the input. The room that it is read into has just the bytes of which `LongScripts` says that no further one counts.
fn answer(rt: &HostRuntime, room: &mut [u8], out: &mut [u8]) -> io::Result<()>
    requires { (length room.old ≡ emulate_reads) × (lines_room ≤ length out.old) }
{
    let n = read_full(&mut rt.stdin(), room)?;
    let m = program_emulate::emulate(&room[..n], out);
    rt.write_all(&out[..m])
}

fn main(rt: HostRuntime) -> io::Result<()> {
    let mut room = [0u8; EMULATE_READS];
    let mut out = [0u8; LINES_BYTES];
    answer(&rt, &mut room, &mut out)
}
