// Runs `emulate` on many inputs: each is its length, 4 bytes little-endian (below 65,536), and its bytes.
// oracle/cases/cases_emulate.py makes them and the output that is expected.
#![tactic(auto)]

ghost use Rattle.std.specs.Prelude.{◌<◌, IfOk, IfSome};

use format::number::read;
use program_emulate::EMULATE_READS;
use program_io::read_full;
use program_report::LINES_BYTES;
use std::io;

// The length of the next input, or none where there is no input left.
fn next_length(rt: &HostRuntime) -> io::Result<Option<usize>>
    ensures { IfOk result (λ o. IfSome o (λ n. n < 65536)) }
{
    let mut head = [0u8; 4];
    if read_full(&mut rt.stdin(), &mut head)? < 4 {
        return Ok(None);
    }
    Ok(Some(read::<2>(&head, 0) as usize))
}

// Writes the first m bytes.
fn write_start(rt: &HostRuntime, out: &[u8], m: usize) -> io::Result<()> {
    if m <= out.len() {
        rt.write_all(&out[..m])?;
    }
    Ok(())
}

// Answers the input that the room takes whole.
fn answer_in(rt: &HostRuntime, room: &mut [u8], out: &mut [u8; LINES_BYTES]) -> io::Result<()> {
    let got = read_full(&mut rt.stdin(), room)?;
    let m = program_emulate::emulate(&room[..got], out);
    write_start(rt, out, m)
}

// Answers the next input, in the room lent for it; whether there was one.
fn answer(rt: &HostRuntime, room: &mut [u8], out: &mut [u8; LINES_BYTES]) -> io::Result<bool> {
    let Some(n) = next_length(rt)? else {
        return Ok(false);
    };
    if room.len() < n {
        return Ok(false);
    }
    answer_in(rt, &mut room[..n], out)?;
    Ok(true)
}

// No input uses the turns up: they are what a proved loop counts down.
fn answer_all(
    rt: &HostRuntime,
    room: &mut [u8; EMULATE_READS],
    out: &mut [u8; LINES_BYTES],
) -> io::Result<()> {
    for _ in 0..u32::MAX {
        if !answer(rt, room, out)? {
            break;
        }
    }
    Ok(())
}

fn main(rt: HostRuntime) -> io::Result<()> {
    let mut room = [0u8; EMULATE_READS];
    let mut out = [0u8; LINES_BYTES];
    answer_all(&rt, &mut room, &mut out)
}
