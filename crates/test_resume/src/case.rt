// A case: its input made in the room lent, and answered.
ghost use Rattle.std.specs.Prelude.{◌+◌, ◌≤◌, length, IfOk};

use crate::lines::write_output;
use format::number::read;
use image_layout::IMAGE_BYTES;
use program_io::read_full;
use program_resume::RESUME_ROOM;
use std::io;
use test_machines::whole::seeded_machine;
use whole_machine::images::save_whole;

// Seven numbers of 4 bytes.
const CASE_BYTES: usize = 28;

// An input is the image of the seed's machine, then `before` bytes that follow the case, `fill` bytes 2 (four of them are a
// NOP), and `after` bytes more that follow it; of it all, the byte at `place` is set, and the first `keep` bytes are kept.
#[derive(Clone, Copy)]
struct Case {
    seed: u32,
    place: u32,
    byte: u32,
    keep: u32,
    before: u32,
    fill: u32,
    after: u32,
}

fn read_case(s: &[u8; CASE_BYTES]) -> Case {
    Case {
        seed: read::<4>(s, 0),
        place: read::<4>(s, 4),
        byte: read::<4>(s, 8),
        keep: read::<4>(s, 12),
        before: read::<4>(s, 16),
        fill: read::<4>(s, 20),
        after: read::<4>(s, 24),
    }
}

// Where `n` bytes from `at` on end, within `len`.
fn end_of(at: usize, n: u32, len: usize) -> usize
    requires { at ≤ len }
    ensures { (at ≤ result) × (result ≤ len) }
{
    at + (n as usize).min(len - at)
}

// Reads `n` bytes of the case to `at`; answers where they end.
fn read_to(rt: &HostRuntime, room: &mut [u8], at: usize, n: u32) -> io::Result<usize>
    requires { at ≤ length room.old }
    ensures { IfOk result (λ end. (at ≤ end) × (end ≤ length room.new)) }
{
    let end = end_of(at, n, room.len());
    read_full(&mut rt.stdin(), &mut room[at..end])?;
    Ok(end)
}

// Writes `n` bytes 2 from `at`; answers where they end.
fn fill_to(room: &mut [u8], at: usize, n: u32) -> usize
    requires { at ≤ length room.old }
    ensures { (at ≤ result) × (result ≤ length room.new) }
{
    let end = end_of(at, n, room.len());
    room[at..end].fill(2);
    end
}

fn set_byte(room: &mut [u8], place: u32, byte: u32) {
    if let Some(b) = room.get_mut(place as usize) {
        *b = (byte % 256) as u8;
    }
}

// Makes the input of a case; answers its length.
fn make_input(rt: &HostRuntime, c: Case, room: &mut [u8]) -> io::Result<usize>
    ensures { IfOk result (λ n. n ≤ length room.new) }
{
    let _ = save_whole(&seeded_machine(c.seed), room);
    let start = IMAGE_BYTES.min(room.len());
    let a = read_to(rt, room, start, c.before)?;
    let b = fill_to(room, a, c.fill);
    let e = read_to(rt, room, b, c.after)?;
    set_byte(room, c.place, c.byte);
    Ok(end_of(0, c.keep, e))
}

// Answers the next case, in the room lent for it; whether there was one.
pub(crate) fn answer(
    rt: &HostRuntime,
    room: &mut [u8],
    out: &mut [u8; RESUME_ROOM],
) -> io::Result<bool> {
    let mut head = [0u8; CASE_BYTES];
    if read_full(&mut rt.stdin(), &mut head)? < CASE_BYTES {
        return Ok(false);
    }
    let n = make_input(rt, read_case(&head), room)?;
    let m = program_resume::resume(&room[..n], out);
    write_output(rt, out, m)?;
    Ok(true)
}
