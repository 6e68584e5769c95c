// A group: a machine saved, and loads from what was written.
ghost use Rattle.std.specs.Prelude.{◌+◌, ◌*◌, ◌≤◌, ◌<◌, length, IfOk};
ghost use Rattle.test_machines.specs.Made.{made_bytes};

use crate::lines::{sum_of, write_saved};
use crate::loads::{LOAD_BYTES, run_loads};
use format::number::read;
use image_layout::IMAGE_BYTES;
use machine::fresh::fresh;
use std::io;
use test_machines::made::{MADE_BYTES, Made, read_made};
use test_machines::parts::{lent_view, make};
use whole_machine::images::save_whole;

// A group up to its loads.
pub(crate) const HEADER_BYTES: usize = 2 * MADE_BYTES + 8;

// The longest output: some bytes more than an image.
pub(crate) const OUT_MOST: usize = 48640;

// What the output holds before a save.
const UNWRITTEN: u8 = 165;

// Saves a fresh machine.
pub(crate) fn save_fresh(rt: &HostRuntime) -> io::Result<()> {
    let mut out = [UNWRITTEN; OUT_MOST];
    let done = save_whole(&fresh(), &mut out);
    write_saved(rt, done, sum_of(&out))
}

// Makes a machine, saves it into the first `room` bytes of the output, and writes the line.
fn save_made(rt: &HostRuntime, m: Made, room: u32, out: &mut [u8]) -> io::Result<()> {
    let n = (room as usize).min(out.len());
    let p = make(m);
    let done = image::save(lent_view(&p, m), &mut out[..n]);
    write_saved(rt, done, sum_of(out))
}

// Saves one machine and loads over the other.
fn run_made(rt: &HostRuntime, saved: Made, room: u32, over: Made, loads: &[u8]) -> io::Result<()> {
    let mut out = [UNWRITTEN; OUT_MOST];
    let mut again = [0; IMAGE_BYTES];
    save_made(rt, saved, room, &mut out)?;
    run_loads(rt, over, &mut out, &mut again, loads)
}

// Where the loads end of a group that says it has `count` of them: at the last whole load that is there.
fn loads_end(from: usize, count: u32, len: usize) -> usize
    requires { from ≤ len }
    ensures { (from ≤ result) × (result ≤ len) }
{
    let there = (len - from) / LOAD_BYTES;
    from + there.min(count as usize) * LOAD_BYTES
}

// The group that starts at `at`; answers where the next one starts.
pub(crate) fn run_group(rt: &HostRuntime, input: &[u8], at: usize) -> io::Result<usize>
    requires { at + (2 * made_bytes + 8) ≤ length input.now }
    ensures { IfOk result (λ end. (at < end) × (end ≤ length input.now)) }
{
    let saved = read_made(input, at);
    let room = read::<4>(input, at + MADE_BYTES);
    let over = read_made(input, at + MADE_BYTES + 4);
    let count = read::<4>(input, at + 2 * MADE_BYTES + 4);
    let from = at + HEADER_BYTES;
    let end = loads_end(from, count, input.len());
    run_made(rt, saved, room, over, &input[from..end])?;
    Ok(end)
}
