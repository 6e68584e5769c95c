// A thread's wait in an image: kind byte, block and low field.
ghost use Rattle.std.specs.Prelude.{◌≡◌, ◌+◌, ◌≤◌, length, drop};
ghost use Rattle.bits.specs.Overwrite.{Wrote};
ghost use Rattle.image_layout.specs.Control.{wait_of_triple, wait_triple, thread_format};
ghost use Rattle.image_layout.specs.Places.{wait_size};

use bits::word::field;
use format::number::{read, write};
use machine::control::{Thread, Wait};

// The wait of three numbers.
#[tactic(auto, unfolding(image_layout::specs::Control::wait_of_triple))]
fn wait_of_triple(kind: u32, block: u16, low: u32) -> Wait
    ensures { result ≡ wait_of_triple (kind, (block, low)) }
{
    match kind {
        0 => Wait::Clear,
        1 => Wait::OnStall {
            block,
            conditions: low,
        },
        _ => Wait::OnSemaphore {
            block,
            mask: field::<2, 8>(low) as u8,
            condition: field::<0, 2>(low) as u8,
        },
    }
}

// Reads a thread's wait. Internal: its bytes are there.
pub(crate) fn read_thread(s: &[u8], at: usize) -> Thread
    requires { at + wait_size ≤ length s.now }
    ensures { result ≡ thread_format.get (drop at s.now) }
{
    let kind = read::<1>(s, at);
    let block = read::<2>(s, at + 1) as u16;
    let low = read::<2>(s, at + 3);
    Thread {
        wait: wait_of_triple(kind, block, low),
    }
}

// Writes a wait's three numbers. Internal: there is room.
fn write_triple(out: &mut [u8], at: usize, kind: u32, block: u16, low: u32)
    requires { at + wait_size ≤ length out.old }
    ensures { Wrote out.old at (wait_triple.put (kind, (block, low))) out.new (at + wait_size) }
{
    write::<1>(out, at, kind);
    write::<2>(out, at + 1, block as u32);
    write::<2>(out, at + 3, low);
}

// Writes a thread's wait. Internal: there is room.
pub(crate) fn write_thread(out: &mut [u8], at: usize, t: Thread)
    requires { at + wait_size ≤ length out.old }
    ensures { Wrote out.old at (thread_format.put t) out.new (at + wait_size) }
{
    match t.wait {
        Wait::Clear => write_triple(out, at, 0, 0, 0),
        Wait::OnStall { block, conditions } => write_triple(out, at, 1, block, conditions),
        Wait::OnSemaphore {
            block,
            mask,
            condition,
        } => write_triple(out, at, 2, block, mask as u32 * 4 + condition as u32),
    }
}
