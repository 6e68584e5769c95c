// How far a thread's wait is good: kind byte, block and low field.
ghost use Rattle.std.specs.Prelude.{◌≡◌, ◌+◌, ◌≤◌, drop};
ghost use Rattle.bits.specs.Bytes.{le};
ghost use Rattle.format.specs.Places.{place_most};
ghost use Rattle.image_layout.specs.Control.{low_most, thread_format};
ghost use Rattle.image_layout.specs.Places.{wait_size};

use format::check::{field, good_across, most_after};
use machine::sizes::{BLOCK_MOST, CONDITION_MOST, CONDITIONS_MOST, MASK_MOST};

const WAIT_BLOCK_MOST: u32 = BLOCK_MOST as u32;

const SEMAPHORE_LOW_MOST: u32 = MASK_MOST as u32 * 4 + CONDITION_MOST as u32;

// The kind byte at `at`, or 0 past the end.
fn kind_at(s: &[u8], at: usize) -> u32
    ensures { result ≡ le 1 (drop at s.now) }
{
    if at < s.len() { s[at] as u32 } else { 0 }
}

// The largest low field of a wait of a kind.
#[tactic(auto, unfolding(image_layout::specs::Control::low_most))]
fn low_most(k: u32) -> u32
    ensures { result ≡ low_most k }
{
    if k == 1 {
        CONDITIONS_MOST
    } else {
        SEMAPHORE_LOW_MOST
    }
}

// How far a thread's wait is good. Internal: the place is a small number.
pub(crate) fn thread_good(s: &[u8], at: usize) -> usize
    requires { at + wait_size ≤ place_most }
    ensures { (result ≡ thread_format.good (drop at s.now)) × (result ≤ wait_size) }
{
    let k = kind_at(s, at);
    let a = field::<1>(s, at, 0, 2);
    let b = field::<2>(s, at + 1, 0, most_after(k, WAIT_BLOCK_MOST));
    let l = field::<2>(s, at + 3, 0, most_after(k, low_most(k)));
    good_across(a, 1, good_across(b, 2, l))
}
