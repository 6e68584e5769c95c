// A record's head: its body's length (4 bytes) and its kind (2).
ghost use Rattle.std.specs.Prelude.{◌≡◌, ◌+◌, ◌≤◌, true, length, drop, IfSome};
ghost use Rattle.format.specs.Format.{head_bytes};
ghost use Rattle.format.specs.Places.{place_most};
ghost use Rattle.program_records.specs.Head.{body_of, has_body};

use format::HEAD_BYTES;
use format::number::read;

// The kinds of records: the words of threads 0, 1 and 2, the budget, the cursor.
pub(crate) const WORDS_0: u32 = 32;

pub(crate) const WORDS_1: u32 = 33;

pub(crate) const WORDS_2: u32 = 34;

pub(crate) const BUDGET: u32 = 35;

pub(crate) const CURSOR: u32 = 36;

// An input that is not sound: where its first bad or missing record starts, or what is beyond its records.
#[derive(Clone, Copy, Debug, PartialEq, Eq)]
pub struct BadRecord {
    pub at: usize,
}

// How many bytes the body of a record of a kind has at a place. Internal: the place is within reach of a sound input.
#[tactic(auto, using(crate::proofs::Heads::body_is, crate::proofs::Heads::no_head))]
pub(crate) fn body_at(s: &[u8], at: usize, kind: u32, most: u32) -> Option<usize>
    requires { at ≤ place_most }
    ensures value { result ≡ body_of kind most (drop at s.now) }
    ensures there { IfSome result (λ n. (n ≤ most) × (at + head_bytes + n ≤ length s.now)) }
{
    if s.len() < at + HEAD_BYTES {
        return None;
    }
    let n = read::<4>(s, at);
    let k = read::<2>(s, at + 4);
    if k != kind || n > most || s.len() < at + HEAD_BYTES + n as usize {
        return None;
    }
    Some(n as usize)
}

// Whether a record of a kind with a body of n bytes is at a place. Internal, as body_at.
#[tactic(auto, unfolding(crate::specs::Head::has_body))]
pub fn has_body(s: &[u8], at: usize, kind: u32, n: u32) -> bool
    requires { at ≤ place_most }
    ensures value { result ≡ has_body kind n (drop at s.now) }
    ensures there { result ≡ true → at + head_bytes + n ≤ length s.now }
{
    body_at(s, at, kind, n) == Some(n as usize)
}
