// The three records of words at an input's start: how many words each thread has.
ghost use Rattle.std.specs.Prelude.{◌≡◌, ◌*◌, ◌≤◌, drop, IfSome, IfOk};
ghost use Rattle.format.specs.Places.{place_most};
ghost use Rattle.program_records.specs.Counts.{words_record_of, counts_of, words_end};
ghost use Rattle.program_records.specs.ResumeScript.{stream_bytes};

use crate::head::{BadRecord, WORDS_0, WORDS_1, WORDS_2, body_at};
use format::HEAD_BYTES;

// How many words each thread has. Three fields and no array: definitions and theorems of three crates name them.
#[derive(Clone, Copy)]
pub struct Counts {
    pub n0: usize,
    pub n1: usize,
    pub n2: usize,
}

// How many words the record of words of a kind has at a place, with a body of at most `most` bytes. Internal, as body_at.
#[tactic(auto, unfolding(crate::specs::Counts::words_record_of))]
pub fn words_record(s: &[u8], at: usize, kind: u32, most: u32) -> Option<usize>
    requires { at ≤ place_most }
    ensures value { result ≡ words_record_of most kind (drop at s.now) }
    ensures few { IfSome result (λ n. 4 * n ≤ most) }
{
    let n = body_at(s, at, kind, most)?;
    if n % 4 != 0 {
        return None;
    }
    Some(n / 4)
}

// The three records, each of at most `most` bytes. Internal: that is at most the longest stream.
#[tactic(auto, unfolding(crate::specs::Counts::counts_of))]
pub(crate) fn count_words(s: &[u8], most: u32) -> Result<Counts, BadRecord>
    requires { most ≤ stream_bytes }
    ensures value { result ≡ counts_of most s.now }
    ensures few { IfOk result (λ c. (4 * c.n0 ≤ most) × (4 * c.n1 ≤ most) × (4 * c.n2 ≤ most)) }
{
    let n0 = words_record(s, 0, WORDS_0, most).ok_or(BadRecord { at: 0 })?;
    let at = HEAD_BYTES + 4 * n0;
    let n1 = words_record(s, at, WORDS_1, most).ok_or(BadRecord { at })?;
    let at = at + HEAD_BYTES + 4 * n1;
    let n2 = words_record(s, at, WORDS_2, most).ok_or(BadRecord { at })?;
    Ok(Counts { n0, n1, n2 })
}

impl Counts {
    // Where the records of words end. Internal: that is within reach of a sound input.
    pub(crate) fn words_end(self) -> usize
        requires { words_end self ≤ place_most }
        ensures { result ≡ words_end self }
    {
        3 * HEAD_BYTES + 4 * self.n0 + 4 * self.n1 + 4 * self.n2
    }
}
