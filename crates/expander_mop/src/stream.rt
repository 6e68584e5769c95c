// Writing what leaves the MOP stage for a stream, once it is known to fit: all that there is to do where no word is a REPLAY.
ghost use Rattle.std.specs.Prelude.{◌≡◌, ◌+◌, ◌≤◌, length};
ghost use Rattle.bits.specs.Overwrite.{Wrote};
ghost use Rattle.expander_rules.specs.Stream.{mop_words, emission_of, stream_of};

use crate::mask::mask_after;
use bits::put::put_one;
use bits::word::{field, flag};
use expander_rules::sizes::NINE;
use expander_templates::template_0::put_template_0;
use expander_templates::template_1::put_template_1;

// The place past what was written, and the high mask.
#[derive(Clone, Copy)]
pub struct Put {
    pub at: usize,
    pub high: u16,
}

#[tactic(auto, unfolding(expander_rules::specs::Stream::mop_words))]
fn put_mop(nine: &[u32; NINE], high: u16, word: u32, at: usize, out: &mut [u32]) -> usize
    requires { at + length (mop_words nine.now high word) ≤ length out.old }
    ensures { Wrote out.old at (mop_words nine.now high word) out.new result }
{
    if flag::<23>(word) {
        put_template_1(nine, at, out)
    } else {
        let mask = high as u32 * 65536 + field::<0, 16>(word);
        put_template_0(nine, mask, field::<16, 7>(word) + 1, at, out)
    }
}

#[tactic(auto, using(expander_templates::proofs::Writing::wrote_none), unfolding(expander_rules::specs::Stream::emission_of))]
fn put_emission(nine: &[u32; NINE], high: u16, word: u32, at: usize, out: &mut [u32]) -> usize
    requires { at + length (emission_of nine.now high word).words ≤ length out.old }
    ensures { Wrote out.old at (emission_of nine.now high word).words out.new result }
{
    match field::<24, 8>(word) {
        1 => put_mop(nine, high, word, at, out),
        3 => at,
        _ => put_one(out, at, word),
    }
}

// Internal: the whole stream, at a place of the output.
pub fn put_stream(nine: &[u32; NINE], high: u16, input: &[u32], at: usize, out: &mut [u32]) -> Put
    requires { at + length (stream_of nine.now high input.now).words ≤ length out.old }
    ensures high_value { result.high ≡ (stream_of nine.now high input.now).high }
    ensures wrote { Wrote out.old at (stream_of nine.now high input.now).words out.new result.at }
{
    // by value, so that the loop keeps them at hand while it writes
    let words = *nine;
    let mut mask = high;
    let mut p = at;
    for word in input {
        p = put_emission(&words, mask, *word, p, out);
        mask = mask_after(mask, *word);
    }
    Put { at: p, high: mask }
}
