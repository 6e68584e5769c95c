// The numbers and streams of the input.
ghost use Rattle.std.specs.Prelude.{◌+◌, ◌≤◌, ◌<◌, length};

use run_order::cursor::Cursor;
use test_machines::made::MADE_BYTES;

// A case up to its streams.
pub(crate) const CASE_BYTES: usize = MADE_BYTES + 20;

// A stream up to its words.
const STREAM_BYTES: usize = 12;

// What a stream took: where the input goes on, and how many words it has.
#[derive(Clone, Copy)]
pub(crate) struct Taken {
    pub(crate) end: usize,
    pub(crate) words: usize,
}

// The number of 4 bytes at `at`. Internal: it is there.
pub(crate) fn word_at(input: &[u8], at: usize) -> u32
    requires { at + 4 ≤ length input.now }
{
    format::number::read::<4>(input, at)
}

// The three positions and the next thread. Internal: they are there.
pub(crate) fn cursor_at(input: &[u8], at: usize) -> Cursor
    requires { at + 16 ≤ length input.now }
{
    Cursor {
        at0: word_at(input, at) as usize,
        at1: word_at(input, at + 4) as usize,
        at2: word_at(input, at + 8) as usize,
        next: word_at(input, at + 12),
    }
}

// Where the next word is after the one at `at`; after the last it is the one at `back`, or the first.
fn following(at: usize, back: usize, len: usize) -> usize
    requires { (at + 4 ≤ len) × (back ≤ 4294967295) }
    ensures { result + 4 ≤ len }
{
    if 8 <= len - at {
        return at + 4;
    }
    if 4 * back + 4 <= len {
        return 4 * back;
    }
    0
}

// Fills a stream with the words, those from number `back` on over and over. Where there is none it is left as it is.
fn fill_stream(words: &[u8], back: u32, dst: &mut [u32]) {
    if words.len() < 4 {
        return;
    }
    let mut at: usize = 0;
    for word in dst {
        *word = word_at(words, at);
        at = following(at, back as usize, words.len());
    }
}

// The stream at `at`: how many words are given, the number of the one that follows the last, the stream's length, the words.
pub(crate) fn take_stream(input: &[u8], at: usize, dst: &mut [u32]) -> Taken
    requires { at ≤ length input.now }
    ensures { (at ≤ result.end) × (result.end ≤ length input.now) × (result.words ≤ length dst.old) }
{
    if input.len() - at < STREAM_BYTES {
        return Taken {
            end: input.len(),
            words: 0,
        };
    }
    let given = word_at(input, at) as usize;
    let back = word_at(input, at + 4);
    let length = word_at(input, at + 8) as usize;
    let from = at + STREAM_BYTES;
    let end = from + (4 * given).min(input.len() - from);
    let words = length.min(dst.len());
    fill_stream(&input[from..end], back, &mut dst[..words]);
    Taken { end, words }
}
