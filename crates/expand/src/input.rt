// What an input holds: records 37 (the nine words) and 38 (what is carried), and then 39 (the stream) and 40 (the room) or 41 (a close),
// or where the first bad one starts.
ghost use Rattle.std.specs.Prelude.{◌+◌, ◌*◌, ◌≤◌, length};
ghost use Rattle.expand.specs.Sizes.{nines_most, words_most, words_at, Read};

use program_carried::{CARRIED_KIND, CARRIED_LENGTH, RECORD_BYTES, is_sound};
use program_records::counts::words_record;
use program_records::head::{BadRecord, has_body};

// The most words of records 37 and 39: one more than the longest stream, so that a call refuses it.
pub(crate) const NINES_MOST: usize = 16;

pub(crate) const WORDS_MOST: usize = 65537;

// Where records 38, 39 or 41, and 40 start, and the input ends, but for 4 bytes a word of records 37 and 39; each record has a head of
// 6, and record 40 a body of 4.
pub(crate) const CARRIED_AT: usize = 6;

pub(crate) const WORDS_AT: usize = CARRIED_AT + RECORD_BYTES;

pub(crate) const ROOM_AT: usize = WORDS_AT + 6;

const END_AT: usize = ROOM_AT + 6 + 4;

// The bytes of the longest sound input, and one more, by which a longer one is known.
pub(crate) const INPUT_BYTES: usize = END_AT + 4 * NINES_MOST + 4 * WORDS_MOST + 1;

// The longest bodies of records 37 and 39.
const NINES_BYTES: u32 = 4 * NINES_MOST as u32;

const WORDS_BYTES: u32 = 4 * WORDS_MOST as u32;

// How many words records 37 and 39 have.
#[derive(Clone, Copy)]
pub(crate) struct Sizes {
    pub(crate) nine: usize,
    pub(crate) words: usize,
}

// What a sound input asks for.
#[derive(Clone, Copy)]
pub(crate) enum Input {
    // a piece
    Piece(Sizes),
    // a close; how many words record 37 has
    Close(usize),
}

fn from_room(s: &[u8], nine: usize, words: usize) -> Result<Input, BadRecord>
    requires { (nine ≤ nines_most) × (words ≤ words_most) }
    ensures { Read s.now result }
{
    let at = ROOM_AT + 4 * nine + 4 * words;
    if !has_body(s, at, 40, 4) {
        return Err(BadRecord { at });
    }
    if s.len() != at + 10 {
        return Err(BadRecord { at: at + 10 });
    }
    Ok(Input::Piece(Sizes { nine, words }))
}

fn from_close(s: &[u8], nine: usize) -> Result<Input, BadRecord>
    requires { (nine ≤ nines_most) × (words_at + 4 * nine ≤ length s.now) }
    ensures { Read s.now result }
{
    let at = WORDS_AT + 4 * nine;
    if has_body(s, at, 41, 0) {
        if s.len() != at + 6 {
            return Err(BadRecord { at: at + 6 });
        }
        return Ok(Input::Close(nine));
    }
    let Some(words) = words_record(s, at, 39, WORDS_BYTES) else {
        return Err(BadRecord { at });
    };
    from_room(s, nine, words)
}

fn from_carried(s: &[u8], nine: usize) -> Result<Input, BadRecord>
    requires { nine ≤ nines_most }
    ensures { Read s.now result }
{
    let at = CARRIED_AT + 4 * nine;
    if !has_body(s, at, CARRIED_KIND, CARRIED_LENGTH) || !is_sound(s, at + 6) {
        return Err(BadRecord { at });
    }
    from_close(s, nine)
}

// Internal: the whole input.
pub(crate) fn read_input(s: &[u8]) -> Result<Input, BadRecord>
    ensures { Read s.now result }
{
    let Some(nine) = words_record(s, 0, 37, NINES_BYTES) else {
        return Err(BadRecord { at: 0 });
    };
    from_carried(s, nine)
}
