// Reads nine words, what an expander carries, and a piece of a stream with a room or a close from standard input, expands the piece or
// closes the stream, and prints the words and what is carried on. README.md has the records.
#![tactic(auto)]

ghost use Rattle.std.specs.Prelude.{◌≡◌, ◌+◌, ◌*◌, ◌≤◌, length};
ghost use Rattle.expander_rules.specs.Call.{answered};
ghost use Rattle.expander_rules.specs.Sizes.{needed_most};
ghost use Rattle.expand.specs.Sizes.{nines_most, words_record, words_at, Fits};

mod input;
mod output;

use expander_rules::sizes::NEEDED_MOST;
use expander_rules::{Carried, Expanded};
use format::number::read;
use format::run::read_run;
use input::{CARRIED_AT, INPUT_BYTES, Input, NINES_MOST, ROOM_AT, Sizes, WORDS_AT, WORDS_MOST};
use program_carried::read_carried;
use program_io::read_full;
use std::io;

// The bytes of a record 39 with the most words that a call may write.
const WORDS_RECORD: usize = 6 + 4 * NEEDED_MOST;

// How many words record 40 of a sound input lends.
fn read_room(s: &[u8], z: Sizes) -> usize
    requires { Fits s.now z }
    ensures { result ≤ needed_most }
{
    let n = read::<4>(s, ROOM_AT + 6 + 4 * z.nine + 4 * z.words);
    NEEDED_MOST.min(n as usize)
}

fn print_answer(rt: &HostRuntime, done: Expanded, out: &[u32], bytes: &mut [u8]) -> io::Result<()>
    requires { (answered done.answer ≤ length out.now) × (length out.now ≤ needed_most) × (words_record ≤ length bytes.old) }
{
    match done.answer {
        Err(why) => output::print_refused(rt, why, done.carried),
        Ok(n) => output::print_done(rt, &out[..n], done.carried, bytes),
    }
}

// One call, and its answer.
fn expand_words(
    rt: &HostRuntime,
    nine: &[u32],
    carried: Carried,
    stream: &[u32],
    out: &mut [u32],
    bytes: &mut [u8],
) -> io::Result<()>
    requires { (length out.old ≤ needed_most) × (words_record ≤ length bytes.old) }
{
    let done = expander::expand(nine, carried, stream, out);
    print_answer(rt, done, out, bytes)
}

// The words of a sound input, read into slices as long as they are, and the call.
fn expand_input(
    rt: &HostRuntime,
    s: &[u8],
    z: Sizes,
    nine: &mut [u32],
    stream: &mut [u32],
    out: &mut [u32],
    bytes: &mut [u8],
) -> io::Result<()>
    requires { Fits s.now z × (length nine.old ≡ z.nine) × (length stream.old ≡ z.words) × (length out.old ≤ needed_most) × (words_record ≤ length bytes.old) }
{
    let n = z.nine;
    read_run::<u32, 4>(s, 6, nine);
    read_run::<u32, 4>(s, WORDS_AT + 6 + 4 * n, stream);
    let carried = read_carried(s, CARRIED_AT + 6 + 4 * n);
    expand_words(rt, nine, carried, stream, out, bytes)
}

// The same, in as much of the whole arrays as the input has words and lends room.
fn expand_sound(
    rt: &HostRuntime,
    s: &[u8],
    z: Sizes,
    nine: &mut [u32; NINES_MOST],
    stream: &mut [u32; WORDS_MOST],
    out: &mut [u32; NEEDED_MOST],
    bytes: &mut [u8; WORDS_RECORD],
) -> io::Result<()>
    requires { Fits s.now z }
{
    let room = read_room(s, z);
    expand_input(
        rt,
        s,
        z,
        &mut nine[..z.nine],
        &mut stream[..z.words],
        &mut out[..room],
        bytes,
    )
}

// A close of what a sound input carries. It looks at none of the nine words.
fn close_input(rt: &HostRuntime, s: &[u8], nine: usize) -> io::Result<()>
    requires { (nine ≤ nines_most) × (words_at + 4 * nine ≤ length s.now) }
{
    let done = expander::close(read_carried(s, CARRIED_AT + 6 + 4 * nine));
    match done.answer {
        Err(why) => output::print_refused(rt, why, done.carried),
        Ok(_) => output::print_closed(rt, done.carried),
    }
}

// Answers the input.
fn answer(
    rt: &HostRuntime,
    s: &[u8],
    nine: &mut [u32; NINES_MOST],
    stream: &mut [u32; WORDS_MOST],
    out: &mut [u32; NEEDED_MOST],
    bytes: &mut [u8; WORDS_RECORD],
) -> io::Result<()> {
    match input::read_input(s) {
        Err(bad) => output::print_bad(rt, bad.at),
        Ok(Input::Close(n)) => close_input(rt, s, n),
        Ok(Input::Piece(z)) => expand_sound(rt, s, z, nine, stream, out, bytes),
    }
}

fn main(rt: HostRuntime) -> io::Result<()> {
    let mut input = [0u8; INPUT_BYTES];
    let mut nine = [0u32; NINES_MOST];
    let mut stream = [0u32; WORDS_MOST];
    let mut out = [0u32; NEEDED_MOST];
    let mut bytes = [0u8; WORDS_RECORD];
    let n = read_full(&mut rt.stdin(), &mut input)?;
    answer(
        &rt,
        &input[..n],
        &mut nine,
        &mut stream,
        &mut out,
        &mut bytes,
    )
}
