// Writing what a stream gives, once it is known to be sound and to fit.
ghost use Rattle.std.specs.Prelude.{◌≡◌, ◌≤◌, length};
ghost use Rattle.bits.specs.Overwrite.{over};
ghost use Rattle.machine.specs.Answers.{accepted};
ghost use Rattle.expander_rules.specs.Stream.{opcode, mop_words, emission_of, stream_of};
ghost use Rattle.expander_rules.specs.Replay.{buffer, play_words};
ghost use Rattle.expander_rules.specs.Call.{fault_of};
ghost use Rattle.expander_replay.specs.Passing.{Passable, Passes};
ghost use Rattle.expander.specs.Parts.{WordFits};

use crate::nine::Nine;
use crate::parts;
use bits::word::field;
use expander_mop::mask::mask_after;
use expander_mop::stream::put_stream;
use expander_replay::loads::is_loading;
use expander_replay::pass::{Passed, pass_word, pass_words};
use expander_rules::Load;
use expander_rules::sizes::{PART_MOST, SLOTS};

// Any MOP, part by part.
fn pass_parts(
    nine: &Nine,
    high: u16,
    word: u32,
    start: Passed,
    slots: &mut [u32; SLOTS],
    room: &mut [u32; PART_MOST],
    out: &mut [u32],
) -> Passed
    requires { WordFits nine.now.words word × (opcode word ≡ 1) × Passable slots.old start (mop_words nine.now.words high word) out.old }
    ensures { Passes slots.old start (mop_words nine.now.words high word) out.old slots.new out.new result }
{
    let count = parts::part_count(&nine.words, word);
    let mut p = start;
    for o in 0..count {
        let n = parts::put_part(&nine.words, high, word, o, room);
        p = pass_words(&room[..n], p, slots, out);
    }
    p
}

// A MOP. One none of whose words is a REPLAY, while no load is on, is written where it stands.
fn pass_mop(
    nine: &Nine,
    high: u16,
    word: u32,
    p: Passed,
    slots: &mut [u32; SLOTS],
    room: &mut [u32; PART_MOST],
    out: &mut [u32],
) -> Passed
    requires { WordFits nine.now.words word × (opcode word ≡ 1) × Passable slots.old p (mop_words nine.now.words high word) out.old }
    ensures { Passes slots.old p (mop_words nine.now.words high word) out.old slots.new out.new result }
{
    let load = p.load;
    if nine.plain && !is_loading(load) {
        let put = put_stream(&nine.words, high, &[word], p.at, out);
        return Passed { at: put.at, load };
    }
    pass_parts(nine, high, word, p, slots, room, out)
}

// What a word of the stream gives.
#[tactic(auto, unfolding(expander_rules::specs::Stream::emission_of))]
fn pass_emission(
    nine: &Nine,
    high: u16,
    word: u32,
    p: Passed,
    slots: &mut [u32; SLOTS],
    room: &mut [u32; PART_MOST],
    out: &mut [u32],
) -> Passed
    requires { WordFits nine.now.words word × Passable slots.old p (emission_of nine.now.words high word).words out.old }
    ensures { Passes slots.old p (emission_of nine.now.words high word).words out.old slots.new out.new result }
{
    match field::<24, 8>(word) {
        1 => pass_mop(nine, high, word, p, slots, room, out),
        3 => p,
        _ => pass_word(word, p, slots, out),
    }
}

// The high mask and the load that a stream hands on.
#[derive(Clone, Copy)]
pub(crate) struct HandedOn {
    pub(crate) high: u16,
    pub(crate) load: Option<Load>,
}

// Internal: a whole stream, from the output's start.
pub(crate) fn pass_stream(
    nine: &Nine,
    high: u16,
    load: Option<Load>,
    input: &[u32],
    slots: &mut [u32; SLOTS],
    room: &mut [u32; PART_MOST],
    out: &mut [u32],
) -> HandedOn
    requires { (fault_of nine.now.words high load input.now ≡ accepted tt) × (length (play_words (buffer slots.old load) (stream_of nine.now.words high input.now).words).words ≤ length out.old) }
    ensures mask { result.high ≡ (stream_of nine.now.words high input.now).high }
    ensures taken { buffer slots.new result.load ≡ (play_words (buffer slots.old load) (stream_of nine.now.words high input.now).words).buffer }
    ensures wrote { out.new ≡ over out.old 0 (play_words (buffer slots.old load) (stream_of nine.now.words high input.now).words).words }
{
    let mut mask = high;
    let mut p = Passed { at: 0, load };
    for word in input {
        p = pass_emission(nine, mask, *word, p, slots, room, out);
        mask = mask_after(mask, *word);
    }
    HandedOn {
        high: mask,
        load: p.load,
    }
}
