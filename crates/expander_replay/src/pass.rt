// Words that pass the replay stage, written at a place of the output that has room enough.
ghost use Rattle.std.specs.Prelude.{◌≡◌, ◌+◌, ◌≤◌, ◌<◌, [], ◌∷◌, length};
ghost use Rattle.bits.specs.Overwrite.{Wrote};
ghost use Rattle.expander_rules.specs.Sizes.{slot_count};
ghost use Rattle.expander_rules.specs.Replay.{slots_from, buffer, written_obeyed, written, slots_after};
ghost use Rattle.expander_replay.specs.Passing.{Passable, Passes};

use crate::loads::{
    any_replay, is_loading, is_replay, is_shown, load_after, next_slot, words_left,
};
use bits::put::{put_all, put_one};
use bits::word::{field, flag};
use expander_rules::Load;
use expander_rules::sizes::{SLOT_COUNT, SLOTS};

// The place past what was written, and the load.
#[derive(Clone, Copy)]
pub struct Passed {
    pub at: usize,
    pub load: Option<Load>,
}

// So many slots from one on.
fn put_slots(slots: &[u32; SLOTS], start: u32, count: u32, at: usize, out: &mut [u32]) -> usize
    requires { (start < slot_count) × (at + length (slots_from slots.now start count) ≤ length out.old) }
    ensures { Wrote out.old at (slots_from slots.now start count) out.new result }
{
    let mut p = at;
    let mut slot = start;
    for i in 0..count {
        p = put_one(out, p, slots[slot as usize]);
        slot = (slot + 1) % SLOT_COUNT;
    }
    p
}

// A word that no load takes.
#[tactic(auto, using(expander_templates::proofs::Writing::wrote_none), unfolding(expander_rules::specs::Replay::written_obeyed))]
fn put_obeyed(word: u32, slots: &[u32; SLOTS], at: usize, out: &mut [u32]) -> usize
    requires { at + length (written_obeyed slots.now word) ≤ length out.old }
    ensures { Wrote out.old at (written_obeyed slots.now word) out.new result }
{
    if !is_replay(word) {
        return put_one(out, at, word);
    }
    if flag::<0>(word) {
        return at;
    }
    put_slots(slots, field::<14, 5>(word), field::<4, 6>(word), at, out)
}

// What is written out for a word.
#[tactic(auto, using(expander_templates::proofs::Writing::wrote_none), unfolding(expander_rules::specs::Replay::written))]
fn put_written(
    word: u32,
    load: Option<Load>,
    slots: &[u32; SLOTS],
    at: usize,
    out: &mut [u32],
) -> usize
    requires { at + length (written (buffer slots.now load) word) ≤ length out.old }
    ensures { Wrote out.old at (written (buffer slots.now load) word) out.new result }
{
    if !is_loading(load) {
        return put_obeyed(word, slots, at, out);
    }
    if is_shown(load) {
        put_one(out, at, word)
    } else {
        at
    }
}

// What a word makes of the slots.
#[tactic(auto, unfolding(expander_rules::specs::Replay::slots_after))]
fn take_word(word: u32, load: Option<Load>, slots: &mut [u32; SLOTS])
    ensures { slots.new ≡ slots_after (buffer slots.old load) word }
{
    if is_loading(load) {
        slots[next_slot(load) as usize] = word;
    }
}

// Internal: one word.
pub fn pass_word(word: u32, p: Passed, slots: &mut [u32; SLOTS], out: &mut [u32]) -> Passed
    requires { Passable slots.old p (word ∷ []) out.old }
    ensures { Passes slots.old p (word ∷ []) out.old slots.new out.new result }
{
    let load = p.load;
    if is_replay(word) || is_loading(load) {
        let at = put_written(word, load, slots, p.at, out);
        take_word(word, load, slots);
        let after = load_after(load, word);
        return Passed { at, load: after };
    }
    let at = put_one(out, p.at, word);
    Passed { at, load }
}

// Words in a row, one by one.
fn pass_each(words: &[u32], start: Passed, slots: &mut [u32; SLOTS], out: &mut [u32]) -> Passed
    requires { Passable slots.old start words.now out.old }
    ensures { Passes slots.old start words.now out.old slots.new out.new result }
{
    let mut p = start;
    for word in words {
        p = pass_word(*word, p, slots, out);
    }
    p
}

// Words in a row: where no load is on and none is a REPLAY, as they are.
fn pass_rest(words: &[u32], p: Passed, slots: &mut [u32; SLOTS], out: &mut [u32]) -> Passed
    requires { Passable slots.old p words.now out.old }
    ensures { Passes slots.old p words.now out.old slots.new out.new result }
{
    let load = p.load;
    if is_loading(load) || any_replay(words) {
        return pass_each(words, p, slots, out);
    }
    let at = put_all(out, p.at, words);
    Passed { at, load }
}

// Internal: words in a row. Those that a load takes come first.
pub fn pass_words(words: &[u32], p: Passed, slots: &mut [u32; SLOTS], out: &mut [u32]) -> Passed
    requires { Passable slots.old p words.now out.old }
    ensures { Passes slots.old p words.now out.old slots.new out.new result }
{
    let taken = words_left(p.load).min(words.len());
    let q = pass_each(&words[..taken], p, slots, out);
    pass_rest(&words[taken..], q, slots, out)
}
