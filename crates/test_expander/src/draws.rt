// Numbers from a seed, as oracle/cases/cases_expander.py draws them.
ghost use Rattle.std.specs.Prelude.{◌≤◌};

use bits::word::field;
use test_machines::draws::{draw, next_state, state_after, word};

// Fills the words with the generator's states after `state`, and answers the last.
pub(crate) fn fill(words: &mut [u32], state: u32) -> u32 {
    let mut x = state;
    for word in words {
        x = next_state(x);
        *word = x;
    }
    x
}

// Of sixteen kinds those below `below` are REPLAY words; their lengths may be 0 or over 32 where they are odd.
#[derive(Clone, Copy)]
pub(crate) struct Replays {
    pub(crate) below: u32,
    pub(crate) odd: bool,
}

// Of sixteen kinds those below `mops0` are MOP words of template 0, then those below `mops1` of template 1, then those below
// `configs` MOP_CFG words, then REPLAY words. `counts` is the most that template 0's count is.
#[derive(Clone, Copy)]
pub(crate) struct Mix {
    pub(crate) mops0: u32,
    pub(crate) mops1: u32,
    pub(crate) configs: u32,
    pub(crate) counts: u32,
    pub(crate) replays: Replays,
}

// The last four of sixteen lengths, by whether they may be odd.
fn late_length(pick: u32, odd: bool, any: u32) -> u32
    ensures { result ≤ 63 }
{
    if odd {
        return match pick {
            12 => 0,
            13 => 33,
            14 => 63,
            _ => field::<4, 6>(any),
        };
    }
    match pick {
        12 => 32,
        13 => 31,
        14 => 7,
        _ => 6,
    }
}

fn replay_length(pick: u32, odd: bool, any: u32) -> u32
    ensures { result ≤ 63 }
{
    match pick {
        0 => 1,
        1 => 1,
        2 => 2,
        3 => 2,
        4 => 3,
        5 => 3,
        6 => 4,
        7 => 5,
        8 => 8,
        9 => 16,
        10 => 31,
        11 => 32,
        _ => late_length(pick, odd, any),
    }
}

fn replay_start(any: u32) -> u32
    ensures { result ≤ 31 }
{
    if field::<28, 2>(any) == 0 {
        return 31;
    }
    field::<14, 5>(any)
}

// The REPLAY word that a drawn word makes: its high half also chooses length and start.
fn replay_word(any: u32, odd: bool) -> u32 {
    let length = replay_length(field::<24, 4>(any), odd, any);
    let start = replay_start(any);
    0x0400_0000
        + any % 16
        + length * 16
        + field::<10, 4>(any) * 1024
        + start * 16384
        + field::<19, 5>(any) * 524288
}

// A word, or the REPLAY word in its place.
fn replaced(old: u32, replays: Replays, x: u32) -> u32 {
    let kind = draw(x) as u32 % 16;
    let any = word(next_state(x), u32::MAX);
    if kind < replays.below {
        return replay_word(any, replays.odd);
    }
    old
}

// Puts REPLAY words in the place of some, and answers the last state.
pub(crate) fn put_replays(words: &mut [u32], replays: Replays, state: u32) -> u32 {
    let mut x = state;
    for word in words {
        *word = replaced(*word, replays, x);
        x = state_after(x, 3);
    }
    x
}

// The word that three draws make: its kind, and its high and low half.
fn make_word(mix: Mix, x: u32) -> u32 {
    let kind = draw(x) as u32 % 16;
    let any = word(next_state(x), u32::MAX);
    if kind < mix.mops0 {
        let count = field::<16, 7>(any).min(mix.counts % 128);
        return 0x0100_0000 + count * 65536 + any % 65536;
    }
    if kind < mix.mops1 {
        return 0x0180_0000 + any % 0x80_0000;
    }
    if kind < mix.configs {
        return 0x0300_0000 + any % 0x100_0000;
    }
    if kind < mix.replays.below {
        return replay_word(any, mix.replays.odd);
    }
    any
}

// Fills the words with such words, and answers the last state.
pub(crate) fn make_stream(words: &mut [u32], mix: Mix, state: u32) -> u32 {
    let mut x = state;
    for word in words {
        *word = make_word(mix, x);
        x = state_after(x, 3);
    }
    x
}
