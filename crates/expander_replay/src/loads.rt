// Loads of the replay stage (document 02, K1): whether one takes the next word, what a word makes of it, and whether one that is
// carried is well formed (K2).
ghost use Rattle.std.specs.Prelude.{◌≡◌, ◌<◌, Some};
ghost use Rattle.expander_rules.specs.Sizes.{slot_count};
ghost use Rattle.expander_rules.specs.Stream.{is_replay, any_replay};
ghost use Rattle.expander_rules.specs.Replay.{is_loading, next_slot, is_shown, one_taken, load_obeyed, load_after, obeyed_badly};
ghost use Rattle.expander_rules.specs.State.{load_formed};
ghost use Rattle.expander_rules.specs.Counts.{words_left};

use bits::word::{field, flag};
use expander_rules::Load;
use expander_rules::sizes::SLOT_COUNT;

// Internal: whether a word is a REPLAY.
pub fn is_replay(word: u32) -> bool
    ensures { result ≡ is_replay word }
{
    field::<24, 8>(word) == 4
}

// Internal: whether one of the words is a REPLAY.
pub fn any_replay(words: &[u32]) -> bool
    ensures { result ≡ any_replay words.now }
{
    words.iter().any(|word| is_replay(*word))
}

// Internal: whether a load takes the next word.
pub fn is_loading(load: Option<Load>) -> bool
    ensures { result ≡ is_loading load }
{
    load.is_some_and(|load| 0 < load.left)
}

// Internal: the slot that takes it.
pub fn next_slot(load: Option<Load>) -> u32
    ensures { (result ≡ next_slot load) × (result < slot_count) }
{
    load.map_or(0, |load| load.next % SLOT_COUNT)
}

// Internal: whether it is written out too.
pub fn is_shown(load: Option<Load>) -> bool
    ensures { result ≡ is_shown load }
{
    load.is_some_and(|load| load.shown)
}

// Internal: how many words a load takes.
pub fn words_left(load: Option<Load>) -> usize
    ensures { result ≡ words_left load }
{
    load.map_or(0, |load| load.left as usize)
}

// A load that has words to come, with one word more.
fn one_taken(load: Load) -> Option<Load>
    requires { 0 < load.left }
    ensures { result ≡ one_taken (Some load) }
{
    if load.left == 1 {
        return None;
    }
    Some(Load {
        next: (load.next % SLOT_COUNT + 1) % SLOT_COUNT,
        left: load.left - 1,
        shown: load.shown,
    })
}

// The load after a word that it does not take.
fn load_obeyed(load: Option<Load>, word: u32) -> Option<Load>
    ensures { result ≡ load_obeyed load word }
{
    if is_replay(word) && flag::<0>(word) {
        return Some(Load {
            next: field::<14, 5>(word),
            left: field::<4, 6>(word),
            shown: flag::<1>(word),
        });
    }
    load
}

// Internal: the load after a word.
#[tactic(auto, unfolding(expander_rules::specs::Replay::load_after))]
pub fn load_after(load: Option<Load>, word: u32) -> Option<Load>
    ensures { result ≡ load_after load word }
{
    match load {
        Some(on) if 0 < on.left => one_taken(on),
        _ => load_obeyed(load, word),
    }
}

// Internal: whether a word is a REPLAY that is obeyed and has length 0 or over 32.
#[tactic(auto, unfolding(expander_rules::specs::Replay::obeyed_badly))]
pub fn obeyed_badly(load: Option<Load>, word: u32) -> bool
    ensures { result ≡ obeyed_badly load word }
{
    let length = field::<4, 6>(word);
    is_replay(word) && (!is_loading(load) && (length == 0 || SLOT_COUNT < length))
}

// Internal: whether a carried load is well formed. Refusal 10 is for one whose next slot is over 31 or whose words to come are over 32.
pub fn load_formed(load: Option<Load>) -> bool
    ensures { result ≡ load_formed load }
{
    load.is_none_or(|load| load.next < SLOT_COUNT && load.left <= SLOT_COUNT)
}
