// Looking ahead: whether a bad REPLAY is obeyed, and how many words are written out. It needs no slots.
// Its functions go over words as those of pass.rt do: see the expander's survey.rt for why they are two.
ghost use Rattle.std.specs.Prelude.{◌≡◌, [], ◌∷◌, ◌≤◌, length};
ghost use Rattle.expander_rules.specs.Sizes.{needed_most};
ghost use Rattle.expander_rules.specs.Counts.{obeyed_count, written_count};
ghost use Rattle.expander_replay.specs.Surveyed.{Surveying, Surveyed};

use crate::loads::{
    any_replay, is_loading, is_replay, is_shown, load_after, obeyed_badly, words_left,
};
use bits::word::{field, flag};
use expander_rules::Load;
use expander_templates::count::cap;

// The words written out so far, or one past the limit where they pass it, and the load. Where a bad REPLAY is obeyed there is none.
#[derive(Clone, Copy)]
pub struct Survey {
    pub count: usize,
    pub load: Option<Load>,
}

// How many words are written out for a word that no load takes.
#[tactic(auto, unfolding(expander_rules::specs::Counts::obeyed_count))]
fn count_obeyed(word: u32) -> usize
    ensures { (result ≡ obeyed_count word) × (result ≤ 63) }
{
    if !is_replay(word) {
        return 1;
    }
    if flag::<0>(word) {
        return 0;
    }
    field::<4, 6>(word) as usize
}

// How many words are written out for a word.
#[tactic(auto, unfolding(expander_rules::specs::Counts::written_count))]
fn count_word(load: Option<Load>, word: u32) -> usize
    ensures { (result ≡ written_count load word) × (result ≤ 63) }
{
    if !is_loading(load) {
        return count_obeyed(word);
    }
    if is_shown(load) { 1 } else { 0 }
}

// Internal: one word, after those of `s`.
pub fn survey_word(word: u32, s: Survey, limit: usize) -> Option<Survey>
    requires { Surveying s limit }
    ensures { Surveyed s (word ∷ []) limit result }
{
    let load = s.load;
    if is_replay(word) || is_loading(load) {
        if obeyed_badly(load, word) {
            return None;
        }
        let count = cap(s.count + count_word(load, word), limit);
        let after = load_after(load, word);
        return Some(Survey { count, load: after });
    }
    let count = cap(s.count + 1, limit);
    Some(Survey { count, load })
}

// Words in a row, one by one.
fn survey_each(words: &[u32], start: Survey, limit: usize) -> Option<Survey>
    requires { Surveying start limit }
    ensures { Surveyed start words.now limit result }
{
    let mut s = start;
    for word in words {
        s = survey_word(*word, s, limit)?;
    }
    Some(s)
}

// Words in a row: where no load is on and none is a REPLAY, each is written out.
fn survey_rest(words: &[u32], s: Survey, limit: usize) -> Option<Survey>
    requires { Surveying s limit × (length words.now ≤ needed_most) }
    ensures { Surveyed s words.now limit result }
{
    let load = s.load;
    if is_loading(load) || any_replay(words) {
        return survey_each(words, s, limit);
    }
    let count = cap(s.count + words.len(), limit);
    Some(Survey { count, load })
}

// Internal: words in a row. Those that a load takes come first.
pub fn survey_words(words: &[u32], s: Survey, limit: usize) -> Option<Survey>
    requires { Surveying s limit × (length words.now ≤ needed_most) }
    ensures { Surveyed s words.now limit result }
{
    let taken = words_left(s.load).min(words.len());
    let t = survey_each(&words[..taken], s, limit)?;
    survey_rest(&words[taken..], t, limit)
}
