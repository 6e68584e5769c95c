// The nine words m0 to m8, with what is asked of them for each word of a stream.
ghost use Rattle.std.specs.Prelude.{not, ◌&&◌, ◌≡◌};
ghost use Rattle.expander_rules.specs.Stream.{is_template1, any_replay};
ghost use Rattle.expander_rules.specs.Call.{over_rounds};

use expander_mop::limits::{is_template_1, over_rounds};
use expander_replay::loads::any_replay;
use expander_rules::sizes::NINE;

// The words; whether none of them is a REPLAY; whether m0 or m1 is over 127.
#[derive(Drop)]
pub(crate) struct Nine {
    pub(crate) words: [u32; NINE],
    pub(crate) plain: bool,
    pub(crate) over: bool,
    ghost none_replays: { plain ≡ not (any_replay words) },
    ghost tested: { over ≡ over_rounds words },
}

impl Nine {
    pub(crate) fn new(words: &[u32; NINE]) -> Self
        ensures { result.words ≡ words.now }
    {
        Nine {
            words: *words,
            plain: !any_replay(words),
            over: over_rounds(words),
        }
    }

    // Whether a word with them is refused by 7.
    pub(crate) fn refuse(&self, word: u32) -> bool
        ensures { result ≡ (over_rounds self.now.words && is_template1 word) }
    {
        self.over && is_template_1(word)
    }
}
