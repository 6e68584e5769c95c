// A MOP in parts: where a load is on or one of the nine words is a REPLAY, each part is written to a room of its own and goes through
// the replay stage from there.
ghost use Rattle.std.specs.Prelude.{◌≡◌, ◌≤◌, ◌<◌, take};
ghost use Rattle.expander_rules.specs.Sizes.{part_most};
ghost use Rattle.expander_rules.specs.Templates.{nth};
ghost use Rattle.expander_rules.specs.Stream.{opcode};
ghost use Rattle.expander.specs.Parts.{part_count, round_words, part_words, mop_part, WordFits};

use bits::word::flag;
use expander_mop::stream::put_stream;
use expander_rules::sizes::{NINE, PART_MOST};
use expander_templates::template_1::last_word;

// Internal: how many parts a MOP has.
pub(crate) fn part_count(nine: &[u32; NINE], word: u32) -> u32
    ensures { result ≡ part_count nine.now word }
{
    if flag::<23>(word) { nine[0] } else { 1 }
}

// The nine words of which template 1 makes outer round `o` alone.
fn round_words(nine: &[u32; NINE], o: u32) -> [u32; NINE]
    requires { o < nth nine.now 0 }
    ensures { result ≡ round_words nine.now o }
{
    let last = last_word(nine, o);
    let [_, m1, m2, m3, m4, m5, m6, _, m8] = *nine;
    [1, m1, m2, m3, m4, m5, m6, last, m8]
}

// The nine words of which a MOP makes its part `o` alone.
#[tactic(auto, unfolding(crate::specs::Parts::part_words))]
fn part_words(nine: &[u32; NINE], word: u32, o: u32) -> [u32; NINE]
    requires { o < part_count nine.now word }
    ensures { result ≡ part_words nine.now word o }
{
    if flag::<23>(word) {
        round_words(nine, o)
    } else {
        *nine
    }
}

// Internal: a part of a MOP, at the start of a room for it; the answer is how many words it has.
pub(crate) fn put_part(
    nine: &[u32; NINE],
    high: u16,
    word: u32,
    o: u32,
    room: &mut [u32; PART_MOST],
) -> usize
    requires { WordFits nine.now word × (opcode word ≡ 1) × (o < part_count nine.now word) }
    ensures { (take result room.new ≡ mop_part nine.now high word o) × (result ≤ part_most) }
{
    let words = part_words(nine, word, o);
    put_stream(&words, high, &[word], 0, room).at
}
