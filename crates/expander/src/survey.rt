// Looking ahead over a stream: refusals 7 and 13 in one pass, and the words that it gives, up to one past a limit. Its
// functions go over words as those of pass.rt do; but these may stop and write nothing, and those can't fail and write: one function over both
// would need a trait of four laws, which is no plainer.
ghost use Rattle.std.specs.Prelude.{true, false, ◌≡◌, ℕ, ◌≤◌, Some};
ghost use Rattle.machine.specs.Answers.{accepted, told};
ghost use Rattle.expander_rules.specs.Sizes.{needed_most};
ghost use Rattle.expander_rules.specs.Stream.{opcode, mop_words, emission_of, stream_of};
ghost use Rattle.expander_rules.specs.Replay.{is_loading};
ghost use Rattle.expander_rules.specs.Call.{fault_of, unless_refused};
ghost use Rattle.expander_rules.specs.Counts.{capped, played_count};
ghost use Rattle.expander_replay.specs.Surveyed.{Surveying, Surveyed};
ghost use Rattle.expander.specs.Parts.{WordFits};

use crate::nine::Nine;
use crate::parts;
use bits::word::field;
use expander_mop::mask::mask_after;
use expander_replay::loads::is_loading;
use expander_replay::survey::{Survey, survey_word, survey_words};
use expander_rules::Load;
use expander_rules::sizes::PART_MOST;
use expander_templates::count::count_mop;
use machine::refusal::Refusal;

// A MOP none of whose words is a REPLAY, while no load is on: its words are counted and not made.
fn survey_plain(nine: &Nine, word: u32, s: Survey, limit: usize) -> Survey
    requires { (nine.now.plain ≡ true) × (is_loading s.load ≡ false) × Surveying s limit }
    ensures { (high : ℕ) → Surveyed s (mop_words nine.now.words high word) limit (Some result) }
{
    if limit < s.count {
        return s;
    }
    let count = count_mop(&nine.words, word, s.count, limit);
    Survey {
        count,
        load: s.load,
    }
}

// Any MOP, part by part.
fn survey_parts(
    nine: &Nine,
    high: u16,
    word: u32,
    start: Survey,
    limit: usize,
    room: &mut [u32; PART_MOST],
) -> Option<Survey>
    requires { WordFits nine.now.words word × (opcode word ≡ 1) × Surveying start limit }
    ensures { Surveyed start (mop_words nine.now.words high word) limit result }
{
    let count = parts::part_count(&nine.words, word);
    let mut s = start;
    for o in 0..count {
        let n = parts::put_part(&nine.words, high, word, o, room);
        s = survey_words(&room[..n], s, limit)?;
    }
    Some(s)
}

// A MOP.
fn survey_mop(
    nine: &Nine,
    high: u16,
    word: u32,
    s: Survey,
    limit: usize,
    room: &mut [u32; PART_MOST],
) -> Option<Survey>
    requires { WordFits nine.now.words word × (opcode word ≡ 1) × Surveying s limit }
    ensures { Surveyed s (mop_words nine.now.words high word) limit result }
{
    if nine.plain && !is_loading(s.load) {
        return Some(survey_plain(nine, word, s, limit));
    }
    survey_parts(nine, high, word, s, limit, room)
}

// What a word of the stream gives.
#[tactic(auto, unfolding(expander_rules::specs::Stream::emission_of))]
fn survey_emission(
    nine: &Nine,
    high: u16,
    word: u32,
    s: Survey,
    limit: usize,
    room: &mut [u32; PART_MOST],
) -> Option<Survey>
    requires { WordFits nine.now.words word × Surveying s limit }
    ensures { Surveyed s (emission_of nine.now.words high word).words limit result }
{
    match field::<24, 8>(word) {
        1 => survey_mop(nine, high, word, s, limit, room),
        3 => Some(s),
        _ => survey_word(word, s, limit),
    }
}

// Internal: a whole stream: how many words it gives, where it is sound.
pub(crate) fn survey_stream(
    nine: &Nine,
    high: u16,
    load: Option<Load>,
    input: &[u32],
    limit: usize,
    room: &mut [u32; PART_MOST],
) -> Result<usize, Refusal>
    requires { limit ≤ needed_most }
    ensures { told result ≡ unless_refused (fault_of nine.now.words high load input.now) (accepted (capped limit (played_count load (stream_of nine.now.words high input.now).words))) }
{
    let mut mask = high;
    let mut s = Survey { count: 0, load };
    for word in input {
        if nine.refuse(*word) {
            return Err(Refusal::BadRounds);
        }
        let Some(next) = survey_emission(nine, mask, *word, s, limit, room) else {
            return Err(Refusal::BadReplay);
        };
        s = next;
        mask = mask_after(mask, *word);
    }
    Ok(s.count)
}
