// Jobs of expansions of one stream into one output, each on what the one before carries on.
ghost use Rattle.std.specs.Prelude.{◌+◌, ◌≤◌, length};

use expander_rules::{Carried, Expanded};
use machine::sizes::STREAM_WORDS;
use test_jobs::{Job, Line};
use test_machines::sums;

// The last call's refusal (0 for none) and words, the high mask after it, and the output's checksum.
fn line_of(done: Expanded, sum: u32) -> Line {
    let high = done.carried.high_mask as u32;
    match done.answer {
        Ok(n) => Line::OfWords([0, (n % 4294967296) as u32, high, sum]),
        Err(why) => Line::OfWords([u32::from(why), 0, high, sum]),
    }
}

// What the first call takes: the seed is the high mask, and slots and load are fresh.
fn first_carried(seed: u32) -> Carried {
    let mut carried = expander::fresh_carried();
    carried.high_mask = (seed % 65536) as u16;
    carried
}

// What the last call answered and carries on; no word where there is none.
fn repeat_expansions(
    nine: &[u32],
    carried: Carried,
    stream: &[u32],
    out: &mut [u32],
    times: u32,
) -> Expanded {
    let mut done = Expanded {
        answer: Ok(0),
        carried,
    };
    for _ in 0..times {
        done = expander::expand(nine, done.carried, stream, out);
    }
    done
}

// Into the output lent.
fn expand_in(j: Job, nine: &[u32], stream: &[u32], out: &mut [u32]) -> Line {
    let done = repeat_expansions(nine, first_carried(j.seed), stream, out, j.times);
    let sum = sums::add_words(sums::start(), out);
    line_of(done, sums::checksum(sum))
}

// The nine words and then the stream. The limit is the room. Internal: the words are there.
pub(crate) fn do_expansions(j: Job, words: &[u32]) -> Option<Line>
    requires { j.n0 + j.n1 + j.n2 ≤ length words.now }
{
    let n = j.limit as usize;
    if STREAM_WORDS < n {
        return None;
    }
    let e0 = j.n0 as usize;
    let e1 = e0 + j.n1 as usize;
    let mut out = [0; STREAM_WORDS];
    Some(expand_in(j, &words[..e0], &words[e0..e1], &mut out[..n]))
}
