// Counting the words that a stream gives, up to one past a limit.
ghost use Rattle.std.specs.Prelude.{◌≡◌, ◌+◌, ◌≤◌};
ghost use Rattle.expander_rules.specs.Sizes.{needed_most};
ghost use Rattle.expander_rules.specs.Counts.{capped, emission_count, stream_count};

use bits::word::field;
use expander_rules::sizes::NINE;
use expander_templates::count::{cap, count_mop};

#[tactic(auto, unfolding(expander_rules::specs::Counts::emission_count))]
fn count_emission(nine: &[u32; NINE], word: u32, start: usize, limit: usize) -> usize
    requires { (start ≤ limit) × (limit ≤ needed_most) }
    ensures { result ≡ capped limit (start + emission_count nine.now word) }
{
    match field::<24, 8>(word) {
        1 => count_mop(nine, word, start, limit),
        3 => start,
        _ => cap(start + 1, limit),
    }
}

// Internal: the words of a whole stream.
pub fn count_stream(nine: &[u32; NINE], input: &[u32], limit: usize) -> usize
    requires { limit ≤ needed_most }
    ensures { result ≡ capped limit (stream_count nine.now input.now) }
{
    let mut n: usize = 0;
    for word in input {
        n = count_emission(nine, *word, n, limit);
        if limit < n {
            return n;
        }
    }
    n
}
