// Counting the words that a MOP gives, up to one past a limit.
ghost use Rattle.std.specs.Prelude.{◌≡◌, ◌+◌, ◌*◌, ◌≤◌};
ghost use Rattle.expander_rules.specs.Sizes.{needed_most};
ghost use Rattle.expander_rules.specs.Counts.{capped, group_count, outer_count, mop_count};

use bits::word::{field, flag};
use expander_rules::sizes::NINE;

// Internal: n, or one past the limit where it passes it.
pub fn cap(n: usize, limit: usize) -> usize
    requires { limit ≤ needed_most }
    ensures { result ≡ capped limit n }
{
    n.min(limit + 1)
}

// Template 1: `start` and the words of `outer` outer rounds, left by the label once the count passes the limit.
fn count_rounds(outer: u32, inner: u32, start: usize, limit: usize) -> usize
    requires { (start ≤ limit) × (limit ≤ needed_most) }
    ensures { result ≡ capped limit (start + outer * outer_count inner) }
{
    let mut n = start;
    'outer: for o in 0..outer {
        // m2
        n += 1;
        for j in 0..inner {
            // m5, and m6, m7 or m8
            n += 2;
            if limit < n {
                break 'outer;
            }
        }
        // m3 m4
        n += 2;
        if limit < n {
            break 'outer;
        }
    }
    cap(n, limit)
}

// Template 0: the words of a round.
fn group_count(nine: &[u32; NINE]) -> u32
    ensures { (result ≡ group_count nine.now) × (result ≤ 5) }
{
    1 + 3 * field::<1, 1>(nine[1]) + field::<0, 1>(nine[1])
}

// Internal: the words of a MOP after `start` others.
#[tactic(auto, unfolding(expander_rules::specs::Counts::mop_count))]
pub fn count_mop(nine: &[u32; NINE], word: u32, start: usize, limit: usize) -> usize
    requires { (start ≤ limit) × (limit ≤ needed_most) }
    ensures { result ≡ capped limit (start + mop_count nine.now word) }
{
    if flag::<23>(word) {
        count_rounds(nine[0], nine[1], start, limit)
    } else {
        let all = (field::<16, 7>(word) + 1) * group_count(nine);
        cap(start + all as usize, limit)
    }
}
