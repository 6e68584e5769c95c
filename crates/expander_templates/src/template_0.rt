// Template 0, written at a place of the output that has room enough; each answers the place past what it wrote.
ghost use Rattle.std.specs.Prelude.{◌+◌, ◌≤◌, length};
ghost use Rattle.bits.specs.Overwrite.{Wrote};
ghost use Rattle.expander_rules.specs.Templates.{rounds, words_if, group, mask_group, mask_round};

use bits::put::{put_all, put_one};
use bits::word::flag;
use expander_rules::sizes::NINE;

// The words of a round: the first, three more, and the last.
#[derive(Clone, Copy)]
struct Group {
    first: u32,
    more: [u32; 3],
    last: u32,
}

#[tactic(auto, using(crate::proofs::Writing::wrote_none))]
fn put_if(on: bool, words: &[u32], at: usize, out: &mut [u32]) -> usize
    requires { at + length (words_if on words.now) ≤ length out.old }
    ensures { Wrote out.old at (words_if on words.now) out.new result }
{
    if on { put_all(out, at, words) } else { at }
}

// A round: the first word, then the three if bit 1 of m1, then the last if bit 0.
fn put_group(nine: &[u32; NINE], g: Group, at: usize, out: &mut [u32]) -> usize
    requires { at + length (group nine.now g.first g.more g.last) ≤ length out.old }
    ensures { Wrote out.old at (group nine.now g.first g.more g.last) out.new result }
{
    let p = put_one(out, at, g.first);
    let q = put_if(flag::<1>(nine[1]), &g.more, p, out);
    put_if(flag::<0>(nine[1]), &[g.last], q, out)
}

// The round of a set mask bit, or of a clear one.
#[tactic(auto, unfolding(expander_rules::specs::Templates::mask_group))]
fn put_mask_group(nine: &[u32; NINE], set: bool, at: usize, out: &mut [u32]) -> usize
    requires { at + length (mask_group nine.now set) ≤ length out.old }
    ensures { Wrote out.old at (mask_group nine.now set) out.new result }
{
    let [_, _, m2, m3, m4, m5, m6, m7, m8] = *nine;
    if set {
        let g = Group {
            first: m7,
            more: [m7; 3],
            last: m8,
        };
        put_group(nine, g, at, out)
    } else {
        let g = Group {
            first: m3,
            more: [m4, m5, m6],
            last: m2,
        };
        put_group(nine, g, at, out)
    }
}

// Internal: `count` rounds; `rest` is the mask shifted down to the round's bit.
pub fn put_template_0(
    nine: &[u32; NINE],
    mask: u32,
    count: u32,
    at: usize,
    out: &mut [u32],
) -> usize
    requires { at + length (rounds (mask_round nine.now mask) 0 count) ≤ length out.old }
    ensures { Wrote out.old at (rounds (mask_round nine.now mask) 0 count) out.new result }
{
    let mut p = at;
    let mut rest = mask;
    for i in 0..count {
        p = put_mask_group(nine, rest % 2 == 1, p, out);
        rest = rest / 2;
    }
    p
}
