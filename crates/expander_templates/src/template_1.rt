// Template 1, written at a place of the output that has room enough; each answers the place past what it wrote.
ghost use Rattle.std.specs.Prelude.{◌≡◌, ◌+◌, ◌≤◌, ◌<◌, [], ◌∷◌, length};
ghost use Rattle.bits.specs.Overwrite.{Wrote};
ghost use Rattle.expander_rules.specs.Templates.{nth, rounds, last_word, inner_round, outer_round, template1};

use bits::put::put_one;
use expander_rules::sizes::NINE;

// Two words, each by a store of its own: a copy of two takes twice as long.
fn put_pair(out: &mut [u32], at: usize, a: u32, b: u32) -> usize
    requires { at + 2 ≤ length out.old }
    ensures { Wrote out.old at (a ∷ b ∷ []) out.new result }
{
    let p = put_one(out, at, a);
    put_one(out, p, b)
}

// The inner rounds of an outer round; `last` follows m5 in the last of them.
fn put_inner(nine: &[u32; NINE], last: u32, at: usize, out: &mut [u32]) -> usize
    requires { at + length (rounds (inner_round nine.now last) 0 (nth nine.now 1)) ≤ length out.old }
    ensures { Wrote out.old at (rounds (inner_round nine.now last) 0 (nth nine.now 1)) out.new result }
{
    let count = nine[1];
    if count == 0 {
        return at;
    }
    let m5 = nine[5];
    let m6 = nine[6];
    let mut p = at;
    for j in 0..count - 1 {
        p = put_pair(out, p, m5, m6);
    }
    put_pair(out, p, m5, last)
}

// The word that follows m5 in the last inner round of outer round `o`. Internal: there is such a round.
#[tactic(auto, unfolding(expander_rules::specs::Templates::last_word))]
pub fn last_word(nine: &[u32; NINE], o: u32) -> u32
    requires { o < nth nine.now 0 }
    ensures { result ≡ last_word nine.now o }
{
    if o < nine[0] - 1 { nine[8] } else { nine[7] }
}

fn put_outer(nine: &[u32; NINE], o: u32, at: usize, out: &mut [u32]) -> usize
    requires { (o < nth nine.now 0) × (at + length (outer_round nine.now o) ≤ length out.old) }
    ensures { Wrote out.old at (outer_round nine.now o) out.new result }
{
    let last = last_word(nine, o);
    let p = put_one(out, at, nine[2]);
    let q = put_inner(nine, last, p, out);
    put_pair(out, q, nine[3], nine[4])
}

// Internal: the outer rounds.
pub fn put_template_1(nine: &[u32; NINE], at: usize, out: &mut [u32]) -> usize
    requires { at + length (template1 nine.now) ≤ length out.old }
    ensures { Wrote out.old at (template1 nine.now) out.new result }
{
    let mut p = at;
    for o in 0..nine[0] {
        p = put_outer(nine, o, p, out);
    }
    p
}
