// The high mask after a word.
ghost use Rattle.std.specs.Prelude.{List, ◌≡◌, ℕ};
ghost use Rattle.expander_rules.specs.Stream.{emission_of};

use bits::word::field;

// Internal: MOP_CFG sets it.
#[tactic(auto, unfolding(expander_rules::specs::Stream::emission_of))]
pub fn mask_after(high: u16, word: u32) -> u16
    ensures { (m : List ℕ) → result ≡ (emission_of m high word).high }
{
    if field::<24, 8>(word) == 3 {
        return field::<0, 16>(word) as u16;
    }
    high
}
