// Refusal 7: a template 1 MOP in the stream with m0 or m1 over 127.
ghost use Rattle.std.specs.Prelude.{◌≡◌};
ghost use Rattle.expander_rules.specs.Stream.{is_template1, any_template1};
ghost use Rattle.expander_rules.specs.Call.{over_rounds, bad_rounds};

use bits::word::{field, flag};
use expander_rules::sizes::{NINE, ROUNDS_MOST};

// Internal: whether a word is a MOP of template 1.
pub fn is_template_1(word: u32) -> bool
    ensures { result ≡ is_template1 word }
{
    field::<24, 8>(word) == 1 && flag::<23>(word)
}

fn any_template_1(input: &[u32]) -> bool
    ensures { result ≡ any_template1 input.now }
{
    input.iter().any(|word| is_template_1(*word))
}

// Internal: whether m0 or m1 is over 127.
pub fn over_rounds(nine: &[u32; NINE]) -> bool
    ensures { result ≡ over_rounds nine.now }
{
    ROUNDS_MOST < nine[0] || ROUNDS_MOST < nine[1]
}

// Internal: whether a stream without a REPLAY is refused by 7.
pub fn bad_rounds(nine: &[u32; NINE], input: &[u32]) -> bool
    ensures { result ≡ bad_rounds nine.now input.now }
{
    over_rounds(nine) && any_template_1(input)
}
