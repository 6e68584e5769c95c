// Tests and numbers that every crate above uses; the laws of bits, bytes and lists are in proofs/.
#![tactic(auto)]

pub mod copy;
pub mod put;
pub mod word;

ghost use Rattle.std.specs.Prelude.{◌≡◌};
ghost use Rattle.bits.specs.Ranges.{all_at_most};

// Whether every word of `a` is at most `most`, which the greatest tells. It looks at every word, so that it is compiled to wide steps.
pub fn words_at_most(a: &[u32], most: u32) -> bool
    ensures { result ≡ all_at_most most a.now }
{
    let mut greatest = 0;
    for word in a {
        greatest = greatest.max(*word);
    }
    greatest <= most
}

// True of every slice, by its type: no word is over 32 bits. With it, a check of a whole machine states what the types give, which is known of
// a parameter and not of a field, nor where the type is a parameter: so there is one for each type.
pub fn words_fit(a: &[u32]) -> bool
    ensures { result ≡ all_at_most 4294967295 a.now }
{
    a.is_empty() || a[0] <= 0xffff_ffff
}

// The same of 16-bit numbers.
pub fn halves_fit(a: &[u16]) -> bool
    ensures { result ≡ all_at_most 65535 a.now }
{
    a.is_empty() || a[0] <= 65535
}
