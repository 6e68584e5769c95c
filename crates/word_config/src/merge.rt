// RMWCIB's rule: one byte of a word, merged with new bits under a mask.
ghost use Rattle.std.specs.Prelude.{◌≡◌, ◌<◌};
ghost use Rattle.word_rules.specs.ConfigWords.{merged, with_merged};

// A byte with the bits of the mask replaced.
fn merge(mask: u8, value: u8, old: u8) -> u8
    ensures { result ≡ merged mask value old }
{
    (value & mask) | (old & (255 - mask))
}

// A word with byte k merged. Internal: it has four bytes.
pub(crate) fn with_merged(k: u8, mask: u8, value: u8, x: u32) -> u32
    requires { k < 4 }
    ensures { result ≡ with_merged k mask value x }
{
    let unit = 1 << (8 * k);
    let from = x / unit;
    let new = merge(mask, value, (from % 256) as u8);
    (from / 256 * 256 + new as u32) * unit + x % unit
}
