// The two flags that set the maps.
ghost use Rattle.std.specs.Prelude.{◌≡◌};
ghost use Rattle.dest.specs.Flags.{flags_of};

use bits::word::flag;

// The Config word of a bank that holds them.
pub const FLAG_WORD: usize = 255;

#[derive(Clone, Copy)]
pub struct Flags {
    pub remap: bool,
    // of the 32-bit view only
    pub swizzle: bool,
}

// The flags that the Config word holds.
pub fn flags_of(word: u32) -> Flags
    ensures { result ≡ flags_of word }
{
    Flags {
        remap: flag::<0>(word),
        swizzle: flag::<1>(word),
    }
}
