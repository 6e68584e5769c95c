// Bits of a word, by place and width: bits 16 to 21 are `field::<16, 6>`.
ghost use Rattle.std.specs.Prelude.{◌≡◌, ◌^◌, ◌<◌};
ghost use Rattle.bits.specs.Field.{field, flag};

// The WIDTH bits of a word from bit AT on. Internal: they are among its 32, and fewer.
pub fn field<const AT: u32, const WIDTH: u32>(word: u32) -> u32
    requires { (AT < 32) × (WIDTH < 32) }
    ensures value { result ≡ field AT WIDTH word }
    ensures fits { result < 2 ^ WIDTH }
{
    (word >> AT) % (1 << WIDTH)
}

// Whether bit AT of a word is set. Internal: it is among its 32.
pub fn flag<const AT: u32>(word: u32) -> bool
    requires { AT < 32 }
    ensures { result ≡ flag AT word }
{
    (word >> AT) % 2 == 1
}
