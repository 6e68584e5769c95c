// Little-endian numbers of one to four bytes, and the types of numbers that hold them.
ghost use Rattle.std.specs.Prelude.{◌≡◌, ℕ, ◌+◌, ◌^◌, ◌≤◌, ◌<◌, length, drop};
ghost use Rattle.bits.specs.Bytes.{enc, le};
ghost use Rattle.bits.specs.Overwrite.{Wrote};

// An unsigned number of at most 32 bits: what it is as a number, and which of the type a number is.
pub trait Number: Copy {
    ghost value: { Self → ℕ };

    ghost of: { ℕ → Self };

    // The largest that the type holds.
    ghost most: { ℕ };

    fn wide(self) -> u32
        ensures same { result ≡ value self }
        ensures fits { result ≤ most };

    fn narrow(v: u32) -> Self
        requires { v ≤ most }
        ensures { result ≡ of v };

    ghost value_of: { (v : ℕ) → v ≤ most → value (of v) ≡ v };
}

impl Number for u8 {
    ghost value = { λ x. x };

    ghost of = { λ v. v };

    ghost most = { 255 };

    ghost use Rattle.std.specs.Prelude.{refl};

    ghost value_of = { λ _ _. refl };

    fn wide(self) -> u32 {
        self as u32
    }

    fn narrow(v: u32) -> u8 {
        v as u8
    }
}

impl Number for u16 {
    ghost value = { λ x. x };

    ghost of = { λ v. v };

    ghost most = { 65535 };

    ghost use Rattle.std.specs.Prelude.{refl};

    ghost value_of = { λ _ _. refl };

    fn wide(self) -> u32 {
        self as u32
    }

    fn narrow(v: u32) -> u16 {
        v as u16
    }
}

impl Number for u32 {
    ghost value = { λ x. x };

    ghost of = { λ v. v };

    ghost most = { 4294967295 };

    ghost use Rattle.std.specs.Prelude.{refl};

    ghost value_of = { λ _ _. refl };

    fn wide(self) -> u32 {
        self
    }

    fn narrow(v: u32) -> u32 {
        v
    }
}

// The number that the W bytes from `at` are, one to four of them. Internal: they are there.
pub fn read<const W: usize>(s: &[u8], at: usize) -> u32
    requires { (at + W ≤ length s.now) × (0 < W) × (W ≤ 4) }
    ensures value { result ≡ le W (drop at s.now) }
    ensures fits { result < 256 ^ W }
{
    let mut v = 0;
    for i in (0..W).rev() {
        v = v * 256 + s[at + i] as u32;
    }
    v
}

// Writes the low W bytes of `v` from `at`, one to four of them. Internal: there is room.
pub fn write<const W: usize>(out: &mut [u8], at: usize, v: u32)
    requires { (at + W ≤ length out.old) × (0 < W) × (W ≤ 4) }
    ensures { Wrote out.old at (enc W v) out.new (at + W) }
{
    let mut left = v;
    for i in 0..W {
        out[at + i] = (left % 256) as u8;
        left /= 256;
    }
}
