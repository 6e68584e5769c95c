// Adler-32 (RFC 1950) over numbers as little-endian bytes. The bytes of a number are added in one go, with one remainder a sum.

// The two sums: of the bytes, and of the first sum after each byte.
#[derive(Clone, Copy)]
pub struct Sums {
    pub s1: u32,
    pub s2: u32,
}

const BASE: u64 = 65521;

// Of no bytes.
pub fn start() -> Sums {
    Sums { s1: 1, s2: 0 }
}

// The second sum above the first, 16 bits each.
pub fn checksum(s: Sums) -> u32 {
    s.s2 % 65536 * 65536 + s.s1 % 65536
}

fn remainders(s1: u64, s2: u64) -> Sums {
    Sums {
        s1: (s1 % BASE) as u32,
        s2: (s2 % BASE) as u32,
    }
}

pub fn add_byte(s: Sums, v: u8) -> Sums {
    let a = s.s1 as u64;
    let b = s.s2 as u64;
    let b0 = v as u64;
    remainders(a + b0, b + a + b0)
}

pub fn add_half(s: Sums, v: u16) -> Sums {
    let a = s.s1 as u64;
    let b = s.s2 as u64;
    let b0 = (v % 256) as u64;
    let b1 = (v / 256) as u64;
    remainders(a + b0 + b1, b + 2 * a + 2 * b0 + b1)
}

pub fn add_word(s: Sums, v: u32) -> Sums {
    let a = s.s1 as u64;
    let b = s.s2 as u64;
    let b0 = (v % 256) as u64;
    let b1 = (v / 256 % 256) as u64;
    let b2 = (v / 65536 % 256) as u64;
    let b3 = (v / 16777216) as u64;
    remainders(
        a + b0 + b1 + b2 + b3,
        b + 4 * a + 4 * b0 + 3 * b1 + 2 * b2 + b3,
    )
}

// A mark is the byte 1, none the byte 0.
pub fn add_mark(s: Sums, v: bool) -> Sums {
    add_byte(s, v as u8)
}

// The sums with each item added, in order.
fn add_all<T: Copy, F: Fn(Sums, T) -> Sums>(s: Sums, a: &[T], add: F) -> Sums
    requires { F.IsAlwaysCallable add }
{
    let mut t = s;
    for x in a {
        t = add(t, *x);
    }
    t
}

pub fn add_bytes(s: Sums, a: &[u8]) -> Sums {
    add_all(s, a, add_byte)
}

pub fn add_halves(s: Sums, a: &[u16]) -> Sums {
    add_all(s, a, add_half)
}

pub fn add_words(s: Sums, a: &[u32]) -> Sums {
    add_all(s, a, add_word)
}

pub fn add_marks(s: Sums, a: &[bool]) -> Sums {
    add_all(s, a, add_mark)
}
