// Decimal numbers and words in hex digits written into a lent buffer. Each function answers where the next byte goes.
#![tactic(auto)]

ghost use Rattle.std.specs.Prelude.{◌≡◌, ◌+◌, ◌<◌, ◌≤◌, length};
ghost use Rattle.bits.specs.Overwrite.{over, Wrote};
ghost use Rattle.text.specs.Decimal.{digit_count, digits_most, decimal};
ghost use Rattle.text.specs.Digits.{last_digits_in};
ghost use Rattle.text.specs.Hex.{hex_digit, hex_digits, hex_word};

// The most digits of a number of 64 bits.
const DIGITS_MOST: usize = 20;

// The hex digits of a number of 32 bits.
const HEX_DIGITS: usize = 8;

// How many digits a number has.
fn digit_count(n: usize) -> usize
    ensures { result ≡ digit_count digits_most n }
{
    let mut m = n;
    for k in 0..DIGITS_MOST {
        if m < 10 {
            return k + 1;
        }
        m /= 10;
    }
    DIGITS_MOST
}

// Internal: the number is a digit.
#[tactic(auto, unfolding(crate::specs::Hex::hex_digit))]
fn hex_digit(d: usize) -> u8
    requires { d < 16 }
    ensures { result ≡ hex_digit d }
{
    if d < 10 {
        (d + 48) as u8
    } else {
        (d + 55) as u8
    }
}

// The last k digits of a number in a base, from the last back. Internal: there is room, and no digit is beyond `F`.
fn put_digits<const BASE: usize>(out: &mut [u8], at: usize, k: usize, n: usize)
    requires { (at + k ≤ length out.old) × (0 < BASE) × (BASE ≤ 16) }
    ensures { out.new ≡ over out.old at (last_digits_in BASE hex_digit k n) }
{
    let mut m = n;
    for i in (0..k).rev() {
        out[at + i] = hex_digit(m % BASE);
        m /= BASE;
    }
}

// A number without leading zeros. Internal: there is room for the digits of the largest.
pub fn put_decimal(out: &mut [u8], at: usize, n: usize) -> usize
    requires { at + digits_most ≤ length out.old }
    ensures wrote { Wrote out.old at (decimal n) out.new result }
    ensures short { result ≤ at + digits_most }
{
    let k = digit_count(n);
    put_digits::<10>(out, at, k, n);
    at + k
}

// A number of 32 bits in eight hex digits. Internal: there is room.
pub fn put_hex_word(out: &mut [u8], at: usize, w: u32) -> usize
    requires { at + hex_digits ≤ length out.old }
    ensures wrote { Wrote out.old at (hex_word w) out.new result }
    ensures short { result ≡ at + hex_digits }
{
    put_digits::<16>(out, at, HEX_DIGITS, w as usize);
    at + HEX_DIGITS
}
