// The fields of the config unit's words.
ghost use Rattle.std.specs.Prelude.{◌≡◌, ◌&&◌, ltb};
ghost use Rattle.bits.specs.Field.{field, flag};
ghost use Rattle.machine.specs.Sizes.{thread_gprs, bank_words};
ghost use Rattle.machine.specs.Units.{gpr};

use bits::word::{field, flag};
use machine::sizes::{BANK_WORDS, THREAD_GPRS};
use machine::units::GprNumber;

// WRCFG: GPR 16–21.
pub fn source(word: u32) -> GprNumber
    ensures { result ≡ gpr (field 16 6 word) }
{
    GprNumber(field::<16, 6>(word) as u8)
}

// WRCFG: 128-bit 15.
pub fn copies_four(word: u32) -> bool
    ensures { result ≡ flag 15 word }
{
    flag::<15>(word)
}

// WRCFG and RDCFG: index 0–10, as written.
pub fn index(word: u32) -> u16
    ensures { result ≡ field 0 11 word }
{
    field::<0, 11>(word) as u16
}

// WRCFG: the index is not over 255.
pub fn index_fine(word: u32) -> bool
    ensures { result ≡ ltb (field 0 11 word) bank_words }
{
    (index(word) as usize) < BANK_WORDS
}

// RDCFG: GPR 16–23, a field with two bits more than a GPR number.
pub fn target(word: u32) -> GprNumber
    ensures { result ≡ gpr (field 16 8 word) }
{
    GprNumber(field::<16, 8>(word) as u8)
}

// RDCFG: the GPR is not over 63, nor the index over 255.
pub fn target_and_index_fine(word: u32) -> bool
    ensures { result ≡ (ltb (field 16 8 word) thread_gprs && ltb (field 0 11 word) bank_words) }
{
    (target(word).0 as usize) < THREAD_GPRS && index_fine(word)
}

// SETC16: entry 16–21.
pub fn entry(word: u32) -> u8
    ensures { result ≡ field 16 6 word }
{
    field::<16, 6>(word) as u8
}

// SETC16: value 0–15.
pub fn entry_value(word: u32) -> u16
    ensures { result ≡ field 0 16 word }
{
    field::<0, 16>(word) as u16
}

// RMWCIB0–3: mask 16–23.
pub fn byte_mask(word: u32) -> u8
    ensures { result ≡ field 16 8 word }
{
    field::<16, 8>(word) as u8
}

// RMWCIB0–3: data 8–15.
pub fn new_bits(word: u32) -> u8
    ensures { result ≡ field 8 8 word }
{
    field::<8, 8>(word) as u8
}

// RMWCIB0–3: index 0–7.
pub fn byte_index(word: u32) -> u16
    ensures { result ≡ field 0 8 word }
{
    field::<0, 8>(word) as u16
}
