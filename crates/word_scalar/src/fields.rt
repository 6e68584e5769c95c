// The fields of the scalar unit's words.
ghost use Rattle.std.specs.Prelude.{◌≡◌, not};
ghost use Rattle.bits.specs.Field.{field, flag};
ghost use Rattle.machine.specs.Units.{half_register};
ghost use Rattle.word_rules.specs.ScalarWords.{result_of, operand_a_of, operand_b_of};

use bits::word::{field, flag};
use machine::units::{GprNumber, HalfRegister};
use word_rules::instruction::Operand;

// SETDMAREG: signal mode 7 is off.
pub fn is_plain(word: u32) -> bool
    ensures { result ≡ not (flag 7 word) }
{
    !flag::<7>(word)
}

// SETDMAREG: half 0–6.
pub fn half(word: u32) -> HalfRegister
    ensures { result ≡ half_register (field 0 7 word) }
{
    HalfRegister(field::<0, 7>(word) as u8)
}

// SETDMAREG: value 8–23, all 16 bits.
pub fn value(word: u32) -> u16
    ensures { result ≡ field 8 16 word }
{
    field::<8, 16>(word) as u16
}

// Result 12–17.
pub fn result(word: u32) -> GprNumber
    ensures { result ≡ result_of word }
{
    GprNumber(field::<12, 6>(word) as u8)
}

// A 0–5.
pub fn operand_a(word: u32) -> GprNumber
    ensures { result ≡ operand_a_of word }
{
    GprNumber(field::<0, 6>(word) as u8)
}

// B 6–11, by constant 23.
pub fn operand_b(word: u32) -> Operand
    ensures { result ≡ operand_b_of word }
{
    let b = field::<6, 6>(word) as u8;
    if flag::<23>(word) {
        Operand::Constant(b)
    } else {
        Operand::Register(GprNumber(b))
    }
}
