// What the words of the scalar unit write into a thread's own GPRs.
ghost use Rattle.std.specs.Prelude.{◌≡◌};
ghost use Rattle.word_rules.specs.InRange.{OperandInRange};
ghost use Rattle.word_rules.specs.ScalarWords.{operand_of, with_half};
ghost use Rattle.word_scalar.specs.Arithmetic.{combined_of};

use bits::word::field;
use machine::sizes::GPRS;
use machine::units::{HalfRegister, ThreadNumber, gpr_place};
use word_rules::instruction::Operand;

// SETDMAREG: a word with one of its halves replaced.
pub(crate) fn with_half(half: HalfRegister, value: u16, x: u32) -> u32
    ensures { result ≡ with_half half value x }
{
    if half.is_high() {
        return value as u32 * 65536 + x % 65536;
    }
    x / 65536 * 65536 + value as u32
}

// The second operand of ADDDMAREG and MULDMAREG. Internal: its number is in range.
pub(crate) fn operand_of(gprs: &[u32; GPRS], t: ThreadNumber, b: Operand) -> u32
    requires { OperandInRange b }
    ensures { result ≡ operand_of t b gprs.now }
{
    match b {
        Operand::Constant(n) => n as u32,
        Operand::Register(g) => gprs[gpr_place(t, g)],
    }
}

// What ADDDMAREG makes of its operands, or MULDMAREG: the sum, which wraps at 32 bits, or the product of the low 16 bits of each.
pub(crate) fn combined(multiply: bool, x: u32, y: u32) -> u32
    ensures { result ≡ combined_of multiply x y }
{
    if multiply {
        return field::<0, 16>(x) * field::<0, 16>(y);
    }
    x.wrapping_add(y)
}
