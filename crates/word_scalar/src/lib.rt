// The words of the scalar unit, offered: each is refused, stalled by its thread's wait, or writes the thread's own GPRs.
#![tactic(auto)]

pub mod fields;
mod registers;

ghost use Rattle.std.specs.Prelude.{◌≡◌};
ghost use Rattle.machine.specs.Outcomes.{told_outcome};
ghost use Rattle.word_rules.specs.ScalarWords.{set_dma_reg_of, dma_nop_of};
ghost use Rattle.word_rules.specs.Offered.{GprsOffered};
ghost use Rattle.word_scalar.specs.Arithmetic.{arithmetic_of};

use crate::fields::{half, is_plain, operand_a, operand_b, result, value};
use crate::registers::{combined, operand_of, with_half};
use machine::refusal::Outcome;
use machine::sizes::GPRS;
use machine::units::{ThreadNumber, gpr_place, half_place};
use word_rules::verdict::held_up;

// SETDMAREG, where the wait of the thread stalls these block bits now.
pub fn set_dma_reg(gprs: &mut [u32; GPRS], t: ThreadNumber, word: u32, blocks: u16) -> Outcome
    ensures { GprsOffered blocks t (set_dma_reg_of word) gprs.old (told_outcome result) gprs.new }
{
    if let Some(outcome) = held_up::<5>(is_plain(word), true, blocks) {
        return outcome;
    }
    let half = half(word);
    let place = half_place(t, half);
    gprs[place] = with_half(half, value(word), gprs[place]);
    Outcome::Passed
}

// ADDDMAREG, or MULDMAREG: which of the two is a flag of its promise, `arithmetic_of multiply`.
pub fn arithmetic(
    gprs: &mut [u32; GPRS],
    t: ThreadNumber,
    word: u32,
    blocks: u16,
    multiply: bool,
) -> Outcome
    ensures { GprsOffered blocks t (arithmetic_of multiply word) gprs.old (told_outcome result) gprs.new }
{
    if let Some(outcome) = held_up::<5>(true, true, blocks) {
        return outcome;
    }
    let x = gprs[gpr_place(t, operand_a(word))];
    let y = operand_of(gprs, t, operand_b(word));
    gprs[gpr_place(t, result(word))] = combined(multiply, x, y);
    Outcome::Passed
}

// DMANOP, of a thread of any number.
pub fn dma_nop(gprs: &[u32], t: usize, word: u32, blocks: u16) -> Outcome
    ensures { GprsOffered blocks t (dma_nop_of word) gprs.now (told_outcome result) gprs.now }
{
    held_up::<5>(true, true, blocks).unwrap_or(Outcome::Passed)
}
