// The words of the matrix unit that work on source cells and Dest's marks, offered: each is refused, stalled by its thread's wait or by the
// owner of SrcB's bank, or does its work.
#![tactic(auto)]

mod face;
pub mod fields;
mod marks;
mod rows;

ghost use Rattle.std.specs.Prelude.{◌≡◌, Bool, List, ℕ, ◌<◌};
ghost use Rattle.machine.specs.Outcomes.{told_outcome};
ghost use Rattle.machine.specs.Machine.{Stores, with_config, with_marks, with_src_a, with_src_b};
ghost use Rattle.machine.specs.Sizes.{source_banks};
ghost use Rattle.word_rules.specs.CellWords.{trnsp_src_b_of, mov_b2a_of, zero_acc_of};
ghost use Rattle.word_rules.specs.Offered.{left, store_offer};

use crate::face::transpose_face;
use crate::fields::{no_addr_mod, place_fine};
use crate::marks::{Part, zero_marks};
use crate::rows::copy_rows;
use machine::places::row_place;
use machine::refusal::{Outcome, StallCause};
use machine::sizes::{CONFIG_WORDS, DEST_ROWS, SETTINGS, SOURCE_CELLS};
use machine::units::ThreadNumber;
use word_config::settings::bank_of;
use word_rules::verdict::held_up;

// TRNSPSRCB, where the wait of the thread stalls these block bits now, with the bank at SrcB's matrix pointer, and whether Matrix owns it.
// What is not lent may be anything. Internal, as all below: the banks are in range.
pub fn trnsp_src_b(
    src_b: &mut [u32; SOURCE_CELLS],
    bank_b: usize,
    owned: bool,
    word: u32,
    blocks: u16,
) -> Outcome
    requires { bank_b < source_banks }
    ensures { (t bankA : ℕ) (s : List ℕ) (k : Stores) → left (told_outcome result) s (with_src_b k src_b.new) ≡ store_offer blocks owned t bankA bank_b (trnsp_src_b_of word) s (with_src_b k src_b.old) }
{
    if let Some(outcome) = held_up::<6>(true, true, blocks) {
        return outcome;
    }
    if !owned {
        return Outcome::Stalled(StallCause::BankNotMatrix(bank_b as u32));
    }
    transpose_face(src_b, row_place(bank_b, 16));
    Outcome::Passed
}

// MOVB2A, with the banks at the matrix pointers, and whether Matrix owns SrcB's. The banks are two arguments, as `store_offer` takes them.
pub fn mov_b2a(
    src_a: &mut [u32; SOURCE_CELLS],
    src_b: &[u32; SOURCE_CELLS],
    bank_a: usize,
    bank_b: usize,
    owned: bool,
    word: u32,
    blocks: u16,
) -> Outcome
    requires { (bank_a < source_banks) × (bank_b < source_banks) }
    ensures { (t : ℕ) (s : List ℕ) (k : Stores) → left (told_outcome result) s (with_src_a (with_src_b k src_b.now) src_a.new) ≡ store_offer blocks owned t bank_a bank_b (mov_b2a_of word) s (with_src_a (with_src_b k src_b.now) src_a.old) }
{
    if let Some(outcome) = held_up::<6>(no_addr_mod(word), true, blocks) {
        return outcome;
    }
    if !owned {
        return Outcome::Stalled(StallCause::BankNotMatrix(bank_b as u32));
    }
    copy_rows(src_a, src_b, bank_a, bank_b, word);
    Outcome::Passed
}

// ZEROACC of thread t.
pub fn zero_acc(
    settings: &[u16; SETTINGS],
    config: &[u32; CONFIG_WORDS],
    marks: &mut [bool; DEST_ROWS],
    t: ThreadNumber,
    word: u32,
    blocks: u16,
) -> Outcome
    ensures { (owned : Bool) (bankA bankB : ℕ) (k : Stores) → left (told_outcome result) settings.now (with_marks (with_config k config.now) marks.new) ≡ store_offer blocks owned t bankA bankB (zero_acc_of word) settings.now (with_marks (with_config k config.now) marks.old) }
{
    if let Some(outcome) = held_up::<6>(no_addr_mod(word), place_fine(word), blocks) {
        return outcome;
    }
    let bank = bank_of(settings, t);
    zero_marks(marks, config, bank, Part::of(word));
    Outcome::Passed
}
