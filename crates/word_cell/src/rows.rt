// Rows copied from SrcB to SrcA.
ghost use Rattle.std.specs.Prelude.{◌≡◌, ◌<◌};
ghost use Rattle.bits.specs.Field.{field, flag};
ghost use Rattle.machine.specs.Sizes.{source_banks};
ghost use Rattle.word_rules.specs.CellWords.{after_mov_b2a};

use crate::fields::{four, row_a, row_b};
use bits::copy::copy_words;
use machine::places::row_place;
use machine::sizes::{ROW_CELLS, SOURCE_CELLS};

// MOVB2A. Internal: the banks are in range.
pub(crate) fn copy_rows(
    src_a: &mut [u32; SOURCE_CELLS],
    src_b: &[u32; SOURCE_CELLS],
    bank_a: usize,
    bank_b: usize,
    word: u32,
)
    requires { (bank_a < source_banks) × (bank_b < source_banks) }
    ensures { src_a.new ≡ after_mov_b2a bank_a bank_b (field 17 6 word) (flag 13 word) (field 0 6 word) src_b.now src_a.old }
{
    let row_a = row_a(word) as usize;
    let row_b = row_b(word) as usize;
    if four(word) {
        let from = row_place(bank_b, row_b / 4 * 4);
        let to = row_place(bank_a, row_a / 4 * 4);
        copy_words(src_b, src_a, from, to, 4 * ROW_CELLS);
    } else {
        let from = row_place(bank_b, row_b);
        let to = row_place(bank_a, row_a);
        copy_words(src_b, src_a, from, to, ROW_CELLS);
    }
}
