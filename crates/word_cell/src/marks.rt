// ZEROACC: the valid marks of Dest's storage rows, cleared by rows of a view.
ghost use Rattle.std.specs.Prelude.{◌≡◌, ◌+◌, ◌*◌, ◌/◌, ◌≤◌, ◌<◌, true, false, length, replicate};
ghost use Rattle.machine.specs.Sizes.{config_banks, mark_count};
ghost use Rattle.bits.specs.Field.{field, flag};
ghost use Rattle.bits.specs.Overwrite.{over};
ghost use Rattle.word_rules.specs.Marks.{view_rows, clear_row16, clear_row32, clear_row, clear_rows, RowsCleared};
ghost use Rattle.word_rules.specs.InRange.{PlaceInView};
ghost use Rattle.dest.specs.Rows.{rows16};
ghost use Rattle.word_rules.specs.CellWords.{flags_in, first_row, row_count, after_zero_acc, place_in_rows};

use crate::fields::{mode, place, wide};
use dest::flags::{FLAG_WORD, Flags, flags_of};
use dest::maps::{high_row, low_row, storage_row};
use dest::rows::{View16Row, View32Row};
use machine::places::config_place;
use machine::sizes::{CONFIG_WORDS, DEST_ROWS};
use word_rules::views::view_rows;

// What a ZEROACC clears: by its mode a part of a view, at a place that lies in it.
#[derive(Clone, Copy)]
pub(crate) struct Part {
    // a number, as the definitions that stand take it (`first_row`, `row_count`)
    mode: u8,
    wide: bool,
    place: u16,
    ghost in_view: { PlaceInView mode wide place },
}

impl Part {
    // The part that a word names. Internal: its place lies in its view.
    #[tactic(auto, using(word_rules::proofs::Saying::place_in_view))]
    pub(crate) fn of(word: u32) -> Self
        requires { place_in_rows (view_rows (flag 18 word)) (field 19 2 word) (field 0 14 word) ≡ true }
        ensures { (result.mode ≡ field 19 2 word) × (result.wide ≡ flag 18 word) × (result.place ≡ field 0 14 word) }
    {
        Part {
            mode: mode(word),
            wide: wide(word),
            place: place(word),
        }
    }

    // Its first view row.
    fn first_row(self) -> u16
        ensures { result ≡ first_row self.mode self.wide self.place }
    {
        match self.mode {
            0 => self.place,
            1 => 16 * self.place,
            2 => view_rows(self.wide) / 2 * self.place,
            _ => 0,
        }
    }

    // How many view rows it has.
    fn row_count(self) -> u16
        ensures { result ≡ row_count self.mode self.wide }
    {
        match self.mode {
            0 => 1,
            1 => 16,
            2 => view_rows(self.wide) / 2,
            _ => view_rows(self.wide),
        }
    }
}

// A row of the 16-bit view cleared. Each view has maps of its own and so many marks: one function over both would be no plainer.
#[tactic(auto, using(dest::proofs::Apart::storage16_lt))]
fn clear_row16(marks: &mut [bool; DEST_ROWS], flags: Flags, row: View16Row)
    requires { row.0 < rows16 }
    ensures { marks.new ≡ clear_row16 flags row marks.old }
{
    marks[storage_row(flags, row).0 as usize] = false;
}

// A row of the 32-bit view cleared: both its storage rows.
#[tactic(auto, using(dest::proofs::Bounds::high32_lt, dest::proofs::Bounds::low32_lt))]
fn clear_row32(marks: &mut [bool; DEST_ROWS], flags: Flags, row: View32Row)
    ensures { marks.new ≡ clear_row32 flags row marks.old }
{
    marks[high_row(flags, row).0 as usize] = false;
    marks[low_row(flags, row).0 as usize] = false;
}

// The view row of a number cleared: here alone ZEROACC's number becomes a row of the view that its word names.
#[tactic(auto, using(dest::proofs::Views::in_view16, dest::proofs::Views::in_view32), unfolding(word_rules::specs::Marks::clear_row))]
fn clear_row(marks: &mut [bool; DEST_ROWS], flags: Flags, wide: bool, row: u16)
    requires { row < view_rows wide }
    ensures { marks.new ≡ clear_row wide flags row marks.old }
{
    if wide {
        clear_row32(marks, flags, View32Row::new(row as u32).unwrap());
    } else {
        clear_row16(marks, flags, View16Row::new(row as u32).unwrap());
    }
}

// So many view rows cleared, from the first on.
#[tactic(auto, using(word_rules::proofs::MarkLaws::view_at_most))]
fn clear_rows(marks: &mut [bool; DEST_ROWS], flags: Flags, wide: bool, first: u16, count: u16)
    requires { first + count ≤ view_rows wide }
    ensures { marks.new ≡ clear_rows wide flags first count marks.old }
{
    for row in first..first + count {
        clear_row(marks, flags, wide, row);
    }
}

// So many marks cleared, from the first on.
fn clear_marks(marks: &mut [bool; DEST_ROWS], first: u16, count: u16)
    requires { first + count ≤ mark_count }
    ensures { marks.new ≡ over marks.old first (replicate count false) }
{
    marks[first as usize..(first + count) as usize].fill(false);
}

// ZEROACC. Internal: the bank is in range.
pub(crate) fn zero_marks(
    marks: &mut [bool; DEST_ROWS],
    config: &[u32; CONFIG_WORDS],
    bank: usize,
    part: Part,
)
    requires { bank < config_banks }
    ensures whole { marks.new ≡ after_zero_acc bank part.mode part.wide part.place config.now marks.old }
    ensures rows { RowsCleared part.wide (flags_in bank config.now) (first_row part.mode part.wide part.place) (row_count part.mode part.wide) marks.old marks.new }
    ensures half { part.mode ≡ 2 → marks.new ≡ over marks.old (mark_count / 2 * part.place) (replicate (mark_count / 2) false) }
    ensures all { part.mode ≡ 3 → marks.new ≡ replicate mark_count false }
{
    if part.mode < 2 {
        let flags = flags_of(config[config_place(bank, FLAG_WORD)]);
        clear_rows(marks, flags, part.wide, part.first_row(), part.row_count());
        return;
    }
    // half of either view is that half of storage, whatever the maps, and all is all
    let stored = Part {
        mode: part.mode,
        wide: false,
        place: part.place,
    };
    clear_marks(marks, stored.first_row(), stored.row_count());
}
