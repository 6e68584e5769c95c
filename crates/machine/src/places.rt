// Where things stand in a store: each is one list by thread or bank, row, column.
ghost use Rattle.std.specs.Prelude.{◌≡◌, ◌<◌};
ghost use Rattle.machine.specs.Sizes.{bank_words, config_banks, source_banks, source_rows, thread_settings};
ghost use Rattle.machine.specs.Places.{setting_place, config_place, row_place};

use crate::sizes::{BANK_WORDS, ROW_CELLS, SOURCE_ROWS, THREAD_SETTINGS};
use crate::units::ThreadNumber;

// A thread's ThreadConfig entry. Internal, as all below: the numbers are in range.
pub fn setting_place(t: ThreadNumber, entry: usize) -> usize
    requires { entry < thread_settings }
    ensures { result ≡ setting_place t entry }
{
    t.index() * THREAD_SETTINGS + entry
}

// A bank's Config word.
pub fn config_place(bank: usize, index: usize) -> usize
    requires { (bank < config_banks) × (index < bank_words) }
    ensures { result ≡ config_place bank index }
{
    bank * BANK_WORDS + index
}

// The first cell of a bank's row of a source file.
pub fn row_place(bank: usize, row: usize) -> usize
    requires { (bank < source_banks) × (row < source_rows) }
    ensures { result ≡ row_place bank row }
{
    (bank * SOURCE_ROWS + row) * ROW_CELLS
}
