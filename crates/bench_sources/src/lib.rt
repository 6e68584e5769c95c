// Rows of the source files: file 0 is SrcA, 1 is SrcB.
#![tactic(auto)]

ghost use Rattle.std.specs.Prelude.{◌≡◌, true, length};
ghost use Rattle.machine.specs.Answers.{told, call};
ghost use Rattle.bench_sources.specs.Sources.{sources, sources_sized, sources_formed, row_in_range, source_check, write_source_row_of, can_show, shown_row, shown_at};
ghost use Rattle.bench_sources.specs.Promises.{SourcePromises};

use bits::put::put_all;
use machine::control::Control;
use machine::places::row_place;
use machine::refusal::Refusal;
use machine::sizes::{ROW_CELLS, SOURCE_CELLS};
use machine_formed::cells_formed;
use machine_formed::control::control_formed;
use word_waits::unpackers_own;

#[tactic(auto, unfolding(crate::specs::Sources::sources_sized))]
fn sources_sized(src_a: &[u32], src_b: &[u32], cells: &[u32]) -> bool
    ensures { result ≡ sources_sized (sources src_a.now src_b.now) cells.now }
{
    src_a.len() == SOURCE_CELLS && src_b.len() == SOURCE_CELLS && cells.len() == ROW_CELLS
}

#[tactic(auto, unfolding(crate::specs::Sources::sources_formed))]
fn sources_formed(control: Control, src_a: &[u32], src_b: &[u32]) -> bool
    ensures { result ≡ sources_formed control (sources src_a.now src_b.now) }
{
    control_formed(control) && cells_formed(src_a) && cells_formed(src_b)
}

#[tactic(auto, unfolding(crate::specs::Sources::row_in_range))]
fn row_in_range(file: u32, row: u32, cells: &[u32]) -> bool
    ensures { result ≡ row_in_range file row cells.now }
{
    file <= 1 && row <= 63 && cells_formed(cells)
}

// Whether a source row may be written, or why not.
#[tactic(auto, unfolding(crate::specs::Sources::source_check))]
fn source_access(
    control: Control,
    src_a: &[u32],
    src_b: &[u32],
    file: u32,
    row: u32,
    cells: &[u32],
) -> Result<(), Refusal>
    ensures { told result ≡ source_check control (sources src_a.now src_b.now) file row cells.now }
{
    if !sources_sized(src_a, src_b, cells) {
        return Err(Refusal::BadLength);
    }
    if !sources_formed(control, src_a, src_b) {
        return Err(Refusal::Malformed);
    }
    if !row_in_range(file, row, cells) {
        return Err(Refusal::BadPlace);
    }
    if !unpackers_own(control, file as usize) {
        return Err(Refusal::WrongOwner);
    }
    Ok(())
}

// Writes a row of a source file into the bank at its unpack pointer, if Unpackers own it.
#[tactic(auto, unfolding(crate::specs::Sources::write_source_row_of))]
pub fn write_source_row(
    control: Control,
    src_a: &mut [u32],
    src_b: &mut [u32],
    file: u32,
    row: u32,
    cells: &[u32],
) -> Result<(), Refusal>
    ensures { call (told result) (sources src_a.new src_b.new) ≡ write_source_row_of control (sources src_a.old src_b.old) file row cells.now }
{
    source_access(control, src_a, src_b, file, row, cells)?;
    let bank = control.pointers[2 + file as usize] as usize;
    let at = row_place(bank, row as usize);
    // in two branches: the proof doesn't close for a `&mut` that an `if` chooses (the borrow check doesn't cover it)
    if file == 0 {
        put_all(src_a, at, cells);
        return Ok(());
    }
    put_all(src_b, at, cells);
    Ok(())
}

// Whether there is a row to show; `a` and `b` are how many cells the two stores have.
#[tactic(auto, unfolding(crate::specs::Sources::can_show))]
fn can_show(a: usize, b: usize, file: u32, bank: u32, row: u32) -> bool
    ensures { result ≡ can_show a b file bank row }
{
    (a == SOURCE_CELLS && b == SOURCE_CELLS) && (file <= 1 && bank <= 1 && row <= 63)
}

// Shows a row of a source file as a part of its store. It is empty where there is none: nothing is refused, and of which store
// it is a part is then free.
pub fn show_row<'a>(src_a: &'a [u32], src_b: &'a [u32], file: u32, bank: u32, row: u32) -> &'a [u32]
    ensures cells { result.now ≡ shown_row src_a.now src_b.now file bank row }
    ensures part { can_show (length src_a.now) (length src_b.now) file bank row ≡ true → result.ref_ptr ≡ shown_at src_a.entry.ref_ptr src_b.entry.ref_ptr file bank row }
{
    if !can_show(src_a.len(), src_b.len(), file, bank, row) {
        return &src_a[0..0];
    }
    let at = row_place(bank as usize, row as usize);
    if file == 0 {
        return &src_a[at..at + ROW_CELLS];
    }
    &src_b[at..at + ROW_CELLS]
}

// What is promised of the calls together: what is written is shown, and all else is shown as before.
pub fn promises()
    ensures { SourcePromises }
{}
