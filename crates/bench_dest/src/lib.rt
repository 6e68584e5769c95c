// Whole Dest rows, in the 16-bit and in the 32-bit view. The bench names the Config bank whose flags set the maps.
// The views share `find_flags` and `stored`; the rest is apart, since a row of one lies in one storage row, and of the other in two, with
// cells of another type: a trait would need each of the four bodies as a method, which is no plainer.
#![tactic(auto)]

mod setting;
mod stored;

ghost use Rattle.std.specs.Prelude.{◌≡◌};
ghost use Rattle.machine.specs.Answers.{told, call};
ghost use Rattle.machine.specs.Machine.{dest_of};
ghost use Rattle.bench_dest.specs.DestRows.{read_row16_of, write_row16_of, read_row32_of, write_row32_of};
ghost use Rattle.bench_dest.specs.Promises.{DestPromises};

use crate::setting::find_flags;
use crate::stored::{read_stored, write_stored};
use bench_cells::{halves_from, wide_of};
use bits::put::put_all;
use dest::maps::{high_row, low_row, storage_row};
use dest::rows::{View16Row, View32Row};
use machine::refusal::Refusal;
use machine::sizes::ROW_CELLS;

// Reads a row of the 16-bit view into the first sixteen of `out`.
#[tactic(auto, using(dest::proofs::Apart::storage16_lt), unfolding(crate::specs::DestRows::bank_check, crate::specs::DestRows::read_row16_of))]
pub fn read_row16(
    config: &[u32],
    dest: &[u16],
    marks: &[bool],
    bank: u32,
    row: u32,
    out: &mut [u16],
) -> Result<(), Refusal>
    ensures { call (told result) out.new ≡ read_row16_of config.now (dest_of dest.now marks.now) bank row out.old }
{
    let flags = find_flags(config, dest.len(), marks.len(), bank)?;
    let view = View16Row::new(row).ok_or(Refusal::BadPlace)?;
    if out.len() < ROW_CELLS {
        return Err(Refusal::ShortOutput);
    }
    let cells = read_stored(dest, marks, storage_row(flags, view));
    put_all(out, 0, &cells);
    Ok(())
}

// Writes a row of the 16-bit view.
#[tactic(auto, using(dest::proofs::Apart::storage16_lt), unfolding(crate::specs::DestRows::bank_check, crate::specs::DestRows::write_row16_of))]
pub fn write_row16(
    config: &[u32],
    dest: &mut [u16],
    marks: &mut [bool],
    bank: u32,
    row: u32,
    cells: &[u16],
) -> Result<(), Refusal>
    ensures { call (told result) (dest_of dest.new marks.new) ≡ write_row16_of config.now (dest_of dest.old marks.old) bank row cells.now }
{
    let cells = cells.as_array::<ROW_CELLS>().ok_or(Refusal::BadLength)?;
    let flags = find_flags(config, dest.len(), marks.len(), bank)?;
    let view = View16Row::new(row).ok_or(Refusal::BadPlace)?;
    write_stored(dest, marks, storage_row(flags, view), cells);
    Ok(())
}

// Reads a row of the 32-bit view into the first sixteen of `out`.
#[tactic(auto, using(dest::proofs::Bounds::high32_lt, dest::proofs::Bounds::low32_lt), unfolding(crate::specs::DestRows::bank_check, crate::specs::DestRows::read_row32_of))]
pub fn read_row32(
    config: &[u32],
    dest: &[u16],
    marks: &[bool],
    bank: u32,
    row: u32,
    out: &mut [u32],
) -> Result<(), Refusal>
    ensures { call (told result) out.new ≡ read_row32_of config.now (dest_of dest.now marks.now) bank row out.old }
{
    let flags = find_flags(config, dest.len(), marks.len(), bank)?;
    let view = View32Row::new(row).ok_or(Refusal::BadPlace)?;
    if out.len() < ROW_CELLS {
        return Err(Refusal::ShortOutput);
    }
    let high = read_stored(dest, marks, high_row(flags, view));
    let low = read_stored(dest, marks, low_row(flags, view));
    put_all(out, 0, &wide_of(&high, &low));
    Ok(())
}

// Writes a row of the 32-bit view.
#[tactic(auto, using(dest::proofs::Bounds::high32_lt, dest::proofs::Bounds::low32_lt), unfolding(crate::specs::DestRows::bank_check, crate::specs::DestRows::write_row32_of))]
pub fn write_row32(
    config: &[u32],
    dest: &mut [u16],
    marks: &mut [bool],
    bank: u32,
    row: u32,
    cells: &[u32],
) -> Result<(), Refusal>
    ensures { call (told result) (dest_of dest.new marks.new) ≡ write_row32_of config.now (dest_of dest.old marks.old) bank row cells.now }
{
    let cells = cells.as_array::<ROW_CELLS>().ok_or(Refusal::BadLength)?;
    let flags = find_flags(config, dest.len(), marks.len(), bank)?;
    let view = View32Row::new(row).ok_or(Refusal::BadPlace)?;
    write_stored(
        dest,
        marks,
        high_row(flags, view),
        &halves_from::<16>(cells),
    );
    write_stored(dest, marks, low_row(flags, view), &halves_from::<0>(cells));
    Ok(())
}

// What is promised of the calls together, in each view: what is written is read back, and all else is left as it reads.
pub fn promises()
    ensures { DestPromises }
{}
