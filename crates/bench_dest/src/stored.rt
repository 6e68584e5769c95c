// Rows of Dest as they are stored: sixteen cells of 16 bits and a valid mark.
ghost use Rattle.std.specs.Prelude.{◌≡◌, ◌<◌, length};
ghost use Rattle.dest.specs.Rows.{storage_rows};
ghost use Rattle.machine.specs.Sizes.{dest_count, mark_count};
ghost use Rattle.machine.specs.Machine.{dest_of};
ghost use Rattle.bench_dest.specs.DestRows.{stored_row, with_stored_row};

use bits::put::put_all;
use dest::rows::StorageRow;
use machine::sizes::ROW_CELLS;

// The cells of a storage row, zeros if it is invalid. Internal: Dest has its size, and the row is in range.
#[tactic(auto, using(bits::proofs::Overwrite::over_whole), unfolding(crate::specs::DestRows::stored_row))]
pub(crate) fn read_stored(dest: &[u16], marks: &[bool], row: StorageRow) -> [u16; ROW_CELLS]
    requires { (length dest.now ≡ dest_count) × (length marks.now ≡ mark_count) × (row.0 < storage_rows) }
    ensures { result ≡ stored_row (dest_of dest.now marks.now) row }
{
    let at = row.0 as usize;
    let mut cells = [0u16; ROW_CELLS];
    if marks[at] {
        let from = at * ROW_CELLS;
        put_all(&mut cells, 0, &dest[from..from + ROW_CELLS]);
    }
    cells
}

// Writes a storage row and marks it valid. Internal: Dest has its size, and the row is in range.
#[tactic(auto, unfolding(crate::specs::DestRows::with_stored_row))]
pub(crate) fn write_stored(
    dest: &mut [u16],
    marks: &mut [bool],
    row: StorageRow,
    cells: &[u16; ROW_CELLS],
)
    requires { (length dest.old ≡ dest_count) × (length marks.old ≡ mark_count) × (row.0 < storage_rows) }
    ensures { dest_of dest.new marks.new ≡ with_stored_row (dest_of dest.old marks.old) row cells.now }
{
    let at = row.0 as usize;
    put_all(dest, at * ROW_CELLS, cells);
    marks[at] = true;
}
