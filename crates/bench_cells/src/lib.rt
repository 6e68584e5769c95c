// The cells of a row, and their halves.
#![tactic(auto)]

ghost use Rattle.std.specs.Prelude.{◌≡◌, ◌<◌, map};
ghost use Rattle.bits.specs.Field.{field};
ghost use Rattle.bench_cells.specs.Cells.{wide_cells};

use bits::word::field;
use machine::sizes::ROW_CELLS;

// One half of each 32-bit cell: the high one stands from bit 16 on, the low one from bit 0 on. Internal: the bit is among the 32.
#[tactic(auto, using(crate::proofs::Halves::map_each))]
pub fn halves_from<const AT: u32>(cells: &[u32; ROW_CELLS]) -> [u16; ROW_CELLS]
    requires { AT < 32 }
    ensures { result ≡ map (field AT 16) cells.now }
{
    let mut halves = [0u16; ROW_CELLS];
    for (i, half) in halves.iter_mut().enumerate() {
        *half = field::<AT, 16>(cells[i]) as u16;
    }
    halves
}

// The 32-bit cells that so many high and low halves make.
#[tactic(auto, using(crate::proofs::Halves::wide_each))]
pub fn wide_of<const N: usize>(high: &[u16; N], low: &[u16; N]) -> [u32; N]
    ensures { result ≡ wide_cells high.now low.now }
{
    let mut cells = [0u32; N];
    for (i, cell) in cells.iter_mut().enumerate() {
        *cell = high[i] as u32 * 65536 + low[i] as u32;
    }
    cells
}
