// The checks of a machine, in proved code: refusals 4 and 10 of every entry that is lent one.
#![tactic(auto)]

pub mod control;

ghost use Rattle.std.specs.Prelude.{◌≡◌};
ghost use Rattle.bits.specs.Ranges.{all_at_most};
ghost use Rattle.machine.specs.Sizes.{cell_most};
ghost use Rattle.machine.specs.Lent.{viewed};
ghost use Rattle.machine.specs.Formed.{sized, stores_sized, stores_formed, formed};

use crate::control::control_formed;
use bits::{halves_fit, words_fit};
use machine::lent::MachineView;
use machine::sizes::{
    CELL_MOST, CONFIG_WORDS, DEST_CELLS, DEST_ROWS, GPRS, SETTINGS, SOURCE_CELLS,
};

// Whether each cell of a source file has 19 bits.
pub fn cells_formed(cells: &[u32]) -> bool
    ensures { result ≡ all_at_most cell_most cells.now }
{
    bits::words_at_most(cells, CELL_MOST)
}

// Whether each store has its size.
#[tactic(auto, unfolding(machine::specs::Formed::stores_sized))]
fn stores_sized(m: MachineView<'_>) -> bool
    ensures { result ≡ stores_sized (viewed m.entry).kept }
{
    m.gprs.len() == GPRS
        && m.config.len() == CONFIG_WORDS
        && m.dest.len() == DEST_CELLS
        && m.marks.len() == DEST_ROWS
        && m.src_a.len() == SOURCE_CELLS
        && m.src_b.len() == SOURCE_CELLS
}

// Whether each number of a store is in its range. The types see to all but the source cells.
#[tactic(auto, unfolding(machine::specs::Formed::stores_formed))]
fn stores_formed(m: MachineView<'_>) -> bool
    ensures { result ≡ stores_formed (viewed m.entry).kept }
{
    words_fit(m.gprs)
        && words_fit(m.config)
        && halves_fit(m.dest)
        && cells_formed(m.src_a)
        && cells_formed(m.src_b)
}

// Whether each lent part of a machine has its size.
pub fn machine_sized(m: MachineView<'_>) -> bool
    ensures { result ≡ sized (viewed m.entry) }
{
    m.settings.len() == SETTINGS && stores_sized(m)
}

// Whether each number of a machine is in its range.
pub fn machine_formed(m: MachineView<'_>) -> bool
    ensures { result ≡ formed (viewed m.entry) }
{
    control_formed(m.control) && halves_fit(m.settings) && stores_formed(m)
}
