// How much is lent of each part.
ghost use Rattle.test_machines.specs.Made.{LentWithin};

use crate::made::Made;
use crate::parts::ROOM;
use machine::sizes::{CONFIG_WORDS, DEST_CELLS, DEST_ROWS, GPRS, SETTINGS, SOURCE_CELLS};

// How much is lent of each part.
#[derive(Clone, Copy)]
pub struct Lengths {
    pub settings: usize,
    pub gprs: usize,
    pub config: usize,
    pub dest: usize,
    pub marks: usize,
    pub src_a: usize,
    pub src_b: usize,
}

// Each part at the machine's size, but for the one that has a length of its own, or as much as there is of it.
pub fn lent_lengths(m: Made) -> Lengths
    ensures { LentWithin result }
{
    let mut n = Lengths {
        settings: SETTINGS,
        gprs: GPRS,
        config: CONFIG_WORDS,
        dest: DEST_CELLS,
        marks: DEST_ROWS,
        src_a: SOURCE_CELLS,
        src_b: SOURCE_CELLS,
    };
    let own = m.length as usize;
    match m.part {
        1 => n.settings = own.min(ROOM * SETTINGS),
        2 => n.gprs = own.min(ROOM * GPRS),
        3 => n.config = own.min(ROOM * CONFIG_WORDS),
        4 => n.dest = own.min(ROOM * DEST_CELLS),
        5 => n.marks = own.min(ROOM * DEST_ROWS),
        6 => n.src_a = own.min(ROOM * SOURCE_CELLS),
        7 => n.src_b = own.min(ROOM * SOURCE_CELLS),
        _ => (),
    }
    n
}
