// The stores, each with one entry more than the machine's, so that a longer part can be lent.
use machine::sizes::{CONFIG_WORDS, DEST_CELLS, DEST_ROWS, GPRS, SOURCE_CELLS};

#[derive(Drop)]
pub(crate) struct Stores {
    pub(crate) gprs: [u32; GPRS + 1],
    pub(crate) config: [u32; CONFIG_WORDS + 1],
    pub(crate) dest: [u16; DEST_CELLS + 1],
    pub(crate) marks: [bool; DEST_ROWS + 1],
    pub(crate) src_a: [u32; SOURCE_CELLS + 1],
    pub(crate) src_b: [u32; SOURCE_CELLS + 1],
}

pub(crate) fn empty() -> Stores {
    Stores {
        gprs: [0; GPRS + 1],
        config: [0; CONFIG_WORDS + 1],
        dest: [0; DEST_CELLS + 1],
        marks: [false; DEST_ROWS + 1],
        src_a: [0; SOURCE_CELLS + 1],
        src_b: [0; SOURCE_CELLS + 1],
    }
}
