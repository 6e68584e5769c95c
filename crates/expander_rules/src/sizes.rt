// How many there are of each thing of the expander, as in specs/Sizes.antt.
pub const NINE: usize = 9;

pub const ROUNDS_MOST: u32 = 127;

pub const SLOTS: usize = 32;

pub const SLOT_COUNT: u32 = SLOTS as u32;

pub const NOP: u32 = 0x0200_0000;

pub const NEEDED_MOST: usize = 65536;

pub const PART_MOST: usize = 128 * 5;
