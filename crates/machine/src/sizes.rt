// How many there are of each thing (document 01, "The machine"), as in specs/Sizes.antt.
pub const THREADS: usize = 3;

pub const THREAD_GPRS: usize = 64;

pub const GPRS: usize = THREADS * THREAD_GPRS;

pub const THREAD_SETTINGS: usize = 64;

pub const SETTINGS: usize = THREADS * THREAD_SETTINGS;

pub const CONFIG_BANKS: usize = 2;

pub const BANK_WORDS: usize = 256;

pub const CONFIG_WORDS: usize = CONFIG_BANKS * BANK_WORDS;

pub const MUTEXES: usize = 8;

pub const SEMAPHORES: usize = 8;

pub const ROW_CELLS: usize = 16;

pub const DEST_ROWS: usize = 1024;

pub const DEST_CELLS: usize = DEST_ROWS * ROW_CELLS;

// The banks of a source file, and the rows of one.
pub const SOURCE_BANKS: usize = 2;

pub const SOURCE_ROWS: usize = 64;

pub const SOURCE_CELLS: usize = SOURCE_BANKS * (SOURCE_ROWS * ROW_CELLS);

// The banks of both source files, each with an owner, and the bank pointers.
pub const BANK_OWNERS: usize = 4;

pub const BANK_POINTERS: usize = 4;

// The largest number of a source cell, which has 19 bits.
pub const CELL_MOST: u32 = 0x7_ffff;

pub const HOLDER_MOST: u8 = 3;

pub const SEMAPHORE_MOST: u8 = 15;

// The largest numbers of a wait's fields.
pub const BLOCK_MOST: u16 = 511;

pub const CONDITIONS_MOST: u32 = 32767;

pub const MASK_MOST: u8 = 255;

pub const CONDITION_MOST: u8 = 3;

pub const STREAM_WORDS: usize = 65536;

pub const MOST_TURNS: u32 = 1000000;
