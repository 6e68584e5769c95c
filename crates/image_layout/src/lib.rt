// Where the parts of a saved image stand (document 01, "Saved image"), each after the one before. A record begins with its head.
#![tactic(auto)]

use format::HEAD_BYTES;
use machine::sizes::{
    BANK_OWNERS, BANK_POINTERS, CONFIG_WORDS, DEST_CELLS, DEST_ROWS, GPRS, MUTEXES, SEMAPHORES,
    SETTINGS, SOURCE_CELLS, THREADS,
};

// Kind 1: ThreadConfig and the control part. A wait is a kind byte, block (2) and low field (2).
pub const SETTINGS_AT: usize = HEAD_BYTES;

pub const MUTEXES_AT: usize = SETTINGS_AT + SETTINGS * 2;

pub const SEMAPHORES_AT: usize = MUTEXES_AT + MUTEXES;

pub const WAIT_BYTES: usize = 5;

pub const WAIT_0_AT: usize = SEMAPHORES_AT + SEMAPHORES * 2;

pub const WAIT_1_AT: usize = WAIT_0_AT + WAIT_BYTES;

pub const WAIT_2_AT: usize = WAIT_1_AT + WAIT_BYTES;

pub const OWNERS_AT: usize = WAIT_0_AT + THREADS * WAIT_BYTES;

pub const POINTERS_AT: usize = OWNERS_AT + BANK_OWNERS;

// Kinds 2 and 3: the GPRs and Config.
pub const GPRS_AT: usize = POINTERS_AT + BANK_POINTERS;

// The first record's body, as its head tells it.
pub const CONTROL_BYTES: u32 = (GPRS_AT - HEAD_BYTES) as u32;

pub const GPRS_RECORD: usize = HEAD_BYTES + GPRS * 4;

pub const CONFIG_AT: usize = GPRS_AT + GPRS_RECORD;

pub const CONFIG_BODY_AT: usize = CONFIG_AT + HEAD_BYTES;

pub const CONFIG_KIND: u32 = 3;

// Kinds 4 and 5: Dest, and its marks, eight to a byte.
pub const DEST_AT: usize = CONFIG_AT + HEAD_BYTES + CONFIG_WORDS * 4;

pub const DEST_RECORD: usize = HEAD_BYTES + DEST_CELLS * 2;

pub const MARKS_AT: usize = DEST_AT + DEST_RECORD;

pub const MARK_BYTES: usize = DEST_ROWS / 8;

pub const MARKS_RECORD: usize = HEAD_BYTES + MARK_BYTES;

// Kinds 6 and 7: SrcA and SrcB, 3 bytes a cell.
pub const SRC_A_AT: usize = MARKS_AT + MARKS_RECORD;

pub const SOURCE_RECORD: usize = HEAD_BYTES + SOURCE_CELLS * 3;

pub const SRC_B_AT: usize = SRC_A_AT + SOURCE_RECORD;

pub const IMAGE_BYTES: usize = SRC_B_AT + SOURCE_RECORD;
