// Byte formats: numbers of one to four bytes, runs of them, and the check of each.
#![tactic(auto)]

pub mod check;
pub mod number;
pub mod run;

// A record's head: the body's length in 4 bytes, and its kind in 2.
pub const HEAD_BYTES: usize = 6;
