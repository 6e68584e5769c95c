// Machines made for a test: of a seed, with one number set, each part lent at a length of its own; and a digest of a whole machine.
// What a seed and a digest are is compared with the reference program's (oracle/seeded.py); contracts say what safety needs.
#![tactic(auto)]

pub mod controls;
pub mod digest;
pub mod draws;
pub mod fills;
pub mod lengths;
pub mod made;
pub mod number;
pub mod parts;
pub mod sums;
pub mod whole;
