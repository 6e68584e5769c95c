// What a machine is: its parts and their sizes, the numbers that come back, well-formedness, a fresh machine.
#![tactic(auto)]

pub mod control;
pub mod fresh;
pub mod lent;
pub mod places;
pub mod refusal;
pub mod sizes;
pub mod units;
