// All that document 01's table says of a word, "Words of the base": the instructions here, and in specs/ which opcode is whose (`Table`), what
// each word says, when it waits and what it does. The functions are those that every word's code uses.
#![tactic(auto)]

pub mod instruction;
pub mod semaphore_change;
pub mod stepped;
pub mod verdict;
pub mod views;
