// The replay stage: 32 slots that take words which leave the MOP stage and give them again (document 02, K1).
#![tactic(auto)]

pub mod loads;
pub mod pass;
pub mod survey;
