// The records of the programs' inputs (document 01, "Program and cases"): what an input holds, or which record is the first
// bad one and where.
#![tactic(auto)]

pub mod counts;
pub mod fixed;
pub mod head;
pub mod resume_script;
pub mod script;
pub mod words;
