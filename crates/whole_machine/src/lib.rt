// The calls on a whole machine by value: its parts are lent once, so that no caller holds them all.
#![tactic(auto)]

pub mod images;
pub mod runs;
