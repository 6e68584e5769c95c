// Where a row of one of Dest's two views lies in storage (document 01, "Dest maps").
#![tactic(auto)]

ghost use Rattle.dest.specs.Examples.{DestExamples};
ghost use Rattle.dest.specs.Cover.{ViewsCover};

pub mod flags;
pub mod maps;
pub mod rows;

// The worked examples of the maps, M7 to M9; and each view covers every storage row exactly once, in every setting of the flags.
pub fn promises()
    ensures examples { DestExamples }
    ensures covers { ViewsCover }
{}
