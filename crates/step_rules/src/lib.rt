// What one word does to the whole machine: its definitions, and what holds of all words.
#![tactic(auto)]

ghost use Rattle.step_rules.specs.Alike.{OffersAlike};
ghost use Rattle.step_rules.specs.Kept.{KeepsFormed};
ghost use Rattle.step_rules.specs.Unchanged.{Unchanged};
ghost use Rattle.step_rules.specs.Causes.{CausesHold};

// The laws of a word that are no single function's: it keeps a well-formed machine well formed, changes nothing unless it
// passes, goes alike on machines that agree on control part and thread settings, and is stalled for the cause that is told.
pub fn promises()
    ensures kept { KeepsFormed }
    ensures unchanged { Unchanged }
    ensures alike { OffersAlike }
    ensures causes { CausesHold }
{}
