// What the expander is (document 01, "Expander"; document 02, K1 and K2): its definitions, the laws that the code cites, and what holds of all
// calls.
#![tactic(auto)]

ghost use Rattle.expander_rules.specs.Promises.{LoadsPlayBack, SlotsKept, PlainWords, CutAnywhere, JoinedPieces, RefusedPieces, CarriesFormed, EmptyLoads, ExpanderExamples, Stages, PlainStreams, SlotsHandedBack, FreshExpander};

use crate::sizes::SLOTS;
use machine::refusal::Refusal;

pub mod sizes;

// A load, the words to come that slots take: the slot for the next word, how many words are to come, and whether they are written out
// too. It has no invariant: one that is carried may be malformed, which 10 refuses, and `EmptyLoads` speaks of such ones.
#[derive(Clone, Copy, Debug, PartialEq, Eq)]
pub struct Load {
    pub next: u32,
    pub left: u32,
    pub shown: bool,
}

// What a thread's expander carries from one piece of its stream to the next: the high mask, and slots and load of the replay stage.
#[derive(Clone, Copy, Debug, PartialEq, Eq)]
pub struct Carried {
    pub high_mask: u16,
    pub slots: [u32; SLOTS],
    pub load: Option<Load>,
}

// How many words were written, or why the call is refused, and what is carried after it.
#[derive(Clone, Copy, Debug, PartialEq, Eq)]
pub struct Expanded {
    pub answer: Result<usize, Refusal>,
    pub carried: Carried,
}

// What is promised of the expander as a whole.
pub fn promises()
    // the replay stage
    ensures back { LoadsPlayBack }
    ensures kept { SlotsKept }
    ensures words { PlainWords }
    // pieces
    ensures cut { CutAnywhere }
    ensures joined { JoinedPieces }
    ensures refused { RefusedPieces }
    ensures formed { CarriesFormed }
    ensures empty { EmptyLoads }
    // a call
    ensures examples { ExpanderExamples }
    ensures stages { Stages }
    ensures plain { PlainStreams }
    ensures slots { SlotsHandedBack }
    ensures fresh { FreshExpander }
{}
