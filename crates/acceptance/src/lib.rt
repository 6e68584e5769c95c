// What the customer is promised and no single function can state, in one place.
#![tactic(auto)]

ghost use Rattle.step_rules.specs.Kept.{KeepsFormed};
ghost use Rattle.step_rules.specs.Unchanged.{Unchanged};
ghost use Rattle.step_rules.specs.Causes.{CausesHold};
ghost use Rattle.run_rules.specs.Isolation.{Isolated};
ghost use Rattle.run_rules.specs.Chained.{Chained};
ghost use Rattle.run_rules.specs.Observed.{Observed};
ghost use Rattle.run_rules.specs.OfferedAgain.{OfferedAgain};
ghost use Rattle.run_rules.specs.Ended.{Ended};
ghost use Rattle.run_rules.specs.Kept.{RunKeeps};
ghost use Rattle.run_rules.specs.StuckForGood.{StuckForGood};
ghost use Rattle.run_rules.specs.StuckSays.{StuckSays};
ghost use Rattle.dest.specs.Cover.{ViewsCover};
ghost use Rattle.image.specs.Promises.{ImageFacts, RoundTrips};
ghost use Rattle.bench_gprs.specs.Promises.{GprPromises};
ghost use Rattle.bench_dest.specs.Promises.{DestPromises};
ghost use Rattle.bench_sources.specs.Promises.{SourcePromises};
ghost use Rattle.expander_rules.specs.Promises.{LoadsPlayBack, CutAnywhere, JoinedPieces, RefusedPieces, CarriesFormed, EmptyLoads, Stages, PlainStreams, SlotsHandedBack, FreshExpander};
ghost use Rattle.acceptance.specs.Worked.{Worked};

// Each clause is a theorem over the definitions that the contracts of the entries cite.
pub fn promises()
    // condition 3
    ensures isolated { Isolated }
    // M1 to M11 of document 01
    ensures worked { Worked }
    // a word that stalls or is refused changes nothing; a word keeps a well-formed machine well formed
    ensures unchanged { Unchanged }
    ensures kept { KeepsFormed }
    // each turn of a run goes on from what the one before left, and the machine after it is what a run of so many turns hands back
    ensures chained { Chained }
    ensures observed { Observed }
    // a turn moves its own thread's position alone, past a passed word; a stalled word is offered again
    ensures again { OfferedAgain }
    // before each turn nothing ended the run; what is so at its end, for each answer
    ensures ended { Ended }
    // a turn without a passed word and a refused call change nothing; a run keeps a well-formed machine well formed
    ensures keeps { RunKeeps }
    // a stuck run is stuck for good
    ensures stuck { StuckForGood }
    // the cause that a stall is told for is so; in a stuck run a thread's last stall is what its word waits for on the machine left
    ensures causes { CausesHold }
    ensures says { StuckSays }
    // each Dest view covers every storage row exactly once, in every setting of the flags
    ensures covers { ViewsCover }
    // images load to the state they were saved from, and each accepted image saves to its own bytes
    ensures images { ImageFacts }
    ensures trips { RoundTrips }
    // what the bench writes is read back, and every other register and row reads as before
    ensures gprs { GprPromises }
    ensures rows { DestPromises }
    ensures sources { SourcePromises }
    // a stream gives the same however it is cut; pieces that are all accepted are one call; a refused piece leaves what is carried; what
    // an accepted one carries is well formed; a load with no words to come takes nothing
    ensures cut { CutAnywhere }
    ensures joined { JoinedPieces }
    ensures refused { RefusedPieces }
    ensures formed { CarriesFormed }
    ensures empty { EmptyLoads }
    // the words of an accepted call are the replay stage of what leaves the MOP stage; without a REPLAY document 01's, and the slots stay
    ensures stages { Stages }
    ensures plain { PlainStreams }
    // what a load took a play gives back; 32 slots stay 32; fresh ones hold NOP
    ensures back { LoadsPlayBack }
    ensures slots { SlotsHandedBack }
    ensures fresh { FreshExpander }
{}
