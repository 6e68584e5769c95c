// What a run is (document 01, "A run"): its definitions, the laws that the code cites, and what holds of all runs.
#![tactic(auto)]

ghost use Rattle.run_rules.specs.Isolation.{Isolated};
ghost use Rattle.run_rules.specs.Chained.{Chained};
ghost use Rattle.run_rules.specs.Observed.{Observed};
ghost use Rattle.run_rules.specs.OfferedAgain.{OfferedAgain};
ghost use Rattle.run_rules.specs.Ended.{Ended};
ghost use Rattle.run_rules.specs.StuckForGood.{StuckForGood};
ghost use Rattle.run_rules.specs.StuckSays.{StuckSays};
ghost use Rattle.run_rules.specs.Kept.{RunKeeps};

// What holds of runs and is no single function's: condition 3; turns follow one another, and each can be looked at; a stalled word is
// offered again; how a run ends; what it leaves as it is; that a stuck run is stuck for good; and that it says of each thread what its
// word waits for.
pub fn promises()
    ensures isolated { Isolated }
    ensures chained { Chained }
    ensures observed { Observed }
    ensures again { OfferedAgain }
    ensures ended { Ended }
    ensures keeps { RunKeeps }
    ensures stuck { StuckForGood }
    ensures says { StuckSays }
{}
