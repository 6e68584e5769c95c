// Each thread's last stall in a run (document 02, K3): none at its start, set by a stall, cleared when the thread passes a word.
ghost use Rattle.std.specs.Prelude.{◌≡◌};
ghost use Rattle.machine.specs.Outcomes.{told_outcome};
ghost use Rattle.run_order.specs.Stalls.{told_stall, told_stalls, no_stalls, with_stall, stalls_after};

use machine::refusal::{Outcome, StallCause};

// The last stalls of threads 0, 1 and 2, of those that have one.
#[derive(Clone, Copy, Debug, PartialEq, Eq)]
pub struct LastStalls {
    pub t0: Option<StallCause>,
    pub t1: Option<StallCause>,
    pub t2: Option<StallCause>,
}

// No thread has stalled.
pub fn no_stalls() -> LastStalls
    ensures { told_stalls result ≡ no_stalls }
{
    LastStalls {
        t0: None,
        t1: None,
        t2: None,
    }
}

impl LastStalls {
    // The same with a thread's replaced.
    #[tactic(auto, unfolding(crate::specs::Stalls::with_stall))]
    fn with_stall(self, t: u32, x: Option<StallCause>) -> Self
        ensures { told_stalls result ≡ with_stall (told_stalls self) t (told_stall x) }
    {
        let mut d = self;
        match t {
            0 => d.t0 = x,
            1 => d.t1 = x,
            _ => d.t2 = x,
        }
        d
    }

    // After a turn of thread `t` with this outcome.
    #[tactic(auto, unfolding(crate::specs::Stalls::stalls_after))]
    pub fn after(self, o: Outcome, t: u32) -> Self
        ensures { told_stalls result ≡ stalls_after (told_outcome o) t (told_stalls self) }
    {
        match o {
            Outcome::Passed => self.with_stall(t, None),
            Outcome::Stalled(cause) => self.with_stall(t, Some(cause)),
            Outcome::Idle | Outcome::Refused(_) => self,
        }
    }
}
