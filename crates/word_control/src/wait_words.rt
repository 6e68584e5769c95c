// A thread's wait, dropped and set; STALLWAIT and SEMWAIT, each of which becomes it.
ghost use Rattle.std.specs.Prelude.{◌≡◌};
ghost use Rattle.word_rules.specs.SyncWords.{stall_wait_of, sem_wait_of};
ghost use Rattle.word_rules.specs.Offered.{told_stepped, control_offer, dropped_if};
ghost use Rattle.machine.specs.Control.{with_wait};

use crate::fields::{block, condition, conditions, mask};
use crate::turn::Turn;
use machine::control::{Control, Thread, Wait};
use machine::units::ThreadNumber;
use word_rules::stepped::Stepped;

// The thread's wait replaced.
fn with_wait(c: Control, t: ThreadNumber, w: Wait) -> Control
    ensures { result ≡ with_wait c t w }
{
    c.with_thread(t, Thread { wait: w })
}

// The thread's wait dropped, if it is to be.
pub fn drop_if(c: Control, t: ThreadNumber, drops: bool) -> Control
    ensures { result ≡ dropped_if c t drops }
{
    if drops {
        with_wait(c, t, Wait::Clear)
    } else {
        c
    }
}

// STALLWAIT.
pub(crate) fn stall_wait(turn: Turn, word: u32) -> Stepped
    ensures { told_stepped result ≡ control_offer turn.blocks turn.drops turn.control turn.thread (stall_wait_of word) }
{
    let t = turn.thread;
    let wait = Wait::OnStall {
        block: block(word),
        conditions: conditions(word),
    };
    turn.gated::<1, _>(|d| with_wait(d, t, wait))
}

// SEMWAIT.
pub(crate) fn sem_wait(turn: Turn, word: u32) -> Stepped
    ensures { told_stepped result ≡ control_offer turn.blocks turn.drops turn.control turn.thread (sem_wait_of word) }
{
    let t = turn.thread;
    let wait = Wait::OnSemaphore {
        block: block(word),
        mask: mask(word),
        condition: condition(word),
    };
    turn.gated::<1, _>(|d| with_wait(d, t, wait))
}
