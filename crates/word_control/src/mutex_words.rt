// ATGETM and ATRELM.
ghost use Rattle.std.specs.Prelude.{◌≡◌, ◌<◌, set};
ghost use Rattle.machine.specs.Sizes.{mutex_count};
ghost use Rattle.word_rules.specs.Waits.{mutex_open};
ghost use Rattle.word_rules.specs.SyncWords.{at_get_m_of, at_rel_m_of, released};
ghost use Rattle.word_rules.specs.Offered.{told_stepped, control_offer};
ghost use Rattle.machine.specs.Control.{with_mutexes};

use crate::fields::{mutex, mutex_fine};
use crate::turn::Turn;
use machine::control::Control;
use machine::refusal::{Outcome, Refusal, StallCause};
use machine::units::ThreadNumber;
use word_rules::stepped::Stepped;
use word_rules::verdict::stalls;

// A mutex's holder replaced. Internal: the mutex is in range.
fn with_mutex(c: Control, m: usize, holder: u8) -> Control
    requires { m < mutex_count }
    ensures { result ≡ with_mutexes c (set c.mutexes m holder) }
{
    let mut d = c;
    d.mutexes[m] = holder;
    d
}

// A mutex freed, if it is the thread's. Internal: the mutex is in range.
fn release(c: Control, m: usize, t: ThreadNumber) -> Control
    requires { m < mutex_count }
    ensures { result ≡ with_mutexes c (released c.mutexes m t) }
{
    if c.mutexes[m] == t.index() as u8 + 1 {
        return with_mutex(c, m, 0);
    }
    c
}

// Whether ATGETM passes.
fn mutex_open(holder: u8, t: ThreadNumber) -> bool
    ensures { result ≡ mutex_open holder t }
{
    holder == 0 || holder == t.index() as u8 + 1
}

// ATGETM: takes a free one, passes if already its own, else waits.
#[tactic(auto, unfolding(word_rules::specs::Offered::control_offer))]
pub(crate) fn at_get_m(turn: Turn, word: u32) -> Stepped
    ensures { told_stepped result ≡ control_offer turn.blocks turn.drops turn.control turn.thread (at_get_m_of word) }
{
    if !mutex_fine(word) {
        return turn.kept(Outcome::Refused(Refusal::BadField));
    }
    let m = mutex(word) as usize;
    let holder = turn.control.mutexes[m];
    let t = turn.thread;
    if !stalls::<1>(turn.blocks) && !mutex_open(holder, t) {
        return turn.kept(Outcome::Stalled(StallCause::MutexHeld(holder as u32 - 1)));
    }
    turn.gated::<1, _>(|d| with_mutex(d, m, t.index() as u8 + 1))
}

// ATRELM: frees its own, else no effect.
#[tactic(auto, unfolding(word_rules::specs::Offered::control_offer))]
pub(crate) fn at_rel_m(turn: Turn, word: u32) -> Stepped
    ensures { told_stepped result ≡ control_offer turn.blocks turn.drops turn.control turn.thread (at_rel_m_of word) }
{
    if !mutex_fine(word) {
        return turn.kept(Outcome::Refused(Refusal::BadField));
    }
    let m = mutex(word) as usize;
    let t = turn.thread;
    turn.gated::<1, _>(|d| release(d, m, t))
}
