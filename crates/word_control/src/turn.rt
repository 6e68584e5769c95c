// A word's turn: what the word finds, and what it comes to where its thread's wait or its own rules stop it.
ghost use Rattle.std.specs.Prelude.{◌≡◌, ◌<◌, true, false};
ghost use Rattle.bits.specs.Field.{flag};
ghost use Rattle.machine.specs.declared.control.Control.{Control};
ghost use Rattle.machine.specs.Answers.{accepted};
ghost use Rattle.machine.specs.Outcomes.{told_outcome};
ghost use Rattle.word_rules.specs.declared.instruction.Instruction.{Instruction};
ghost use Rattle.word_rules.specs.Waits.{named_by, own_gate, Open};
ghost use Rattle.word_rules.specs.After.{word_after};
ghost use Rattle.word_rules.specs.Offered.{told_stepped, came, control_offer, dropped_if};

use crate::wait_words::drop_if;
use machine::control::Control;
use machine::refusal::{Outcome, StallCause};
use machine::units::ThreadNumber;
use word_rules::stepped::Stepped;
use word_rules::verdict::stalls;

// The control part that the word finds, its thread, the block bits that the thread's wait stalls now, and whether it is lifted.
#[derive(Clone, Copy)]
pub(crate) struct Turn {
    pub(crate) control: Control,
    pub(crate) thread: ThreadNumber,
    pub(crate) blocks: u16,
    pub(crate) drops: bool,
}

impl Turn {
    // A word that is refused or stalled: the control part stays.
    pub(crate) fn kept(self, outcome: Outcome) -> Stepped
        ensures { told_stepped result ≡ came (told_outcome outcome) self.control }
    {
        Stepped {
            outcome,
            control: self.control,
        }
    }

    // A word of block bit BIT: stalled by its thread's wait, or passed, with its change made once a lifted wait is dropped. Internal: where the wait
    // doesn't stall the word, it waits for nothing itself.
    pub(crate) fn gated<const BIT: u32, F: FnOnce(Control) -> Control>(self, change: F) -> Stepped
        requires bit { BIT < 16 }
        requires free { F.pre change (dropped_if self.control self.thread self.drops) }
        ensures { (i : Instruction) → flag BIT self.blocks ≡ named_by self.blocks i →
            (flag BIT self.blocks ≡ false → own_gate self.control self.thread i ≡ Open) →
            ((d : Control) → F.post change (dropped_if self.control self.thread self.drops) d → d ≡ word_after (dropped_if self.control self.thread self.drops) self.thread i) →
            told_stepped result ≡ control_offer self.blocks self.drops self.control self.thread (accepted i) }
    {
        if stalls::<BIT>(self.blocks) {
            return self.kept(Outcome::Stalled(StallCause::WaitHolds(0)));
        }
        Stepped {
            outcome: Outcome::Passed,
            control: change(drop_if(self.control, self.thread, self.drops)),
        }
    }
}
