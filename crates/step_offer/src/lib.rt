// A word offered to a machine that is known to be well formed.
#![tactic(auto)]

mod store_words;

ghost use Rattle.std.specs.Prelude.{◌≡◌, true, List, ℕ};
ghost use Rattle.machine.specs.Lent.{machine_at, SameLoans};
ghost use Rattle.machine.specs.Formed.{control_formed};
ghost use Rattle.machine.specs.Outcomes.{told_outcome};
ghost use Rattle.word_rules.specs.Offered.{with_cause, came, dropped_on, told_stepped};
ghost use Rattle.step_rules.specs.Step.{stepped, offer_of};

use crate::store_words::StoreWord;
use bits::word::field;
use machine::control::Control;
use machine::lent::SizedStores;
use machine::refusal::{Outcome, StallCause};
use machine::units::ThreadNumber;
use word_control::wait_words::drop_if;
use word_control::{control_word, on_control};
use word_rules::stepped::Stepped;
use word_waits::{judge, matrix_owns};

// What came of a word, with the cause put in where its thread's wait stalls it: the words are not given it.
fn with_cause(o: Outcome, cause: u32) -> Outcome
    ensures { told_outcome result ≡ with_cause cause (told_outcome o) }
{
    if let Outcome::Stalled(StallCause::WaitHolds(_)) = o {
        return Outcome::Stalled(StallCause::WaitHolds(cause));
    }
    o
}

// A word that leaves the control part alone, but that it drops a lifted wait if it passes.
fn finished(outcome: Outcome, c: Control, t: ThreadNumber, drops: bool) -> Stepped
    ensures { told_stepped result ≡ came (told_outcome outcome) (dropped_on (told_outcome outcome) c t drops) }
{
    Stepped {
        outcome,
        control: drop_if(c, t, matches!(outcome, Outcome::Passed) && drops),
    }
}

// A word offered by a thread. Its wait is judged once; then the word is refused, stalled or done, on the control part or on the
// stores, and the wait's cause is put in. No word reads or writes a Dest cell: the promise holds with any. Internal: the machine is
// well formed; a run sees to that once.
#[tactic(auto, using(machine::proofs::ControlFacts::pointer_at))]
pub fn offer(control: Control, stores: &mut SizedStores<'_>, t: ThreadNumber, word: u32) -> Stepped
    requires { control_formed control ≡ true }
    ensures same { SameLoans stores.new stores.old }
    ensures answer { (cells : List ℕ) → stepped (told_outcome result.outcome) (machine_at result.control stores.new cells) ≡ offer_of (machine_at control stores.old cells) t word }
{
    let j = judge(control, t);
    let op = field::<24, 8>(word);
    if on_control(op) {
        let x = control_word(control, t, op, word, j.blocks, j.drops);
        return Stepped {
            outcome: with_cause(x.outcome, j.cause),
            control: x.control,
        };
    }
    let word = StoreWord {
        t,
        op,
        word,
        blocks: j.blocks,
        owned: matrix_owns(control, 1),
        bank_a: control.pointers[0] as usize,
        bank_b: control.pointers[1] as usize,
    };
    finished(
        with_cause(word.store_word(stores), j.cause),
        control,
        t,
        j.drops,
    )
}
