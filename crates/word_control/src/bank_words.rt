// SETDVALID and CLEARDVALID: bank owners and pointers.
ghost use Rattle.std.specs.Prelude.{◌≡◌, true};
ghost use Rattle.machine.specs.Formed.{control_formed};
ghost use Rattle.word_rules.specs.BankWords.{clear_d_valid_of, set_d_valid_of};
ghost use Rattle.word_rules.specs.Offered.{told_stepped, control_offer};

use crate::banks::{give_banks, take_banks};
use crate::fields::{clears_a, clears_b, keeps, resets, sets_a, sets_b};
use crate::turn::Turn;
use word_rules::stepped::Stepped;

// SETDVALID. Internal: the control part is in range.
#[tactic(auto, using(word_rules::proofs::ControlKeeps::dropped_formed))]
pub(crate) fn set_dvalid(turn: Turn, word: u32) -> Stepped
    requires { control_formed turn.control ≡ true }
    ensures { told_stepped result ≡ control_offer turn.blocks turn.drops turn.control turn.thread (set_d_valid_of word) }
{
    turn.gated::<6, _>(|d| give_banks(d, sets_a(word), sets_b(word)))
}

// CLEARDVALID. Internal: the control part is in range.
#[tactic(auto, using(word_rules::proofs::ControlKeeps::dropped_formed))]
pub(crate) fn clear_dvalid(turn: Turn, word: u32) -> Stepped
    requires { control_formed turn.control ≡ true }
    ensures { told_stepped result ≡ control_offer turn.blocks turn.drops turn.control turn.thread (clear_d_valid_of word) }
{
    turn.gated::<6, _>(|d| {
        take_banks(d, clears_a(word), clears_b(word), keeps(word), resets(word))
    })
}
