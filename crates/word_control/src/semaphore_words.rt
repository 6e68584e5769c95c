// SEMINIT, SEMPOST and SEMGET: each changes the semaphores of its mask.
ghost use Rattle.std.specs.Prelude.{◌≡◌};
ghost use Rattle.machine.specs.Answers.{accepted};
ghost use Rattle.word_rules.specs.declared.instruction.SyncWord.{SyncWord};
ghost use Rattle.word_rules.specs.declared.instruction.Instruction.TheVariants.{Sync};
ghost use Rattle.word_rules.specs.SyncWords.{mask_of};
ghost use Rattle.word_rules.specs.Offered.{told_stepped, control_offer};
ghost use Rattle.word_control.specs.Changes.{Changes};

use crate::fields::mask;
use crate::semaphores::change_semaphores;
use crate::turn::Turn;
use word_rules::semaphore_change::SemaphoreChange;
use word_rules::stepped::Stepped;

// One of the three, by what it does to each semaphore of its mask.
pub(crate) fn change_word(turn: Turn, word: u32, k: SemaphoreChange) -> Stepped
    ensures { (x : SyncWord) → Changes k (mask_of word) x → told_stepped result ≡ control_offer turn.blocks turn.drops turn.control turn.thread (accepted (Sync x)) }
{
    let mask = mask(word);
    turn.gated::<1, _>(|d| change_semaphores(d, mask, k))
}
