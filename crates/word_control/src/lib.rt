// The words that work on the control part, offered: the words of the sync unit, SETDVALID and CLEARDVALID. Nothing here is lent
// a store.
#![tactic(auto)]

mod bank_words;
mod banks;
pub mod fields;
mod mutex_words;
mod semaphore_words;
mod semaphores;
mod turn;
pub mod wait_words;

ghost use Rattle.std.specs.Prelude.{◌≡◌, true, cond, eqb};
ghost use Rattle.bits.specs.Field.{field};
ghost use Rattle.machine.specs.Formed.{control_formed};
ghost use Rattle.word_rules.specs.Table.{control_rows, has, said};
ghost use Rattle.word_rules.specs.Offered.{told_stepped, control_offer};
ghost use Rattle.word_rules.specs.declared.semaphore_change.SemaphoreChange.TheVariants.{Init, Up, Down};

use crate::bank_words::{clear_dvalid, set_dvalid};
use crate::fields::{init_value, maximum};
use crate::mutex_words::{at_get_m, at_rel_m};
use crate::semaphore_words::change_word;
use crate::turn::Turn;
use crate::wait_words::{sem_wait, stall_wait};
use machine::control::Control;
use machine::units::ThreadNumber;
use word_rules::semaphore_change::SemaphoreChange;
use word_rules::stepped::Stepped;

// Whether a word works on the control part, by its opcode.
#[tactic(auto, unfolding(word_rules::specs::Table::has))]
pub fn on_control(op: u32) -> bool
    ensures { result ≡ has control_rows op }
{
    matches!(op, 0x36 | 0x57 | 0xA0..=0xA6)
}

// What SEMINIT, SEMPOST and SEMGET do to each semaphore of their mask.
fn change_of(op: u32, word: u32) -> SemaphoreChange
    ensures { result ≡ cond (eqb op 0xA3) (Init (field 16 4 word) (field 20 4 word)) (cond (eqb op 0xA4) Up Down) }
{
    match op {
        0xA3 => SemaphoreChange::Init {
            value: init_value(word),
            maximum: maximum(word),
        },
        0xA4 => SemaphoreChange::Up,
        _ => SemaphoreChange::Down,
    }
}

// Such a word, offered by thread t, whose wait stalls these block bits now, and is lifted or not. The three that change semaphores are
// one call: in three it is not inlined, and the control part goes through memory. Internal: the opcode is such a word's, and the
// control part is in range.
#[tactic(auto, unfolding(word_rules::specs::Table::said))]
pub fn control_word(
    c: Control,
    t: ThreadNumber,
    op: u32,
    word: u32,
    blocks: u16,
    drops: bool,
) -> Stepped
    requires { (control_formed c ≡ true) × (has control_rows op ≡ true) }
    ensures { told_stepped result ≡ control_offer blocks drops c t (said control_rows op word) }
{
    let turn = Turn {
        control: c,
        thread: t,
        blocks,
        drops,
    };
    match op {
        0x36 => clear_dvalid(turn, word),
        0x57 => set_dvalid(turn, word),
        0xA0 => at_get_m(turn, word),
        0xA1 => at_rel_m(turn, word),
        0xA2 => stall_wait(turn, word),
        0xA6 => sem_wait(turn, word),
        _ => change_word(turn, word, change_of(op, word)),
    }
}
