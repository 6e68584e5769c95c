// What SETDVALID and CLEARDVALID do to bank owners and pointers.
ghost use Rattle.std.specs.Prelude.{◌≡◌, true, ◌<◌};
ghost use Rattle.machine.specs.Sizes.{pointer_count};
ghost use Rattle.machine.specs.Formed.{control_formed};
ghost use Rattle.word_rules.specs.BankWords.{give_to_matrix, give_to_unpackers, reset_banks, set_d_valid_after, clear_d_valid_after};
ghost use Rattle.word_control.specs.Given.{given};

use machine::control::Control;
use machine::sizes::{BANK_OWNERS, BANK_POINTERS};

// `control_formed` is asked and no type's invariant: a type would have to be proved at each place that builds a control part, for these words
// alone, which is no plainer.

// The bank at a pointer of a file goes to an owner, and the pointer flips unless it is kept. Internal: the control part is in range, and so are
// file and pointer.
fn give(c: Control, file: usize, pointer: usize, owner: u8, keep: bool) -> Control
    requires { (control_formed c ≡ true) × (file < 2) × (pointer < pointer_count) }
    ensures { result ≡ given c file pointer owner keep }
{
    let bank = c.pointers[pointer];
    let mut d = c;
    d.owners[2 * file + bank as usize] = owner;
    if !keep {
        d.pointers[pointer] = 1 - bank;
    }
    d
}

// The bank at the unpack pointer goes to Matrix, and the pointer flips.
#[tactic(auto, unfolding(word_rules::specs::BankWords::give_to_matrix))]
fn give_to_matrix(c: Control, file: usize) -> Control
    requires { (control_formed c ≡ true) × (file < 2) }
    ensures { result ≡ give_to_matrix c file }
{
    give(c, file, 2 + file, 1, false)
}

// The bank at the matrix pointer goes to Unpackers, and the pointer flips unless it is kept.
#[tactic(auto, unfolding(word_rules::specs::BankWords::give_to_unpackers))]
fn give_to_unpackers(c: Control, file: usize, keep: bool) -> Control
    requires { (control_formed c ≡ true) × (file < 2) }
    ensures { result ≡ give_to_unpackers c file keep }
{
    give(c, file, file, 0, keep)
}

// SETDVALID. Internal: the control part is in range.
#[tactic(auto, using(word_rules::proofs::ControlKeeps::to_matrix_formed), unfolding(word_rules::specs::BankWords::set_d_valid_after))]
pub(crate) fn give_banks(c: Control, a: bool, b: bool) -> Control
    requires { control_formed c ≡ true }
    ensures { result ≡ set_d_valid_after c a b }
{
    let d = if a { give_to_matrix(c, 0) } else { c };
    if b { give_to_matrix(d, 1) } else { d }
}

// All banks to Unpackers, all pointers 0.
fn reset_banks(c: Control) -> Control
    ensures { result ≡ reset_banks c }
{
    let mut d = c;
    d.owners = [0; BANK_OWNERS];
    d.pointers = [0; BANK_POINTERS];
    d
}

// CLEARDVALID. Internal: the control part is in range.
#[tactic(auto, using(word_rules::proofs::ControlKeeps::to_unpackers_formed), unfolding(word_rules::specs::BankWords::clear_d_valid_after))]
pub(crate) fn take_banks(c: Control, a: bool, b: bool, keep: bool, reset: bool) -> Control
    requires { control_formed c ≡ true }
    ensures { result ≡ clear_d_valid_after c a b keep reset }
{
    if reset {
        return reset_banks(c);
    }
    let d = if a { give_to_unpackers(c, 0, keep) } else { c };
    if b { give_to_unpackers(d, 1, keep) } else { d }
}
