// What a thread's wait makes of its words now. Nothing here is lent a store.
#![tactic(auto)]

ghost use Rattle.std.specs.Prelude.{◌≡◌, true, cond, not, ◌&&◌, ◌<◌, ◌≤◌, ◌+◌, None, eqb, get_or};
ghost use Rattle.machine.specs.Control.{wait_of, owner_of, unpackers_own, matrix_owns};
ghost use Rattle.machine.specs.Formed.{control_formed};
ghost use Rattle.word_rules.specs.Waits.{held_if, meets, masked_meets, semaphore_cause, stall_held, semaphore_held, held_by, is_held};
ghost use Rattle.word_rules.specs.Offered.{lifted_now, blocks_now, cause_in};

use bits::word;
use machine::control::{Control, Semaphore, Wait};
use machine::sizes::SEMAPHORES;
use machine::units::ThreadNumber;

// Whether a unit owns the bank at a source file's pointer: OWNER is the unit, whose pointers stand from FIRST on. Internal, as all below.
// A file is a number, since it is part of an owner's place (`owner_place`).
#[tactic(auto, using(machine::proofs::ControlFacts::pointer_at))]
fn owns<const FIRST: usize, const OWNER: u8>(c: Control, file: usize) -> bool
    requires { (control_formed c ≡ true) × (file < 2) × (FIRST ≤ 2) }
    ensures { result ≡ eqb (owner_of c file (get_or c.pointers (FIRST + file) 0)) OWNER }
{
    let bank = c.pointers[FIRST + file] as usize;
    c.owners[2 * file + bank] == OWNER
}

// Whether Unpackers own the bank at a source file's unpack pointer. Internal: file 0 is SrcA, 1 is SrcB.
pub fn unpackers_own(c: Control, file: usize) -> bool
    requires { (control_formed c ≡ true) × (file < 2) }
    ensures { result ≡ unpackers_own c file }
{
    owns::<2, 0>(c, file)
}

// Whether Matrix owns the bank at a source file's matrix pointer. Internal.
pub fn matrix_owns(c: Control, file: usize) -> bool
    requires { (control_formed c ≡ true) × (file < 2) }
    ensures { result ≡ matrix_owns c file }
{
    owns::<0, 1>(c, file)
}

// The lowest stall condition that is named and holds now. All four are asked, by `&`: a jump for each costs a STALLWAIT a quarter more. Internal:
// the control part is in range.
#[tactic(auto, unfolding(word_rules::specs::Waits::stall_held))]
fn stall_held(c: Control, k: u32) -> Option<u8>
    requires { control_formed c ≡ true }
    ensures { result ≡ stall_held c k }
{
    let c5 = word::flag::<5>(k) & !unpackers_own(c, 0);
    let c6 = word::flag::<6>(k) & !unpackers_own(c, 1);
    let c7 = word::flag::<7>(k) & !matrix_owns(c, 0);
    let c8 = word::flag::<8>(k) & !matrix_owns(c, 1);
    c5.then_some(5)
        .or(c6.then_some(6))
        .or(c7.then_some(7))
        .or(c8.then_some(8))
}

// As what a semaphore meets the condition, so that its number plus this is the cause: 16 as zero, 24 as full. The
// condition stays the number that SEMWAIT has, which `meets` takes.
fn meets_as(s: Semaphore, condition: u8) -> Option<u8>
    ensures { result ≡ held_if (meets condition s) (semaphore_cause condition s 0) None }
{
    let zero = s.value == 0;
    let full = s.value == s.maximum;
    match condition {
        1 | 3 if zero => Some(16),
        2 | 3 if full => Some(24),
        _ => None,
    }
}

// The same where the mask's lowest bit is the semaphore's.
fn masked_as(s: Semaphore, m: u8, condition: u8) -> Option<u8>
    ensures { result ≡ held_if (masked_meets condition s m) (semaphore_cause condition s 0) None }
{
    if m % 2 == 1 {
        meets_as(s, condition)
    } else {
        None
    }
}

// The lowest semaphore of the mask that meets the condition.
fn semaphore_held(all: &[Semaphore; SEMAPHORES], mask: u8, condition: u8) -> Option<u8>
    ensures { result ≡ semaphore_held condition all.now mask 0 }
{
    let mut m = mask;
    for (i, s) in all.iter().enumerate() {
        if let Some(held_as) = masked_as(*s, m, condition) {
            return Some(i as u8 + held_as);
        }
        m /= 2;
    }
    None
}

// The block bits that a thread's wait stalls now, what it is held by, and whether it is lifted, so that a passing word drops it. `drops` is no
// flag of the other two: a held wait, a lifted one and none are three cases, and the three are read apart.
#[derive(Clone, Copy)]
pub struct Judged {
    pub blocks: u16,
    pub cause: u32,
    pub drops: bool,
}

// A wait with this block, by what it is held by.
fn judged_by(block: u16, held: Option<u8>) -> Judged
    ensures { (result.blocks ≡ cond (is_held held) block 0) × (result.cause ≡ cause_in held) × (result.drops ≡ not (is_held held)) }
{
    match held {
        None => Judged {
            blocks: 0,
            cause: 0,
            drops: true,
        },
        Some(cause) => Judged {
            blocks: block,
            cause: cause as u32,
            drops: false,
        },
    }
}

// The wait is judged once a turn. Internal: the control part is in range.
pub fn judge(c: Control, t: ThreadNumber) -> Judged
    requires { control_formed c ≡ true }
    ensures { (result.blocks ≡ blocks_now c (wait_of c t)) × (result.cause ≡ cause_in (held_by c (wait_of c t))) × (result.drops ≡ lifted_now c (wait_of c t)) }
{
    match c.thread(t).wait {
        Wait::Clear => Judged {
            blocks: 0,
            cause: 0,
            drops: false,
        },
        Wait::OnStall { block, conditions } => judged_by(block, stall_held(c, conditions)),
        Wait::OnSemaphore {
            block,
            mask,
            condition,
        } => judged_by(block, semaphore_held(&c.semaphores, mask, condition)),
    }
}
