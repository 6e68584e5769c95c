// The control part: all that decides whether a word passes. It goes in by value and comes back by value.
ghost use Rattle.std.specs.Prelude.{◌≡◌};
ghost use Rattle.machine.specs.Control.{thread_at, with_thread};

use crate::sizes::{BANK_OWNERS, BANK_POINTERS, MUTEXES, SEMAPHORES};
use crate::units::ThreadNumber;

// A thread's wait: none, a stall wait, or a semaphore wait. The masks are the fields of STALLWAIT and SEMWAIT.
#[derive(Clone, Copy)]
pub enum Wait {
    Clear,
    OnStall { block: u16, conditions: u32 },
    OnSemaphore { block: u16, mask: u8, condition: u8 },
}

// A thread's own part of the control part.
#[derive(Clone, Copy)]
pub struct Thread {
    pub wait: Wait,
}

#[derive(Clone, Copy)]
pub struct Semaphore {
    pub value: u8,
    pub maximum: u8,
}

#[derive(Clone, Copy)]
pub struct Control {
    pub t0: Thread,
    pub t1: Thread,
    pub t2: Thread,
    // 0 is free; thread t holds it as t + 1
    pub mutexes: [u8; MUTEXES],
    pub semaphores: [Semaphore; SEMAPHORES],
    // of banks A0, A1, B0, B1: 0 is Unpackers, 1 is Matrix
    pub owners: [u8; BANK_OWNERS],
    // matrix A, matrix B, unpack A, unpack B: the bank, 0 or 1
    pub pointers: [u8; BANK_POINTERS],
}

impl Control {
    // A thread's part.
    #[tactic(auto, unfolding(crate::specs::Control::thread_at))]
    pub fn thread(self, t: ThreadNumber) -> Thread
        ensures { result ≡ thread_at self t }
    {
        match t.index() {
            0 => self.t0,
            1 => self.t1,
            _ => self.t2,
        }
    }

    // The control part with a thread's part replaced.
    #[tactic(auto, unfolding(crate::specs::Control::with_thread))]
    pub fn with_thread(self, t: ThreadNumber, x: Thread) -> Self
        ensures { result ≡ with_thread self t x }
    {
        let mut d = self;
        match t.index() {
            0 => d.t0 = x,
            1 => d.t1 = x,
            _ => d.t2 = x,
        }
        d
    }
}
