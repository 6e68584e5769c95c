// Numbers that must not be mixed up: each unit is a type of its own.
ghost use Rattle.std.specs.Prelude.{◌≡◌, ◌<◌, ◌≤◌, ℕ, cond, ltb, Some, None};
ghost use Rattle.machine.specs.Sizes.{thread_count, thread_gprs};
ghost use Rattle.machine.specs.Units.{gpr_of_half, is_high_half, gpr_place};

use crate::sizes::{THREAD_GPRS, THREADS};
use std::marker::Model;

// A thread, 0 to 2. A contract sees its number.
#[derive(Clone, Copy)]
pub struct ThreadNumber(u8);

impl Model for ThreadNumber {
    ghost Value = { ℕ };

    ghost view = { λ a. a.0 };

    ghost invariant = { λ a. a.0 < thread_count };

    ghost inverse = { λ n. record { 0 = n } };
}

impl ThreadNumber {
    // A number from outside as a thread, if it is one.
    pub fn new(n: u32) -> Option<Self>
        ensures { result ≡ cond (ltb n thread_count) (Some n) None }
    {
        if n < THREADS as u32 {
            return Some(ThreadNumber(n as u8));
        }
        None
    }

    pub fn index(self) -> usize
        ensures value { result ≡ self }
        ensures within { result < thread_count }
    {
        self.0 as usize
    }
}

// A thread's GPR number, 0 to 63.
#[derive(Clone, Copy)]
pub struct GprNumber(pub u8);

// A half-register number, 0 to 127: the low half of GPR n is 2n, its high half 2n + 1.
#[derive(Clone, Copy)]
pub struct HalfRegister(pub u8);

impl HalfRegister {
    // The GPR that the half is of.
    pub fn gpr(self) -> GprNumber
        ensures { result ≡ gpr_of_half self }
    {
        GprNumber(self.0 / 2)
    }

    // Whether it is the high half.
    pub fn is_high(self) -> bool
        ensures { result ≡ is_high_half self }
    {
        self.0 % 2 == 1
    }
}

// Where thread t's GPR stands among the 192. Internal: its number is in range.
pub fn gpr_place(t: ThreadNumber, g: GprNumber) -> usize
    requires { g.0 < thread_gprs }
    ensures { result ≡ gpr_place t g }
{
    t.index() * THREAD_GPRS + g.0 as usize
}

// Where the GPR stands that a half register is of. Internal: its number is in range.
pub fn half_place(t: ThreadNumber, h: HalfRegister) -> usize
    requires { h.0 < 128 }
    ensures { result ≡ gpr_place t (gpr_of_half h) }
{
    gpr_place(t, h.gpr())
}
