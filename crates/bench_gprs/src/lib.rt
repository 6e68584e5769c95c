// The GPRs: 3 threads x 64.
#![tactic(auto)]

ghost use Rattle.std.specs.Prelude.{◌≡◌, ◌<◌, IfOk};
ghost use Rattle.machine.specs.Sizes.{gpr_count};
ghost use Rattle.machine.specs.Units.{gpr, gpr_place};
ghost use Rattle.machine.specs.Answers.{accepted, told, call};
ghost use Rattle.bench_gprs.specs.Gprs.{gpr_check, read_gpr_of, write_gpr_of};
ghost use Rattle.bench_gprs.specs.Promises.{GprPromises};

use machine::refusal::Refusal;
use machine::sizes::{GPRS, THREAD_GPRS};
use machine::units::{GprNumber, ThreadNumber, gpr_place};

// Where a GPR stands among the 192 lent, or why the call is refused.
#[tactic(auto, unfolding(crate::specs::Gprs::gpr_check))]
fn find_gpr(count: usize, thread: u32, register: u32) -> Result<usize, Refusal>
    ensures found { IfOk result (λ at. (count ≡ gpr_count) × (at < gpr_count)) }
    ensures answer { told result ≡ gpr_check count thread register (accepted (gpr_place thread (gpr register))) }
{
    if count != GPRS {
        return Err(Refusal::BadLength);
    }
    let t = ThreadNumber::new(thread).ok_or(Refusal::BadThread)?;
    if register as usize >= THREAD_GPRS {
        return Err(Refusal::BadPlace);
    }
    Ok(gpr_place(t, GprNumber(register as u8)))
}

// Reads a thread's GPR.
#[tactic(auto, unfolding(crate::specs::Gprs::gpr_check, crate::specs::Gprs::read_gpr_of))]
pub fn read_gpr(gprs: &[u32], thread: u32, register: u32) -> Result<u32, Refusal>
    ensures { told result ≡ read_gpr_of gprs.now thread register }
{
    let at = find_gpr(gprs.len(), thread, register)?;
    Ok(gprs[at])
}

// Writes a thread's GPR.
#[tactic(auto, unfolding(crate::specs::Gprs::gpr_check, crate::specs::Gprs::write_gpr_of))]
pub fn write_gpr(gprs: &mut [u32], thread: u32, register: u32, value: u32) -> Result<(), Refusal>
    ensures { call (told result) gprs.new ≡ write_gpr_of gprs.old thread register value }
{
    let at = find_gpr(gprs.len(), thread, register)?;
    gprs[at] = value;
    Ok(())
}

// What is promised of the two calls together: what is written is read back, and all else is left as it reads.
pub fn promises()
    ensures { GprPromises }
{}
