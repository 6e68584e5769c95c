// One word on the whole machine.
#![tactic(auto)]

ghost use Rattle.std.specs.Prelude.{◌≡◌};
ghost use Rattle.machine.specs.Lent.{viewed};
ghost use Rattle.machine.specs.Machine.{machine};
ghost use Rattle.machine.specs.Answers.{told};
ghost use Rattle.machine.specs.Outcomes.{told_outcome};
ghost use Rattle.step_rules.specs.Step.{stepped, check_of, step_of};

use machine::control::Control;
use machine::lent::{MachineView, SizedStores};
use machine::refusal::{Outcome, Refusal};
use machine::units::ThreadNumber;
use machine_formed::{machine_formed, machine_sized};
use step_offer::offer;
use word_rules::stepped::Stepped;

// Refusals 4, 10 and 1.
#[tactic(auto, unfolding(step_rules::specs::Step::check_of))]
fn check_step(m: MachineView<'_>, thread: u32) -> Result<(), Refusal>
    ensures { told result ≡ check_of (viewed m.entry) thread }
{
    if !machine_sized(m) {
        return Err(Refusal::BadLength);
    }
    if !machine_formed(m) {
        return Err(Refusal::Malformed);
    }
    if thread > 2 {
        return Err(Refusal::BadThread);
    }
    Ok(())
}

// One word of a thread on a machine: refusals 4, 10, 1, then the word's 2 and 3, then the stalls, else passed. The parts are lent one
// by one: behind a reference to a struct of them none could be lent on as an array, which the borrow checker does not cover.
pub fn step(
    control: Control,
    settings: &mut [u16],
    gprs: &mut [u32],
    config: &mut [u32],
    dest: &[u16],
    marks: &mut [bool],
    src_a: &mut [u32],
    src_b: &mut [u32],
    thread: u32,
    word: u32,
) -> Stepped
    ensures { stepped (told_outcome result.outcome) (machine result.control settings.new gprs.new config.new dest.now marks.new src_a.new src_b.new) ≡ step_of (machine control settings.old gprs.old config.old dest.now marks.old src_a.old src_b.old) thread word }
{
    let view = MachineView {
        control,
        settings: &settings[..],
        gprs: &gprs[..],
        config: &config[..],
        dest,
        marks: &marks[..],
        src_a: &src_a[..],
        src_b: &src_b[..],
    };
    if let Err(r) = check_step(view, thread) {
        return Stepped {
            outcome: Outcome::Refused(r),
            control,
        };
    }
    let Some(t) = ThreadNumber::new(thread) else {
        unreachable!()
    };
    let Some(settings) = settings.as_mut_array() else {
        unreachable!()
    };
    let Some(gprs) = gprs.as_mut_array() else {
        unreachable!()
    };
    let Some(config) = config.as_mut_array() else {
        unreachable!()
    };
    let Some(marks) = marks.as_mut_array() else {
        unreachable!()
    };
    let Some(src_a) = src_a.as_mut_array() else {
        unreachable!()
    };
    let Some(src_b) = src_b.as_mut_array() else {
        unreachable!()
    };
    let mut stores = SizedStores {
        settings,
        gprs,
        config,
        marks,
        src_a,
        src_b,
    };
    offer(control, &mut stores, t, word)
}
