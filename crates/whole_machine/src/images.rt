// Saved images of a whole machine: each call lends the machine's parts once, so that no caller holds them all.
ghost use Rattle.std.specs.Prelude.{◌≡◌};
ghost use Rattle.machine.specs.Fresh.{machine_of};
ghost use Rattle.machine.specs.Answers.{call, told};
ghost use Rattle.image.specs.Calls.{save_call, save_of, load_of};

use machine::fresh::WholeMachine;
use machine::lent::MachineView;
use machine::refusal::Refusal;

// Saves the machine from the output's start: refusals 10 and 8.
pub fn save_whole(m: &WholeMachine, out: &mut [u8]) -> Result<(), Refusal>
    ensures { save_call result out.new ≡ save_of (machine_of m.now) out.old }
{
    image::save(
        MachineView {
            control: m.control,
            settings: &m.settings,
            gprs: &m.gprs,
            config: &m.config,
            dest: &m.dest,
            marks: &m.marks,
            src_a: &m.src_a,
            src_b: &m.src_b,
        },
        out,
    )
}

// Loads an image over the machine: refusal 9.
pub fn load_whole(bytes: &[u8], m: &mut WholeMachine) -> Result<(), Refusal>
    ensures { call (told result) (machine_of m.new) ≡ load_of bytes.now (machine_of m.old) }
{
    let WholeMachine {
        control,
        settings,
        gprs,
        config,
        dest,
        marks,
        src_a,
        src_b,
    } = m;
    let loaded = image::load(
        bytes, *control, settings, gprs, config, dest, marks, src_a, src_b,
    );
    *control = loaded.control;
    loaded.answer
}
