// Saved images (document 01, "Saved image"): save, load, and what the two promise together.
#![tactic(auto)]

ghost use Rattle.std.specs.Prelude.{◌≡◌};
ghost use Rattle.machine.specs.Lent.{viewed};
ghost use Rattle.machine.specs.Machine.{machine};
ghost use Rattle.image.specs.Calls.{save_call, save_of, loaded_control, load_call, parts_call, load_of};
ghost use Rattle.image.specs.Promises.{ImageFacts, RoundTrips};

mod whole;

use image_layout::{CONFIG_KIND, IMAGE_BYTES};
use machine::control::Control;
use machine::lent::MachineView;
use machine::refusal::Refusal;
use machine::sizes::{CONFIG_WORDS, DEST_CELLS, DEST_ROWS, GPRS, SETTINGS, SOURCE_CELLS};
use machine_formed::{machine_formed, machine_sized};

// Writes a machine's image from the start of `out`, whose rest is left. Refusals 4, 10, 8.
#[tactic(auto, unfolding(crate::specs::Calls::save_of, crate::specs::Calls::save_check))]
pub fn save(m: MachineView<'_>, out: &mut [u8]) -> Result<(), Refusal>
    ensures { save_call result out.new ≡ save_of (viewed m.entry) out.old }
{
    if !machine_sized(m) {
        return Err(Refusal::BadLength);
    }
    if !machine_formed(m) {
        return Err(Refusal::Malformed);
    }
    if out.len() < IMAGE_BYTES {
        return Err(Refusal::ShortOutput);
    }
    whole::write_machine(out, m);
    Ok(())
}

// An image read into the stores: every field is looked at before anything is written.
#[tactic(auto, unfolding(crate::specs::Calls::load_of, crate::specs::Calls::load_check, machine::specs::Formed::stores_sized))]
fn load_parts(
    bytes: &[u8],
    settings: &mut [u16],
    gprs: &mut [u32],
    config: &mut [u32],
    dest: &mut [u16],
    marks: &mut [bool],
    src_a: &mut [u32],
    src_b: &mut [u32],
) -> Result<Control, Refusal>
    ensures { (control : Control) → parts_call result (machine (loaded_control control result) settings.new gprs.new config.new dest.new marks.new src_a.new src_b.new) ≡ load_of bytes.now (machine control settings.old gprs.old config.old dest.old marks.old src_a.old src_b.old) }
{
    let settings = settings
        .as_mut_array::<SETTINGS>()
        .ok_or(Refusal::BadLength)?;
    let gprs = gprs.as_mut_array::<GPRS>().ok_or(Refusal::BadLength)?;
    let config = config
        .as_mut_array::<CONFIG_WORDS>()
        .ok_or(Refusal::BadLength)?;
    let dest = dest.as_mut_array::<DEST_CELLS>().ok_or(Refusal::BadLength)?;
    let marks = marks.as_mut_array::<DEST_ROWS>().ok_or(Refusal::BadLength)?;
    let src_a = src_a
        .as_mut_array::<SOURCE_CELLS>()
        .ok_or(Refusal::BadLength)?;
    let src_b = src_b
        .as_mut_array::<SOURCE_CELLS>()
        .ok_or(Refusal::BadLength)?;
    match image_scan::scan(bytes, CONFIG_KIND, CONFIG_WORDS) {
        Err(good) => Err(Refusal::BadImage(good)),
        Ok(()) => Ok(whole::read_machine(bytes, settings, gprs, config, dest, marks, src_a, src_b)),
    }
}

// What comes of loading, and the control part: the image's, or the one handed in.
#[derive(Clone, Copy)]
pub struct Loaded {
    pub answer: Result<(), Refusal>,
    pub control: Control,
}

// Loads an image. Refusals 4, 9; the machine may be malformed.
pub fn load(
    bytes: &[u8],
    control: Control,
    settings: &mut [u16],
    gprs: &mut [u32],
    config: &mut [u32],
    dest: &mut [u16],
    marks: &mut [bool],
    src_a: &mut [u32],
    src_b: &mut [u32],
) -> Loaded
    ensures { load_call result.answer (machine result.control settings.new gprs.new config.new dest.new marks.new src_a.new src_b.new) ≡ load_of bytes.now (machine control settings.old gprs.old config.old dest.old marks.old src_a.old src_b.old) }
{
    match load_parts(bytes, settings, gprs, config, dest, marks, src_a, src_b) {
        Ok(loaded) => Loaded {
            answer: Ok(()),
            control: loaded,
        },
        Err(r) => Loaded {
            answer: Err(r),
            control,
        },
    }
}

// What saving and loading promise together.
pub fn promises()
    ensures facts { ImageFacts }
    ensures trips { RoundTrips }
{}
