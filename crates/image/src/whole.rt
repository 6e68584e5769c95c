// A whole image read and written, once nothing can fail.
ghost use Rattle.std.specs.Prelude.{◌≡◌, ◌≤◌, length};
ghost use Rattle.bits.specs.Overwrite.{Wrote};
ghost use Rattle.machine.specs.Lent.{viewed};
ghost use Rattle.machine.specs.Machine.{machine};
ghost use Rattle.machine.specs.Sizes.{config_count, dest_count, gpr_count, mark_count, setting_count, source_count};
ghost use Rattle.image_layout.specs.Image.{image, image_size};

use format::run::read_run;
use image_layout::SETTINGS_AT;
use machine::control::Control;
use machine::lent::MachineView;
use machine::sizes::{CONFIG_WORDS, DEST_CELLS, DEST_ROWS, GPRS, SETTINGS, SOURCE_CELLS};

// Writes a machine's image from the start of `out`. Its slices become arrays here: a view of arrays would be a second struct for this one call,
// which is no plainer. Internal: there is room, and the parts have their sizes.
pub(crate) fn write_machine(out: &mut [u8], m: MachineView<'_>)
    requires { (image_size ≤ length out.old) × (length m.settings.now ≡ setting_count) × (length m.gprs.now ≡ gpr_count) × (length m.config.now ≡ config_count) × (length m.dest.now ≡ dest_count) × (length m.marks.now ≡ mark_count) × (length m.src_a.now ≡ source_count) × (length m.src_b.now ≡ source_count) }
    ensures { Wrote out.old 0 (image.put (viewed m.entry)) out.new image_size }
{
    let Some(settings) = m.settings.as_array::<SETTINGS>() else {
        unreachable!()
    };
    let Some(gprs) = m.gprs.as_array::<GPRS>() else {
        unreachable!()
    };
    let Some(config) = m.config.as_array::<CONFIG_WORDS>() else {
        unreachable!()
    };
    let Some(dest) = m.dest.as_array::<DEST_CELLS>() else {
        unreachable!()
    };
    let Some(marks) = m.marks.as_array::<DEST_ROWS>() else {
        unreachable!()
    };
    let Some(src_a) = m.src_a.as_array::<SOURCE_CELLS>() else {
        unreachable!()
    };
    let Some(src_b) = m.src_b.as_array::<SOURCE_CELLS>() else {
        unreachable!()
    };
    image_control::write_control(out, settings, m.control);
    image_stores::write_word_stores(out, gprs, config);
    image_stores::write_dest(out, dest, marks);
    image_stores::write_sources(out, src_a, src_b);
}

// Reads an image's machine, and hands its control part back. Internal: the bytes are there.
pub(crate) fn read_machine(
    s: &[u8],
    settings: &mut [u16; SETTINGS],
    gprs: &mut [u32; GPRS],
    config: &mut [u32; CONFIG_WORDS],
    dest: &mut [u16; DEST_CELLS],
    marks: &mut [bool; DEST_ROWS],
    src_a: &mut [u32; SOURCE_CELLS],
    src_b: &mut [u32; SOURCE_CELLS],
) -> Control
    requires { image_size ≤ length s.now }
    ensures { machine result settings.new gprs.new config.new dest.new marks.new src_a.new src_b.new ≡ image.get s.now }
{
    read_run::<u16, 2>(s, SETTINGS_AT, settings);
    image_stores::read_word_stores(s, gprs, config);
    image_stores::read_dest(s, dest, marks);
    image_stores::read_sources(s, src_a, src_b);
    image_control::read_control(s)
}
