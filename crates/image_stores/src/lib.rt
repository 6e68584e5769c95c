// The image's records of the stores read and written: kinds 2 to 7.
#![tactic(auto)]

mod marks;

ghost use Rattle.std.specs.Prelude.{◌≡◌, ◌++◌, ◌+◌, ◌*◌, ◌≤◌, ◌<◌, length, drop};
ghost use Rattle.machine.specs.Sizes.{config_count};
ghost use Rattle.bits.specs.Bytes.{enc};
ghost use Rattle.bits.specs.Overwrite.{Wrote};
ghost use Rattle.format.specs.Places.{place_most};
ghost use Rattle.format.specs.Format.{head_bytes, head, many_put};
ghost use Rattle.image_layout.specs.Image.{config_kind, words_format, dest_format, sources_format, image_size};
ghost use Rattle.image_layout.specs.Places.{gprs_at, dest_at, source_a_at};

use crate::marks::{read_marks, write_marks};
use format::HEAD_BYTES;
use format::number::Number;
use format::run::{read_run, write_head, write_run};
use image_layout::{
    CONFIG_AT, CONFIG_BODY_AT, CONFIG_KIND, DEST_AT, GPRS_AT, MARK_BYTES, MARKS_AT, SRC_A_AT,
    SRC_B_AT,
};
use machine::sizes::{CONFIG_WORDS, DEST_CELLS, DEST_ROWS, GPRS, SOURCE_CELLS};

// Where the bodies start, and how long that of the marks is.
const GPRS_BODY_AT: usize = GPRS_AT + HEAD_BYTES;

const DEST_BODY_AT: usize = DEST_AT + HEAD_BYTES;

const MARKS_BODY_AT: usize = MARKS_AT + HEAD_BYTES;

const SRC_A_BODY_AT: usize = SRC_A_AT + HEAD_BYTES;

const SRC_B_BODY_AT: usize = SRC_B_AT + HEAD_BYTES;

const MARKS_BODY: u32 = MARK_BYTES as u32;

// Writes a record of numbers, W bytes each. Internal: there is room.
fn write_record<T: Number, const W: usize>(out: &mut [u8], at: usize, k: u32, src: &[T])
    requires room { at + head_bytes + length src.now * W ≤ length out.old }
    requires width { (0 < W) × (W ≤ 4) }
    requires few { length src.now ≤ place_most }
    ensures { Wrote out.old at ((head (length src.now * W) k).put (tt, tt) ++ many_put (λ x. enc W (T.value x)) src.now) out.new (at + head_bytes + length src.now * W) }
{
    write_head(out, at, (src.len() * W) as u32, k);
    write_run::<T, W>(out, at + HEAD_BYTES, src);
}

// Writes the GPRs and Config. Internal: there is room.
pub fn write_word_stores(out: &mut [u8], gprs: &[u32; GPRS], config: &[u32; CONFIG_WORDS])
    requires { dest_at ≤ length out.old }
    ensures { Wrote out.old gprs_at ((words_format config_kind config_count).put (gprs.now, config.now)) out.new dest_at }
{
    write_record::<u32, 4>(out, GPRS_AT, 2, gprs);
    write_record::<u32, 4>(out, CONFIG_AT, CONFIG_KIND, config);
}

// Writes Dest and its marks. Internal: there is room.
pub fn write_dest(out: &mut [u8], dest: &[u16; DEST_CELLS], marks: &[bool; DEST_ROWS])
    requires { source_a_at ≤ length out.old }
    ensures { Wrote out.old dest_at (dest_format.put (dest.now, marks.now)) out.new source_a_at }
{
    write_record::<u16, 2>(out, DEST_AT, 4, dest);
    write_head(out, MARKS_AT, MARKS_BODY, 5);
    write_marks(out, MARKS_BODY_AT, marks);
}

// Writes SrcA and SrcB. Internal: there is room.
pub fn write_sources(out: &mut [u8], src_a: &[u32; SOURCE_CELLS], src_b: &[u32; SOURCE_CELLS])
    requires { image_size ≤ length out.old }
    ensures { Wrote out.old source_a_at (sources_format.put (src_a.now, src_b.now)) out.new image_size }
{
    write_record::<u32, 3>(out, SRC_A_AT, 6, src_a);
    write_record::<u32, 3>(out, SRC_B_AT, 7, src_b);
}

// Reads the GPRs and Config. Internal: their bytes are there.
pub fn read_word_stores(s: &[u8], gprs: &mut [u32; GPRS], config: &mut [u32; CONFIG_WORDS])
    requires { dest_at ≤ length s.now }
    ensures { (gprs.new, config.new) ≡ (words_format config_kind config_count).get (drop gprs_at s.now) }
{
    read_run::<u32, 4>(s, GPRS_BODY_AT, gprs);
    read_run::<u32, 4>(s, CONFIG_BODY_AT, config);
}

// Reads Dest and its marks. Internal: their bytes are there.
pub fn read_dest(s: &[u8], dest: &mut [u16; DEST_CELLS], marks: &mut [bool; DEST_ROWS])
    requires { source_a_at ≤ length s.now }
    ensures { (dest.new, marks.new) ≡ dest_format.get (drop dest_at s.now) }
{
    read_run::<u16, 2>(s, DEST_BODY_AT, dest);
    read_marks(s, MARKS_BODY_AT, marks);
}

// Reads SrcA and SrcB. Internal: their bytes are there.
pub fn read_sources(s: &[u8], src_a: &mut [u32; SOURCE_CELLS], src_b: &mut [u32; SOURCE_CELLS])
    requires { image_size ≤ length s.now }
    ensures { (src_a.new, src_b.new) ≡ sources_format.get (drop source_a_at s.now) }
{
    read_run::<u32, 3>(s, SRC_A_BODY_AT, src_a);
    read_run::<u32, 3>(s, SRC_B_BODY_AT, src_b);
}
