// How far the records of the stores are good: kinds 2 to 7.
ghost use Rattle.std.specs.Prelude.{◌≡◌, ◌+◌, ◌≤◌, drop};
ghost use Rattle.format.specs.Places.{place_most};
ghost use Rattle.image_layout.specs.Image.{words_format, dest_format, sources_format};
ghost use Rattle.image_layout.specs.Places.{gprs_at};

use format::check::{good_across, record};
use image_layout::{CONFIG_AT, DEST_RECORD, GPRS_AT, GPRS_RECORD, MARK_BYTES, SOURCE_RECORD};
use machine::sizes::{CELL_MOST, DEST_CELLS, GPRS, SOURCE_CELLS};

// How far the GPRs and Config are good. Internal: the places are small numbers.
pub(crate) fn words_good(s: &[u8], kind: u32, words: usize) -> usize
    requires { gprs_at + (words_format kind words).size ≤ place_most }
    ensures { (result ≡ (words_format kind words).good (drop gprs_at s.now)) × (result ≤ (words_format kind words).size) }
{
    let a = record::<4>(s, GPRS_AT, 2, GPRS, u32::MAX);
    let b = record::<4>(s, CONFIG_AT, kind, words, u32::MAX);
    good_across(a, GPRS_RECORD, b)
}

// How far Dest and its marks are good: a byte of marks may hold any number. Internal, as words_good.
pub(crate) fn dest_good(s: &[u8], at: usize) -> usize
    requires { at + dest_format.size ≤ place_most }
    ensures { (result ≡ dest_format.good (drop at s.now)) × (result ≤ dest_format.size) }
{
    let a = record::<2>(s, at, 4, DEST_CELLS, u16::MAX as u32);
    let b = record::<1>(s, at + DEST_RECORD, 5, MARK_BYTES, u8::MAX as u32);
    good_across(a, DEST_RECORD, b)
}

// How far SrcA and SrcB are good. Internal, as words_good.
pub(crate) fn sources_good(s: &[u8], at: usize) -> usize
    requires { at + sources_format.size ≤ place_most }
    ensures { (result ≡ sources_format.good (drop at s.now)) × (result ≤ sources_format.size) }
{
    let a = record::<3>(s, at, 6, SOURCE_CELLS, CELL_MOST);
    let b = record::<3>(s, at + SOURCE_RECORD, 7, SOURCE_CELLS, CELL_MOST);
    good_across(a, SOURCE_RECORD, b)
}
