// Dest's valid marks, eight to a byte: row r at bit r mod 8 of byte r / 8.
ghost use Rattle.std.specs.Prelude.{◌≡◌, ◌+◌, ◌*◌, ◌≤◌, length, drop};
ghost use Rattle.bits.specs.Overwrite.{over, Wrote};
ghost use Rattle.image_layout.specs.Marks.{bit, pack, unpack, marks_format};
ghost use Rattle.image_layout.specs.Image.{marks_size};

use image_layout::MARK_BYTES;
use machine::sizes::DEST_ROWS;

// A mark as a number.
fn bit(b: bool) -> u8
    ensures { (result ≡ bit b) × (result ≤ 1) }
{
    if b { 1 } else { 0 }
}

// The byte of the eight marks from `at`. Internal: they are there.
fn packed(marks: &[bool], at: usize) -> u8
    requires { at + 8 ≤ length marks.now }
    ensures { result ≡ pack 8 (drop at marks.now) }
{
    let mut v = 0;
    for i in (0..8).rev() {
        v = bit(marks[at + i]) + 2 * v;
    }
    v
}

// The eight marks of a byte, from `at`. Internal: there is room.
fn unpack(b: u8, marks: &mut [bool], at: usize)
    requires { at + 8 ≤ length marks.old }
    ensures { marks.new ≡ over marks.old at (unpack 8 b) }
{
    let mut v = b;
    for i in 0..8 {
        marks[at + i] = v % 2 == 1;
        v /= 2;
    }
}

// Writes the marks from `at`. Internal: there is room.
pub(crate) fn write_marks(out: &mut [u8], at: usize, marks: &[bool; DEST_ROWS])
    requires { at + marks_size ≤ length out.old }
    ensures { Wrote out.old at ((marks_format marks_size).put marks.now) out.new (at + marks_size) }
{
    for i in 0..MARK_BYTES {
        out[at + i] = packed(marks, 8 * i);
    }
}

// Reads the marks from `at`. Internal: their bytes are there.
pub(crate) fn read_marks(s: &[u8], at: usize, marks: &mut [bool; DEST_ROWS])
    requires { at + marks_size ≤ length s.now }
    ensures { marks.new ≡ (marks_format marks_size).get (drop at s.now) }
{
    for i in 0..MARK_BYTES {
        unpack(s[at + i], marks, 8 * i);
    }
}
