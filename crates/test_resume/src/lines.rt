// What is printed of an output of `resume`.
ghost use Rattle.std.specs.Prelude.{◌≤◌};

use image_layout::IMAGE_BYTES;
use std::io;
use test_machines::sums;

// How much of an output is text: all of it, or all but the image at its end.
fn text_length(m: usize) -> usize
    ensures { result ≤ m }
{
    if m < IMAGE_BYTES { m } else { m - IMAGE_BYTES }
}

fn sum_of(s: &[u8]) -> u32 {
    sums::checksum(sums::add_bytes(sums::start(), s))
}

// The text of the first m bytes, and a line with the sum of them all.
pub(crate) fn write_output(rt: &HostRuntime, out: &[u8], m: usize) -> io::Result<()> {
    if m <= out.len() {
        let n = text_length(m);
        rt.write_all(&out[..n])?;
        rt.print(sum_of(&out[..m]) as u64)?;
        rt.write_all(b"\n")?;
    }
    Ok(())
}
