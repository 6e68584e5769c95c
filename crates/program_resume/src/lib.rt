// The program `resume`, from its input's bytes to its output's: an image, streams, a budget and a cursor in; lines and the
// image after the run out.
#![tactic(auto)]

mod lines;
mod whole;

ghost use Rattle.std.specs.Prelude.{◌≤◌, length};
ghost use Rattle.bits.specs.Overwrite.{Wrote};
ghost use Rattle.program_resume.specs.Resume.{resume_of, resume_room, LongResumes, Split};

use image_layout::IMAGE_BYTES;
use program_records::resume_script::RESUME_SCRIPT_BYTES;
use program_report::LINES_BYTES;

// The bytes of the longest sound input, and one more, by which a longer one is known.
pub const RESUME_READS: usize = IMAGE_BYTES + RESUME_SCRIPT_BYTES + 1;

// Room for every output.
pub const RESUME_ROOM: usize = IMAGE_BYTES + LINES_BYTES;

// Where the image of an input ends.
fn image_end(s: &[u8]) -> usize
    ensures { Split s.now result }
{
    s.len().min(IMAGE_BYTES)
}

// Everything that the program prints for an input. Internal: there is room.
pub fn resume(input: &[u8], out: &mut [u8]) -> usize
    requires { resume_room ≤ length out.old }
    ensures { Wrote out.old 0 (resume_of input.now) out.new result }
{
    let n = image_end(input);
    whole::resume_parts(&input[..n], &input[n..], out)
}

// What holds of every input: none is too long.
pub fn promises()
    ensures long { LongResumes }
{}
