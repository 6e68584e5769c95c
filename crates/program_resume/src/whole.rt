// From the image and the records that came to what is printed.
ghost use Rattle.std.specs.Prelude.{◌≡◌, true, ℕ, ◌≤◌, length, Ok};
ghost use Rattle.bits.specs.Overwrite.{Wrote};
ghost use Rattle.machine.specs.declared.refusal.Refusal.TheVariants.{BadImage};
ghost use Rattle.machine.specs.Formed.{well_formed};
ghost use Rattle.machine.specs.Fresh.{machine_of};
ghost use Rattle.image_layout.specs.Image.{image_size};
ghost use Rattle.program_records.specs.ResumeScript.{resume_script_of};
ghost use Rattle.program_resume.specs.Told.{told_of};
ghost use Rattle.program_resume.specs.Resume.{resume_room, resume_run, records_of, printed_of};

use crate::lines::put_told;
use image_layout::IMAGE_BYTES;
use machine::fresh::{WholeMachine, fresh};
use machine::refusal::Refusal;
use machine::sizes::STREAM_WORDS;
use program_records::resume_script::{ResumeScript, read_resume_script};
use program_records::words::read_streams;
use program_report::put_number_line;
use run_order::cursor::StreamsView;
use whole_machine::images::load_whole;
use whole_machine::runs::run_whole;

// Reads the streams, runs the machine and tells of it. Internal: the script is the records', the machine is well formed, and there is room.
#[tactic(auto, using(program_records::proofs::Sound::whole_facts))]
fn run_script(
    came: &[u8],
    tail: &[u8],
    script: ResumeScript,
    m: &mut WholeMachine,
    out: &mut [u8],
) -> usize
    requires { (well_formed (machine_of m.old) ≡ true) × (resume_room ≤ length out.old) × (length came.now ≤ image_size) × (resume_script_of tail.now ≡ Ok script) }
    ensures { Wrote out.old 0 (told_of came.now (resume_run tail.now (machine_of m.old) script) script.counts) out.new result }
{
    let n = script.counts;
    let mut s0 = [0u32; STREAM_WORDS];
    let mut s1 = [0u32; STREAM_WORDS];
    let mut s2 = [0u32; STREAM_WORDS];
    read_streams(tail, n, &mut s0, &mut s1, &mut s2);
    let streams = StreamsView {
        s0: &s0[..n.n0],
        s1: &s1[..n.n1],
        s2: &s2[..n.n2],
    };
    let ran = run_whole(m, streams, script.cursor, script.budget);
    put_told(out, came, ran, n, m)
}

// What is told of the records, for the machine of an image. Internal: the machine is well formed, and there is room.
#[tactic(auto, unfolding(crate::specs::Resume::records_of))]
fn resume_records(came: &[u8], tail: &[u8], m: &mut WholeMachine, out: &mut [u8]) -> usize
    requires { (well_formed (machine_of m.old) ≡ true) × (resume_room ≤ length out.old) × (length came.now ≤ image_size) }
    ensures { Wrote out.old 0 (records_of came.now tail.now (machine_of m.old)) out.new result }
{
    match read_resume_script(tail) {
        Err(bad) => put_number_line(out, 0, b"bad record at ", IMAGE_BYTES + bad.at),
        Ok(script) => run_script(came, tail, script, m, out),
    }
}

// The offset in refusal 9.
fn bad_offset(r: Refusal) -> usize
    ensures { (at : ℕ) → r ≡ BadImage at → result ≡ at }
{
    match r {
        Refusal::BadImage(at) => at,
        _ => 0,
    }
}

// What is printed for an image and the records after it. Internal: the image is no longer than an image, and there is room.
pub(crate) fn resume_parts(came: &[u8], tail: &[u8], out: &mut [u8]) -> usize
    requires { (resume_room ≤ length out.old) × (length came.now ≤ image_size) }
    ensures { Wrote out.old 0 (printed_of came.now tail.now) out.new result }
{
    let mut m = fresh();
    match load_whole(came, &mut m) {
        Err(r) => put_number_line(out, 0, b"bad image at ", bad_offset(r)),
        Ok(()) => resume_records(came, tail, &mut m, out),
    }
}
