// What the program `resume` prints of a run: its lines and an image.
ghost use Rattle.std.specs.Prelude.{◌≡◌, true, ◌++◌, ◌+◌, ◌≤◌, length};
ghost use Rattle.bits.specs.Overwrite.{Wrote};
ghost use Rattle.machine.specs.Formed.{well_formed};
ghost use Rattle.machine.specs.Fresh.{machine_of};
ghost use Rattle.run_order.specs.Ending.{told_ending};
ghost use Rattle.image_layout.specs.Image.{image_size};
ghost use Rattle.whole_machine.specs.Ran.{ran_summary};
ghost use Rattle.program_report.specs.Lines.{end_line};
ghost use Rattle.program_resume.specs.Told.{image_bytes, six_lines, call_refused, told_of};
ghost use Rattle.program_resume.specs.Resume.{resume_room};

use bits::put::put_all;
use image_layout::IMAGE_BYTES;
use machine::fresh::WholeMachine;
use program_records::counts::Counts;
use program_report::{Report, put_end_line, put_number_line, put_run_lines};
use run_order::ending::Ending;
use whole_machine::images::save_whole;
use whole_machine::runs::WholeRan;

// The image of a well-formed machine. Internal: there is room.
fn put_image(out: &mut [u8], at: usize, m: &WholeMachine) -> usize
    requires { (well_formed (machine_of m.now) ≡ true) × (at + image_size ≤ length out.old) }
    ensures { Wrote out.old at (image_bytes (machine_of m.now)) out.new result }
{
    let _ = save_whole(m, &mut out[at..]);
    at + IMAGE_BYTES
}

// The six lines of a run, and the image after it. Internal: the machine is well formed, and there is room.
fn put_ran(out: &mut [u8], ran: WholeRan, counts: Counts, m: &WholeMachine) -> usize
    requires { (well_formed (machine_of m.now) ≡ true) × (resume_room ≤ length out.old) }
    ensures { Wrote out.old 0 (six_lines (ran_summary ran (machine_of m.now)) counts ++ image_bytes (machine_of m.now)) out.new result }
{
    let report = Report {
        ending: ran.answer,
        turns: ran.turns,
        cursor: ran.cursor,
        stalls: ran.stalls,
        n0: counts.n0,
        n1: counts.n1,
        n2: counts.n2,
    };
    let p = put_run_lines(out, 0, report);
    let q = put_number_line(out, p, b"next ", ran.cursor.next as usize);
    put_image(out, q, m)
}

// `rejected N`, and the image as it came. Internal: there is room.
fn put_rejected(out: &mut [u8], answer: Ending, came: &[u8]) -> usize
    requires { 80 + length came.now ≤ length out.old }
    ensures { Wrote out.old 0 (end_line (told_ending answer) ++ came.now) out.new result }
{
    let p = put_end_line(out, 0, answer);
    put_all(out, p, came)
}

// Whether the call was refused.
fn call_refused(e: Ending) -> bool
    ensures { result ≡ call_refused (told_ending e) }
{
    matches!(e, Ending::CallRefused(_))
}

// What is told of a run. Internal: the machine is well formed, and there is room.
#[tactic(auto, unfolding(crate::specs::Told::told_of))]
pub fn put_told(
    out: &mut [u8],
    came: &[u8],
    ran: WholeRan,
    counts: Counts,
    m: &WholeMachine,
) -> usize
    requires { (well_formed (machine_of m.now) ≡ true) × (resume_room ≤ length out.old) × (length came.now ≤ image_size) }
    ensures { Wrote out.old 0 (told_of came.now (ran_summary ran (machine_of m.now)) counts) out.new result }
{
    if call_refused(ran.answer) {
        put_rejected(out, ran.answer, came)
    } else {
        put_ran(out, ran, counts, m)
    }
}
