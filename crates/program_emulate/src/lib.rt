// The program `emulate`, from its input's bytes to its output's.
#![tactic(auto)]

ghost use Rattle.std.specs.Prelude.{◌≡◌, ◌≤◌, length, Ok};
ghost use Rattle.bits.specs.Overwrite.{Wrote};
ghost use Rattle.program_records.specs.Counts.{streams_of};
ghost use Rattle.program_records.specs.Script.{script_of};
ghost use Rattle.program_report.specs.Lines.{lines_room};
ghost use Rattle.program_emulate.specs.Emulation.{fresh_run, lines_of, emulation_of, LongScripts};

use machine::fresh::fresh;
use program_records::script::{SCRIPT_BYTES, SCRIPT_WORDS, Script, read_script};
use program_records::words::read_streams;
use program_report::{Report, put_number_line, put_run_lines};
use run_order::cursor::{Cursor, StreamsView};
use whole_machine::runs::run_whole;

// The bytes of the longest sound input, and one more, by which a longer one is known.
pub const EMULATE_READS: usize = SCRIPT_BYTES + 1;

// All positions at the start, thread 0 next.
const START: Cursor = Cursor {
    at0: 0,
    at1: 0,
    at2: 0,
    next: 0,
};

// The lines of a sound input. Internal: the script is the input's, and there is room.
#[tactic(auto, using(program_records::proofs::Sound::sound_facts))]
fn run_script(input: &[u8], script: Script, out: &mut [u8]) -> usize
    requires { (script_of input.now ≡ Ok script) × (lines_room ≤ length out.old) }
    ensures wrote { Wrote out.old 0 (lines_of (fresh_run (streams_of input.now script.counts) script.budget) script.counts) out.new result }
    ensures short { result ≤ lines_room }
{
    let n = script.counts;
    let mut s0 = [0u32; SCRIPT_WORDS];
    let mut s1 = [0u32; SCRIPT_WORDS];
    let mut s2 = [0u32; SCRIPT_WORDS];
    read_streams(input, n, &mut s0, &mut s1, &mut s2);
    let streams = StreamsView {
        s0: &s0[..n.n0],
        s1: &s1[..n.n1],
        s2: &s2[..n.n2],
    };
    let ran = run_whole(&mut fresh(), streams, START, script.budget);
    put_run_lines(
        out,
        0,
        Report {
            ending: ran.answer,
            turns: ran.turns,
            cursor: ran.cursor,
            stalls: ran.stalls,
            n0: n.n0,
            n1: n.n1,
            n2: n.n2,
        },
    )
}

// Everything that the program prints for an input. Internal: there is room.
#[tactic(auto, unfolding(crate::specs::Emulation::emulation_of))]
pub fn emulate(input: &[u8], out: &mut [u8]) -> usize
    requires { lines_room ≤ length out.old }
    ensures wrote { Wrote out.old 0 (emulation_of input.now) out.new result }
    ensures short { result ≤ lines_room }
{
    match read_script(input) {
        Err(bad) => put_number_line(out, 0, b"bad record at ", bad.at),
        Ok(script) => run_script(input, script, out),
    }
}

// What holds of every input: none is too long.
pub fn promises()
    ensures long { LongScripts }
{}
