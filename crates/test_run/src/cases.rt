// A case: its machine, its run, and its line.
ghost use Rattle.std.specs.Prelude.{◌+◌, ◌≤◌, ◌<◌, length, IfOk};
ghost use Rattle.test_machines.specs.Made.{made_bytes};

use crate::input::{CASE_BYTES, cursor_at, take_stream, word_at};
use crate::lines::write_line;
use run_order::cursor::{Cursor, StreamsView};
use std::io;
use test_machines::lengths::lent_lengths;
use test_machines::made::{MADE_BYTES, Made, read_made};
use test_machines::parts::{digest_parts, make};

// What a case says beside its streams: how the machine is made and lent, the budget, the cursor.
#[derive(Clone, Copy)]
struct Case {
    made: Made,
    budget: u32,
    cursor: Cursor,
}

// The run on the machine of the case, lent at its lengths, and the line. The digest is of all that there is of each part.
fn run_made(rt: &HostRuntime, case: Case, streams: StreamsView<'_>) -> io::Result<()> {
    let n = lent_lengths(case.made);
    let mut p = make(case.made);
    let ran = run::run(
        p.control,
        &mut p.settings[..n.settings],
        &mut p.gprs[..n.gprs],
        &mut p.config[..n.config],
        &p.dest[..n.dest],
        &mut p.marks[..n.marks],
        &mut p.src_a[..n.src_a],
        &mut p.src_b[..n.src_b],
        streams,
        case.cursor,
        case.budget,
    );
    p.control = ran.control;
    write_line(rt, ran, digest_parts(p))
}

// What a case at `at` says beside its streams. Internal: it is there.
fn case_at(input: &[u8], at: usize) -> Case
    requires { at + made_bytes + 20 ≤ length input.now }
{
    Case {
        made: read_made(input, at),
        budget: word_at(input, at + MADE_BYTES),
        cursor: cursor_at(input, at + MADE_BYTES + 4),
    }
}

// The case that starts at `at`; answers where the next one starts. Internal: it is there up to its streams.
pub(crate) fn run_case(
    rt: &HostRuntime,
    input: &[u8],
    at: usize,
    s0: &mut [u32],
    s1: &mut [u32],
    s2: &mut [u32],
) -> io::Result<usize>
    requires { at + made_bytes + 20 ≤ length input.now }
    ensures { IfOk result (λ end. (at < end) × (end ≤ length input.now)) }
{
    let case = case_at(input, at);
    let t0 = take_stream(input, at + CASE_BYTES, s0);
    let t1 = take_stream(input, t0.end, s1);
    let t2 = take_stream(input, t1.end, s2);
    let streams = StreamsView {
        s0: &s0[..t0.words],
        s1: &s1[..t1.words],
        s2: &s2[..t2.words],
    };
    run_made(rt, case, streams)?;
    Ok(t2.end)
}
