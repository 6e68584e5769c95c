// A group's machine, and its cases one after the other.
ghost use Rattle.std.specs.Prelude.{◌+◌, ◌≤◌, ◌<◌, length, IfOk};
ghost use Rattle.test_machines.specs.Made.{made_bytes};

use crate::input::{HEADER_BYTES, cases_end};
use crate::lines::write_line;
use format::number::read;
use std::io;
use test_machines::lengths::lent_lengths;
use test_machines::made::{MADE_BYTES, Made, read_made};
use test_machines::parts::{digest_parts, make};

// The cases, each on the machine that the one before it left, lent at its lengths. The digest is of all that there is of each part.
fn run_cases(rt: &HostRuntime, cases: &[u8], m: Made) -> io::Result<()> {
    let n = lent_lengths(m);
    let mut p = make(m);
    for case in cases.chunks_exact(8) {
        let done = step::step(
            p.control,
            &mut p.settings[..n.settings],
            &mut p.gprs[..n.gprs],
            &mut p.config[..n.config],
            &p.dest[..n.dest],
            &mut p.marks[..n.marks],
            &mut p.src_a[..n.src_a],
            &mut p.src_b[..n.src_b],
            read::<4>(case, 0),
            read::<4>(case, 4),
        );
        p.control = done.control;
        write_line(rt, done.outcome, digest_parts(p))?;
    }
    Ok(())
}

// The group that starts at `at`; answers where the next one starts.
pub(crate) fn run_group(rt: &HostRuntime, input: &[u8], at: usize) -> io::Result<usize>
    requires { at + made_bytes + 4 ≤ length input.now }
    ensures { IfOk result (λ end. (at < end) × (end ≤ length input.now)) }
{
    let m = read_made(input, at);
    let count = read::<4>(input, at + MADE_BYTES);
    let from = at + HEADER_BYTES;
    let end = cases_end(from, count, input.len());
    run_cases(rt, &input[from..end], m)?;
    Ok(end)
}
