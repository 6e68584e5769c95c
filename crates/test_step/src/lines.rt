// The printed lines.
use machine::refusal::Outcome;
use std::io;

fn write_number(rt: &HostRuntime, start: &[u8], n: u32) -> io::Result<()> {
    rt.write_all(start)?;
    rt.print(n as u64)
}

fn write_outcome(rt: &HostRuntime, o: Outcome) -> io::Result<()> {
    match o {
        Outcome::Idle => rt.write_all(b"i"),
        Outcome::Passed => rt.write_all(b"p"),
        Outcome::Stalled(s) => {
            write_number(rt, b"s ", s.number())?;
            write_number(rt, b" ", s.cause())
        }
        Outcome::Refused(r) => write_number(rt, b"r ", r.into()),
    }
}

// `p DIGEST`, `s NUMBER CAUSE DIGEST` or `r NUMBER DIGEST`.
pub(crate) fn write_line(rt: &HostRuntime, o: Outcome, digest: u32) -> io::Result<()> {
    write_outcome(rt, o)?;
    write_number(rt, b" ", digest)?;
    rt.write_all(b"\n")
}
