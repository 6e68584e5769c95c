// A line: the answer and a checksum.
use machine::refusal::Refusal;
use std::io;

fn print_number(rt: &HostRuntime, n: u32) -> io::Result<()> {
    rt.write_all(b" ")?;
    rt.print(n as u64)
}

fn print_end(rt: &HostRuntime) -> io::Result<()> {
    rt.write_all(b"\n")
}

fn print_refused(rt: &HostRuntime, r: Refusal) -> io::Result<()> {
    rt.write_all(b"refused")?;
    print_number(rt, u32::from(r))
}

pub(crate) fn print_filled(rt: &HostRuntime, sum: u32) -> io::Result<()> {
    rt.write_all(b"filled")?;
    print_number(rt, sum)?;
    print_end(rt)
}

pub(crate) fn print_read(rt: &HostRuntime, answer: Result<u32, Refusal>) -> io::Result<()> {
    match answer {
        Ok(v) => {
            rt.write_all(b"value")?;
            print_number(rt, v)?;
        }
        Err(r) => print_refused(rt, r)?,
    }
    print_end(rt)
}

pub(crate) fn print_access(
    rt: &HostRuntime,
    answer: Result<(), Refusal>,
    sum: u32,
) -> io::Result<()> {
    match answer {
        Ok(()) => rt.write_all(b"done")?,
        Err(r) => print_refused(rt, r)?,
    }
    print_number(rt, sum)?;
    print_end(rt)
}

pub(crate) fn print_shown(rt: &HostRuntime, cells: usize, sum: u32) -> io::Result<()> {
    rt.write_all(b"shown ")?;
    rt.print(cells as u64)?;
    print_number(rt, sum)?;
    print_end(rt)
}
