// The printed lines.
use machine::refusal::Refusal;
use std::io;
use test_machines::sums;

pub(crate) fn sum_of(bytes: &[u8]) -> u32 {
    sums::checksum(sums::add_bytes(sums::start(), bytes))
}

fn write_number(rt: &HostRuntime, start: &[u8], n: u64) -> io::Result<()> {
    rt.write_all(start)?;
    rt.print(n)
}

fn end_line(rt: &HostRuntime, sum: u32) -> io::Result<()> {
    write_number(rt, b" ", sum as u64)?;
    rt.write_all(b"\n")
}

// `r N SUM`, or `r 9 OFFSET SUM`.
pub(crate) fn write_refused(rt: &HostRuntime, r: Refusal, sum: u32) -> io::Result<()> {
    write_number(rt, b"r ", u32::from(r) as u64)?;
    if let Refusal::BadImage(offset) = r {
        write_number(rt, b" ", offset as u64)?;
    }
    end_line(rt, sum)
}

// `w SUM`, or that it is refused.
pub(crate) fn write_saved(rt: &HostRuntime, s: Result<(), Refusal>, sum: u32) -> io::Result<()> {
    match s {
        Err(r) => write_refused(rt, r, sum),
        Ok(()) => {
            rt.write_all(b"w")?;
            end_line(rt, sum)
        }
    }
}

// `t DIGEST SUM`.
pub(crate) fn write_taken(rt: &HostRuntime, digest: u32, sum: u32) -> io::Result<()> {
    write_number(rt, b"t ", digest as u64)?;
    end_line(rt, sum)
}
