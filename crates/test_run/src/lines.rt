// The printed lines.
use machine::refusal::StallCause;
use run::Ran;
use run_order::cursor::Cursor;
use run_order::ending::Ending;
use run_order::stalls::LastStalls;
use std::io;

fn write_text(rt: &HostRuntime, words: &[u8]) -> io::Result<()> {
    rt.write_all(words)
}

fn write_number(rt: &HostRuntime, start: &[u8], n: u64) -> io::Result<()> {
    write_text(rt, start)?;
    rt.print(n)
}

fn write_ending(rt: &HostRuntime, e: Ending) -> io::Result<()> {
    match e {
        Ending::Finished => write_text(rt, b"finished"),
        Ending::Stuck => write_text(rt, b"stuck"),
        Ending::BudgetUsed => write_text(rt, b"budget"),
        Ending::WordRefused(r) => write_number(rt, b"refused ", u32::from(r) as u64),
        Ending::CallRefused(r) => write_number(rt, b"rejected ", u32::from(r) as u64),
    }
}

fn write_cursor(rt: &HostRuntime, c: Cursor) -> io::Result<()> {
    write_number(rt, b" at ", c.at0 as u64)?;
    write_number(rt, b" ", c.at1 as u64)?;
    write_number(rt, b" ", c.at2 as u64)?;
    write_number(rt, b" next ", c.next as u64)
}

// `-` for none.
fn write_stall(rt: &HostRuntime, x: Option<StallCause>) -> io::Result<()> {
    match x {
        None => write_text(rt, b" -"),
        Some(s) => {
            write_number(rt, b" ", s.number() as u64)?;
            write_number(rt, b":", s.cause() as u64)
        }
    }
}

fn write_stalls(rt: &HostRuntime, l: LastStalls) -> io::Result<()> {
    write_text(rt, b" stalls")?;
    write_stall(rt, l.t0)?;
    write_stall(rt, l.t1)?;
    write_stall(rt, l.t2)
}

// `END turns N at N N N next N stalls S S S machine D`.
pub(crate) fn write_line(rt: &HostRuntime, ran: Ran, digest: u32) -> io::Result<()> {
    write_ending(rt, ran.answer)?;
    write_number(rt, b" turns ", ran.turns as u64)?;
    write_cursor(rt, ran.cursor)?;
    write_stalls(rt, ran.stalls)?;
    write_number(rt, b" machine ", digest as u64)?;
    write_text(rt, b"\n")
}
