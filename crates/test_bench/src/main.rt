// Calls the bench on the cases of standard input and writes a line for each: the answer, and a checksum of all that was lent to
// be written. oracle/cases/cases_bench.py makes the cases and the lines that are expected.
#![tactic(auto)]

mod calls;
mod case;
mod lengths;
mod print;
mod stores;

use crate::stores::Stores;
use program_io::read_full;
use std::io;

// Reads one case and makes its call, and answers whether there was one.
fn one_case(rt: &HostRuntime, stores: &mut Stores) -> io::Result<bool> {
    let mut record = [0u8; case::BYTES];
    let got = read_full(&mut rt.stdin(), &mut record)?;
    if got < case::BYTES {
        return Ok(false);
    }
    let case = case::read(&record);
    calls::set_flags(&mut stores.config, case.left, case.right);
    match case.call {
        0 => calls::refill(rt, case, stores)?,
        1 => calls::read_gpr(rt, case, stores)?,
        2 => calls::write_gpr(rt, case, stores)?,
        3 => calls::read_row16(rt, case, stores)?,
        4 => calls::write_row16(rt, case, stores)?,
        5 => calls::read_row32(rt, case, stores)?,
        6 => calls::write_row32(rt, case, stores)?,
        7 => calls::write_source_row(rt, case, stores)?,
        _ => calls::show_row(rt, case, stores)?,
    }
    Ok(true)
}

fn main(rt: HostRuntime) -> io::Result<()> {
    let mut stores = stores::empty();
    // no input has so many cases
    for _ in 0..u64::MAX {
        if !one_case(&rt, &mut stores)? {
            break;
        }
    }
    Ok(())
}
