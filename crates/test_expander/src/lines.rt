// What is printed of an answer and of what is carried, and its checksum.
use expander_rules::{Carried, Expanded, Load};
use machine::refusal::Refusal;
use std::io;
use test_machines::sums;
use test_machines::sums::Sums;

pub(crate) fn print_number(rt: &HostRuntime, n: u64) -> io::Result<()> {
    rt.write_all(b" ")?;
    rt.print(n)
}

// A load's kind (0 for none), the next slot, the words to come, and whether they are shown.
fn numbers_of(load: Option<Load>) -> [u32; 4] {
    match load {
        None => [0; 4],
        Some(load) => [1, load.next, load.left, load.shown as u32],
    }
}

// The high mask, the slots' checksum, and the load.
pub(crate) fn print_carried(rt: &HostRuntime, carried: Carried) -> io::Result<()> {
    let sum = sums::add_words(sums::start(), &carried.slots);
    print_number(rt, carried.high_mask as u64)?;
    print_number(rt, sums::checksum(sum) as u64)?;
    for n in numbers_of(carried.load) {
        print_number(rt, n as u64)?;
    }
    Ok(())
}

// What is carried, added to a checksum.
fn add_carried(sum: Sums, carried: Carried) -> Sums {
    let mask = sums::add_word(sum, carried.high_mask as u32);
    let slots = sums::add_words(mask, &carried.slots);
    sums::add_words(slots, &numbers_of(carried.load))
}

// The same of a call's answer, and of what it carries on.
pub(crate) fn add_call(sum: Sums, r: Expanded) -> Sums {
    let answered = match r.answer {
        Ok(n) => sums::add_words(sum, &[0, (n % 4294967296) as u32]),
        Err(why) => sums::add_words(sum, &[1, u32::from(why)]),
    };
    add_carried(answered, r.carried)
}

fn print_refusal(rt: &HostRuntime, why: Refusal) -> io::Result<()> {
    rt.write_all(b"refused")?;
    print_number(rt, u32::from(why) as u64)
}

pub(crate) fn print_call(rt: &HostRuntime, r: Expanded) -> io::Result<()> {
    match r.answer {
        Ok(n) => {
            rt.write_all(b"done")?;
            print_number(rt, n as u64)?;
        }
        Err(why) => print_refusal(rt, why)?,
    }
    print_carried(rt, r.carried)
}

// The output's checksum, what a close gives, and the line's end.
pub(crate) fn print_end(rt: &HostRuntime, carried: Carried, out: &[u32]) -> io::Result<()> {
    let sum = sums::add_words(sums::start(), out);
    print_number(rt, sums::checksum(sum) as u64)?;
    rt.write_all(b" ")?;
    let r = expander::close(carried);
    match r.answer {
        Ok(_) => rt.write_all(b"closed")?,
        Err(why) => print_refusal(rt, why)?,
    }
    print_carried(rt, r.carried)?;
    rt.write_all(b"\n")
}
