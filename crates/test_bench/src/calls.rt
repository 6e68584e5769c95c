// The calls, one function each: what a case lends, the call, and its line.
use crate::case::Case;
use crate::lengths::lent;
use crate::print;
use crate::stores::Stores;
use machine::control::Control;
use machine::refusal::Refusal;
use machine::sizes::{BANK_WORDS, CELL_MOST, CONFIG_WORDS, ROW_CELLS};
use std::io;
use test_machines::controls::draw_control;
use test_machines::fills::{fill_halves, fill_marks, fill_words};
use test_machines::number::set_number;
use test_machines::sums;

// The line of the stores, with a checksum of them all.
fn print_stores(rt: &HostRuntime, stores: &Stores) -> io::Result<()> {
    let words = sums::add_words(sums::start(), &stores.gprs);
    let rows = sums::add_marks(sums::add_halves(words, &stores.dest), &stores.marks);
    let all = sums::add_words(sums::add_words(rows, &stores.src_a), &stores.src_b);
    print::print_filled(rt, sums::checksum(all))
}

// The stores from the seed.
pub(crate) fn refill(rt: &HostRuntime, case: Case, stores: &mut Stores) -> io::Result<()> {
    let one = fill_words(case.seed, u32::MAX, &mut stores.gprs);
    let two = fill_halves(one, &mut stores.dest);
    let three = fill_marks(two, &mut stores.marks);
    let four = fill_words(three, CELL_MOST, &mut stores.src_a);
    fill_words(four, CELL_MOST, &mut stores.src_b);
    print_stores(rt, stores)
}

pub(crate) fn read_gpr(rt: &HostRuntime, case: Case, stores: &Stores) -> io::Result<()> {
    let n = lent(stores.gprs.len(), case.lengths, 0);
    let answer = bench_gprs::read_gpr(&stores.gprs[..n], case.first, case.second);
    print::print_read(rt, answer)
}

pub(crate) fn write_gpr(rt: &HostRuntime, case: Case, stores: &mut Stores) -> io::Result<()> {
    let n = lent(stores.gprs.len(), case.lengths, 0);
    let answer = bench_gprs::write_gpr(&mut stores.gprs[..n], case.first, case.second, case.third);
    let sum = sums::add_words(sums::start(), &stores.gprs);
    print::print_access(rt, answer, sums::checksum(sum))
}

// The flag words of both banks.
pub(crate) fn set_flags(config: &mut [u32], left: u32, right: u32) {
    if CONFIG_WORDS <= config.len() {
        config[BANK_WORDS - 1] = left;
        config[CONFIG_WORDS - 1] = right;
    }
}

// The line of a call that reads a row.
fn print_row16(
    rt: &HostRuntime,
    answer: Result<(), Refusal>,
    out: &[u16; ROW_CELLS + 1],
) -> io::Result<()> {
    let sum = sums::add_halves(sums::start(), out);
    print::print_access(rt, answer, sums::checksum(sum))
}

pub(crate) fn read_row16(rt: &HostRuntime, case: Case, stores: &Stores) -> io::Result<()> {
    let mut out = [0u16; ROW_CELLS + 1];
    fill_halves(case.seed, &mut out);
    let c = lent(stores.config.len(), case.lengths, 0);
    let d = lent(stores.dest.len(), case.lengths, 2);
    let m = lent(stores.marks.len(), case.lengths, 4);
    let n = lent(ROW_CELLS + 1, case.lengths, 6);
    let answer = bench_dest::read_row16(
        &stores.config[..c],
        &stores.dest[..d],
        &stores.marks[..m],
        case.first,
        case.second,
        &mut out[..n],
    );
    print_row16(rt, answer, &out)
}

// The line of a call that reads a row.
fn print_row32(
    rt: &HostRuntime,
    answer: Result<(), Refusal>,
    out: &[u32; ROW_CELLS + 1],
) -> io::Result<()> {
    let sum = sums::add_words(sums::start(), out);
    print::print_access(rt, answer, sums::checksum(sum))
}

pub(crate) fn read_row32(rt: &HostRuntime, case: Case, stores: &Stores) -> io::Result<()> {
    let mut out = [0u32; ROW_CELLS + 1];
    fill_words(case.seed, u32::MAX, &mut out);
    let c = lent(stores.config.len(), case.lengths, 0);
    let d = lent(stores.dest.len(), case.lengths, 2);
    let m = lent(stores.marks.len(), case.lengths, 4);
    let n = lent(ROW_CELLS + 1, case.lengths, 6);
    let answer = bench_dest::read_row32(
        &stores.config[..c],
        &stores.dest[..d],
        &stores.marks[..m],
        case.first,
        case.second,
        &mut out[..n],
    );
    print_row32(rt, answer, &out)
}

// The line of a call that writes Dest.
fn print_dest(rt: &HostRuntime, answer: Result<(), Refusal>, stores: &Stores) -> io::Result<()> {
    let sum = sums::add_marks(sums::add_halves(sums::start(), &stores.dest), &stores.marks);
    print::print_access(rt, answer, sums::checksum(sum))
}

pub(crate) fn write_row16(rt: &HostRuntime, case: Case, stores: &mut Stores) -> io::Result<()> {
    let mut cells = [0u16; ROW_CELLS + 1];
    fill_halves(case.seed, &mut cells);
    let c = lent(stores.config.len(), case.lengths, 0);
    let d = lent(stores.dest.len(), case.lengths, 2);
    let m = lent(stores.marks.len(), case.lengths, 4);
    let n = lent(ROW_CELLS + 1, case.lengths, 6);
    let dest = &mut stores.dest[..];
    let marks = &mut stores.marks[..];
    let answer = bench_dest::write_row16(
        &stores.config[..c],
        &mut dest[..d],
        &mut marks[..m],
        case.first,
        case.second,
        &cells[..n],
    );
    print_dest(rt, answer, stores)
}

pub(crate) fn write_row32(rt: &HostRuntime, case: Case, stores: &mut Stores) -> io::Result<()> {
    let mut cells = [0u32; ROW_CELLS + 1];
    fill_words(case.seed, u32::MAX, &mut cells);
    let c = lent(stores.config.len(), case.lengths, 0);
    let d = lent(stores.dest.len(), case.lengths, 2);
    let m = lent(stores.marks.len(), case.lengths, 4);
    let n = lent(ROW_CELLS + 1, case.lengths, 6);
    let dest = &mut stores.dest[..];
    let marks = &mut stores.marks[..];
    let answer = bench_dest::write_row32(
        &stores.config[..c],
        &mut dest[..d],
        &mut marks[..m],
        case.first,
        case.second,
        &cells[..n],
    );
    print_dest(rt, answer, stores)
}

// Puts a number at a place, if there is one, and answers what stood there.
fn put_at(cells: &mut [u32], place: u32, value: u32) -> u32 {
    let at = place as usize;
    if at < cells.len() {
        let old = cells[at];
        cells[at] = value;
        return old;
    }
    0
}

fn ask_source(
    case: Case,
    control: Control,
    stores: &mut Stores,
    cells: &[u32],
) -> Result<(), Refusal> {
    let a = lent(stores.src_a.len(), case.lengths, 0);
    let b = lent(stores.src_b.len(), case.lengths, 2);
    let n = lent(cells.len(), case.lengths, 4);
    let src_a = &mut stores.src_a[..];
    let src_b = &mut stores.src_b[..];
    bench_sources::write_source_row(
        control,
        &mut src_a[..a],
        &mut src_b[..b],
        case.first,
        case.second,
        &cells[..n],
    )
}

// The call on cells of which one may be out of range.
fn ask_source_row(case: Case, stores: &mut Stores) -> Result<(), Refusal> {
    let mut cells = [0u32; ROW_CELLS + 1];
    fill_words(case.seed, CELL_MOST, &mut cells);
    put_at(&mut cells, case.right % 256, case.third);
    let drawn = draw_control(case.left);
    let control = set_number(drawn.control, case.number);
    ask_source(case, control, stores, &cells)
}

// The line of a call that writes the source files.
fn print_sources(rt: &HostRuntime, answer: Result<(), Refusal>, stores: &Stores) -> io::Result<()> {
    let sum = sums::add_words(sums::start(), &stores.src_a);
    print::print_access(
        rt,
        answer,
        sums::checksum(sums::add_words(sum, &stores.src_b)),
    )
}

// A number out of range stands in each store during the call, if the case says where.
pub(crate) fn write_source_row(
    rt: &HostRuntime,
    case: Case,
    stores: &mut Stores,
) -> io::Result<()> {
    let in_a = case.right / 256 % 4096;
    let in_b = case.right / 1048576;
    let old_a = put_at(&mut stores.src_a, in_a, case.third);
    let old_b = put_at(&mut stores.src_b, in_b, case.third);
    let answer = ask_source_row(case, stores);
    print_sources(rt, answer, stores)?;
    put_at(&mut stores.src_a, in_a, old_a);
    put_at(&mut stores.src_b, in_b, old_b);
    Ok(())
}

pub(crate) fn show_row(rt: &HostRuntime, case: Case, stores: &Stores) -> io::Result<()> {
    let a = lent(stores.src_a.len(), case.lengths, 0);
    let b = lent(stores.src_b.len(), case.lengths, 2);
    let shown = bench_sources::show_row(
        &stores.src_a[..a],
        &stores.src_b[..b],
        case.first,
        case.second,
        case.third,
    );
    let sum = sums::add_words(sums::start(), shown);
    print::print_shown(rt, shown.len(), sums::checksum(sum))
}
