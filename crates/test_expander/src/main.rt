// Runs the expander on the cases of standard input and writes a line for each: the answer of one call, or what its pieces came to; the
// high mask carried on, the slots' checksum and the load; the checksum of the whole output; and what a close then gives. Before them
// it writes what a fresh expander carries. oracle/cases/cases_expander.py makes the cases and the lines that are expected.
#![tactic(auto)]

mod case;
mod draws;
mod lines;
mod pieces;

use case::Case;
use draws::Replays;
use expander_rules::Carried;
use expander_rules::sizes::SLOTS;
use pieces::Fed;
use program_io::read_full;
use std::io;
use test_machines::sums;

// The nine words: m0 and m1 are the case's, and some of the others become REPLAYs.
fn make_nine(nine: &mut [u32], m0: u32, m1: u32, replays: Replays, state: u32) -> u32 {
    let x = draws::fill(nine, state);
    case::set_counts(nine, m0, m1);
    if nine.len() < 2 {
        return x;
    }
    draws::put_replays(&mut nine[2..], replays, x)
}

// The slots, and the state after their draws.
#[derive(Clone, Copy)]
struct Slots {
    slots: [u32; SLOTS],
    state: u32,
}

fn make_slots(replays: Replays, state: u32) -> Slots {
    let mut slots = [0u32; SLOTS];
    let x = draws::fill(&mut slots, state);
    let y = draws::put_replays(&mut slots, replays, x);
    Slots { slots, state: y }
}

fn run_call(
    rt: &HostRuntime,
    nine: &[u32],
    carried: Carried,
    stream: &[u32],
    out: &mut [u32],
) -> io::Result<()> {
    let r = expander::expand(nine, carried, stream, out);
    lines::print_call(rt, r)?;
    lines::print_end(rt, r.carried, out)
}

fn print_pieces(rt: &HostRuntime, fed: Fed, out: &[u32]) -> io::Result<()> {
    rt.write_all(b"pieces")?;
    lines::print_number(rt, fed.taken as u64)?;
    lines::print_number(rt, fed.at as u64)?;
    lines::print_number(rt, sums::checksum(fed.sum) as u64)?;
    lines::print_carried(rt, fed.carried)?;
    lines::print_end(rt, fed.carried, out)
}

// Below 65,536 `cuts` asks for a cut at each place; else it is the seed of the pieces' lengths, and its low half their span.
fn run_pieces(
    rt: &HostRuntime,
    nine: &[u32],
    carried: Carried,
    stream: &[u32],
    cuts: u32,
    out: &mut [u32],
) -> io::Result<()> {
    if cuts < 65536 {
        let fed = pieces::feed_places(nine, carried, stream, out);
        print_pieces(rt, fed, out)
    } else {
        let fed = pieces::feed_drawn(nine, carried, stream, cuts, out);
        print_pieces(rt, fed, out)
    }
}

// The nine words, the stream and the output are what the case makes of the three slices.
fn run_case(
    rt: &HostRuntime,
    case: Case,
    nine: &mut [u32],
    stream: &mut [u32],
    out: &mut [u32],
) -> io::Result<()> {
    let a = make_nine(nine, case.m0, case.m1, case.in_nine, case.seed);
    let made = make_slots(case.in_slots, a);
    let slots = made.slots;
    let b = draws::make_stream(stream, case.mix, made.state);
    draws::fill(out, b);
    let carried = Carried {
        high_mask: case.high,
        slots,
        load: case.load,
    };
    if case.pieces == 0 {
        run_call(rt, nine, carried, stream, out)
    } else {
        run_pieces(rt, nine, carried, stream, case.pieces, out)
    }
}

// Reads one case and runs it, and answers whether there was one that fits.
fn one_case(
    rt: &HostRuntime,
    nine: &mut [u32],
    stream: &mut [u32],
    out: &mut [u32],
) -> io::Result<bool> {
    let mut record = [0u8; case::BYTES];
    if read_full(&mut rt.stdin(), &mut record)? < case::BYTES {
        return Ok(false);
    }
    let case = case::read_case(&record);
    if nine.len() < case.nine_words || stream.len() < case.stream_words || out.len() < case.room {
        return Ok(false);
    }
    run_case(
        rt,
        case,
        &mut nine[..case.nine_words],
        &mut stream[..case.stream_words],
        &mut out[..case.room],
    )?;
    Ok(true)
}

// No run uses the turns up: they are what a proved loop counts down.
fn all_cases(
    rt: &HostRuntime,
    nine: &mut [u32],
    stream: &mut [u32],
    out: &mut [u32],
) -> io::Result<()> {
    for _ in 0..u32::MAX {
        if !one_case(rt, nine, stream, out)? {
            break;
        }
    }
    Ok(())
}

fn print_fresh(rt: &HostRuntime, carried: Carried) -> io::Result<()> {
    rt.write_all(b"fresh")?;
    lines::print_carried(rt, carried)?;
    rt.write_all(b"\n")
}

fn main(rt: HostRuntime) -> io::Result<()> {
    print_fresh(&rt, expander::fresh_carried())?;
    let mut nine = [0u32; 16];
    let mut stream = [0u32; 65600];
    let mut out = [0u32; 65600];
    all_cases(&rt, &mut nine, &mut stream, &mut out)
}
