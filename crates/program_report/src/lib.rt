// The lines that the programs print, made in a lent buffer. Each function answers where the next byte goes.
// All are internal: there is room (no line is over 100 bytes).
// Buffer and place stand side by side, as in `bits::put` and `text`, on which they stand: a struct of the two would be opened at each call
// of those, which is no plainer.
#![tactic(auto)]

ghost use Rattle.std.specs.Prelude.{◌≡◌, ◌+◌, ◌≤◌, length};
ghost use Rattle.bits.specs.Overwrite.{Wrote};
ghost use Rattle.run_order.specs.Ending.{told_ending};
ghost use Rattle.run_order.specs.Stalls.{told_stall, told_stalls};
ghost use Rattle.program_report.specs.Lines.{number_line, word_line, end_line, stalls_told, waits_of, thread_line, thread_lines, run_lines};

use bits::put::{put_all, put_one};
use machine::refusal::StallCause;
use run_order::cursor::Cursor;
use run_order::ending::Ending;
use run_order::stalls::{LastStalls, no_stalls};
use text::put_decimal;

// What is told of a run: its answer, and how many words each thread has.
#[derive(Clone, Copy)]
pub struct Report {
    pub ending: Ending,
    pub turns: u32,
    pub cursor: Cursor,
    pub stalls: LastStalls,
    pub n0: usize,
    pub n1: usize,
    pub n2: usize,
}

// Room for all that a program prints but an image.
pub const LINES_BYTES: usize = 400;

// A text, a number and the line's end.
pub fn put_number_line(out: &mut [u8], at: usize, words: &[u8], n: usize) -> usize
    requires { at + length words.now + 40 ≤ length out.old }
    ensures wrote { Wrote out.old at (number_line words.now n) out.new result }
    ensures short { result ≤ at + length words.now + 21 }
{
    let p = put_all(out, at, words);
    let q = put_decimal(out, p, n);
    put_one(out, q, b'\n')
}

// A word of the first line, between `end ` and the line's end.
fn put_word_line(out: &mut [u8], at: usize, words: &[u8]) -> usize
    requires { at + length words.now + 40 ≤ length out.old }
    ensures wrote { Wrote out.old at (word_line words.now) out.new result }
    ensures short { result ≤ at + length words.now + 5 }
{
    let p = put_all(out, at, b"end ");
    let q = put_all(out, p, words);
    put_one(out, q, b'\n')
}

// How a run ended.
#[tactic(auto, unfolding(crate::specs::Lines::end_line))]
pub fn put_end_line(out: &mut [u8], at: usize, e: Ending) -> usize
    requires { at + 80 ≤ length out.old }
    ensures wrote { Wrote out.old at (end_line (told_ending e)) out.new result }
    ensures short { result ≤ at + 40 }
{
    match e {
        Ending::Finished => put_word_line(out, at, b"finished"),
        Ending::Stuck => put_word_line(out, at, b"stuck"),
        Ending::BudgetUsed => put_word_line(out, at, b"budget"),
        Ending::WordRefused(r) => {
            let p = put_all(out, at, b"end ");
            put_number_line(out, p, b"refused ", u32::from(r) as usize)
        }
        Ending::CallRefused(r) => { put_number_line(out, at, b"rejected ", u32::from(r) as usize) }
    }
}

// Which of the threads' last stalls are told: those of a stuck run.
fn stalls_told(e: Ending, l: LastStalls) -> LastStalls
    ensures { told_stalls result ≡ stalls_told (told_ending e) (told_stalls l) }
{
    if matches!(e, Ending::Stuck) {
        l
    } else {
        no_stalls()
    }
}

// What a thread waits for, where a stall is told.
fn put_waits(out: &mut [u8], at: usize, x: Option<StallCause>) -> usize
    requires { at + 50 ≤ length out.old }
    ensures wrote { Wrote out.old at (waits_of (told_stall x)) out.new result }
    ensures short { result ≤ at + 48 }
{
    match x {
        None => at,
        Some(stall) => {
            let number = stall.number() as usize;
            let cause = stall.cause() as usize;
            let p = put_all(out, at, b" waits ");
            let q = put_decimal(out, p, number);
            let u = put_one(out, q, b' ');
            put_decimal(out, u, cause)
        }
    }
}

// A thread's position, how many words it has, and what it waits for.
fn put_thread_line(
    out: &mut [u8],
    at: usize,
    t: u8,
    position: usize,
    n: usize,
    x: Option<StallCause>,
) -> usize
    requires { (at + 100 ≤ length out.old) × (t ≤ 2) }
    ensures wrote { Wrote out.old at (thread_line t position n (told_stall x)) out.new result }
    ensures short { result ≤ at + 93 }
{
    let p = put_all(out, at, &[b't', b'0' + t, b' ']);
    let q = put_decimal(out, p, position);
    let s = put_one(out, q, b'/');
    let u = put_decimal(out, s, n);
    let v = put_waits(out, u, x);
    put_one(out, v, b'\n')
}

// The three lines of the threads.
fn put_thread_lines(out: &mut [u8], at: usize, r: Report) -> usize
    requires { at + 300 ≤ length out.old }
    ensures wrote { Wrote out.old at (thread_lines r.cursor (stalls_told (told_ending r.ending) (told_stalls r.stalls)) r.n0 r.n1 r.n2) out.new result }
    ensures short { result ≤ at + 280 }
{
    let told = stalls_told(r.ending, r.stalls);
    let p = put_thread_line(out, at, 0, r.cursor.at0, r.n0, told.t0);
    let q = put_thread_line(out, p, 1, r.cursor.at1, r.n1, told.t1);
    put_thread_line(out, q, 2, r.cursor.at2, r.n2, told.t2)
}

// The five lines of a run.
pub fn put_run_lines(out: &mut [u8], at: usize, r: Report) -> usize
    requires { at + 400 ≤ length out.old }
    ensures wrote { Wrote out.old at (run_lines (told_ending r.ending) r.turns r.cursor (told_stalls r.stalls) r.n0 r.n1 r.n2) out.new result }
    ensures short { result ≤ at + 350 }
{
    let p = put_end_line(out, at, r.ending);
    let q = put_number_line(out, p, b"turns ", r.turns as usize);
    put_thread_lines(out, q, r)
}
