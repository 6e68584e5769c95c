// The records of one size: the budget (35) and the cursor (36).
ghost use Rattle.std.specs.Prelude.{◌≡◌, ◌≤◌, drop};
ghost use Rattle.format.specs.Places.{place_most};
ghost use Rattle.program_records.specs.Fixed.{budget_record_of, cursor_record_of};

use crate::head::{BUDGET, CURSOR, has_body};
use format::HEAD_BYTES;
use format::number::read;
use run_order::cursor::Cursor;

// A record's size: its head and body.
pub(crate) const BUDGET_BYTES: usize = HEAD_BYTES + 4;

pub(crate) const CURSOR_BYTES: usize = HEAD_BYTES + 16;

// The record of the budget, at most `most`, at a place. Internal, as body_at.
#[tactic(auto, using(crate::proofs::OneSize::budget_is))]
pub(crate) fn budget_record(s: &[u8], at: usize, most: u32) -> Option<u32>
    requires { at ≤ place_most }
    ensures { result ≡ budget_record_of most (drop at s.now) }
{
    if !has_body(s, at, BUDGET, 4) {
        return None;
    }
    let budget = read::<4>(s, at + HEAD_BYTES);
    if budget > most {
        return None;
    }
    Some(budget)
}

// The record of the cursor at a place: any numbers. Internal, as body_at.
#[tactic(auto, using(crate::proofs::OneSize::cursor_is))]
pub(crate) fn cursor_record(s: &[u8], at: usize) -> Option<Cursor>
    requires { at ≤ place_most }
    ensures { result ≡ cursor_record_of (drop at s.now) }
{
    if !has_body(s, at, CURSOR, 16) {
        return None;
    }
    let body = at + HEAD_BYTES;
    Some(Cursor {
        at0: read::<4>(s, body) as usize,
        at1: read::<4>(s, body + 4) as usize,
        at2: read::<4>(s, body + 8) as usize,
        next: read::<4>(s, body + 12),
    })
}
