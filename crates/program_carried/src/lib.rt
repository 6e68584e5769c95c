// Record 38, what an expander carries: the high mask, the slots and the load, as bytes.
#![tactic(auto)]

ghost use Rattle.std.specs.Prelude.{◌≡◌, ◌+◌, ◌≤◌, eqb, length, drop};
ghost use Rattle.bits.specs.Overwrite.{Wrote};
ghost use Rattle.program_carried.specs.CarriedFormat.{load_bytes, carried_bytes, record_bytes, load_numbers, load_from, load_format, carried_format, record_format, CarriedRecords};

use expander_rules::sizes::SLOTS;
use expander_rules::{Carried, Load};
use format::HEAD_BYTES;
use format::check::{field, fields, good_across, most_after};
use format::number::{read, write};
use format::run::{read_run, write_head, write_run};

// How many bytes: a load, the slots, the body, and the record with its head.
const LOAD_BYTES: usize = 1 + 4 + 4 + 1;

const SLOT_BYTES: usize = SLOTS * 4;

pub const CARRIED_BYTES: usize = 2 + (SLOT_BYTES + LOAD_BYTES);

pub const RECORD_BYTES: usize = HEAD_BYTES + CARRIED_BYTES;

// The body's length, and the record's kind, as its head has them.
pub const CARRIED_LENGTH: u32 = CARRIED_BYTES as u32;

pub const CARRIED_KIND: u32 = 38;

// Where the slots and the load stand in the body.
const SLOTS_AT: usize = 2;

const LOAD_AT: usize = SLOTS_AT + SLOT_BYTES;

// How far a load is good. Its bytes are there.
fn load_good(s: &[u8], at: usize) -> usize
    requires { (at ≤ 100000) × (at + load_bytes ≤ length s.now) }
    ensures { (result ≡ load_format.good (drop at s.now)) × (result ≤ load_bytes) }
{
    let k = read::<1>(s, at);
    let kind = field::<1>(s, at, 0, 1);
    let next = field::<4>(s, at + 1, 0, most_after(k, u32::MAX));
    let left = field::<4>(s, at + 5, 0, most_after(k, u32::MAX));
    let shown = field::<1>(s, at + 9, 0, most_after(k, 1));
    good_across(kind, 1, good_across(next, 4, good_across(left, 4, shown)))
}

// Internal: whether a body is sound. Its bytes are there.
pub fn is_sound(s: &[u8], at: usize) -> bool
    requires { (at ≤ 1000) × (at + carried_bytes ≤ length s.now) }
    ensures { result ≡ eqb (carried_format.good (drop at s.now)) carried_bytes }
{
    let mask = field::<2>(s, at, 0, 65535);
    let slots = fields::<4>(s, at + SLOTS_AT, SLOTS, u32::MAX);
    let load = load_good(s, at + LOAD_AT);
    good_across(mask, 2, good_across(slots, SLOT_BYTES, load)) == CARRIED_BYTES
}

// The load of four numbers.
#[tactic(auto, unfolding(crate::specs::CarriedFormat::load_from))]
fn load_from(kind: u32, next: u32, left: u32, shown: u32) -> Option<Load>
    ensures { result ≡ load_from (kind, (next, (left, shown))) }
{
    if kind == 0 {
        return None;
    }
    Some(Load {
        next,
        left,
        shown: shown == 1,
    })
}

// The load at a place. Its bytes are there.
fn read_load(s: &[u8], at: usize) -> Option<Load>
    requires { at + load_bytes ≤ length s.now }
    ensures { result ≡ load_format.get (drop at s.now) }
{
    let kind = read::<1>(s, at);
    let next = read::<4>(s, at + 1);
    let left = read::<4>(s, at + 5);
    let shown = read::<1>(s, at + 9);
    load_from(kind, next, left, shown)
}

// Internal: what a body at a place says. Its bytes are there.
pub fn read_carried(s: &[u8], at: usize) -> Carried
    requires { at + carried_bytes ≤ length s.now }
    ensures { result ≡ carried_format.get (drop at s.now) }
{
    let high_mask = read::<2>(s, at) as u16;
    let mut slots = [0u32; SLOTS];
    read_run::<u32, 4>(s, at + SLOTS_AT, &mut slots);
    let load = read_load(s, at + LOAD_AT);
    Carried {
        high_mask,
        slots,
        load,
    }
}

// A load's four numbers. There is room.
fn write_numbers(out: &mut [u8], at: usize, kind: u32, next: u32, left: u32, shown: u32)
    requires { at + load_bytes ≤ length out.old }
    ensures { Wrote out.old at (load_numbers.put (kind, (next, (left, shown)))) out.new (at + load_bytes) }
{
    write::<1>(out, at, kind);
    write::<4>(out, at + 1, next);
    write::<4>(out, at + 5, left);
    write::<1>(out, at + 9, shown);
}

// A load. There is room.
fn write_load(out: &mut [u8], at: usize, load: Option<Load>)
    requires { at + load_bytes ≤ length out.old }
    ensures { Wrote out.old at (load_format.put load) out.new (at + load_bytes) }
{
    match load {
        None => write_numbers(out, at, 0, 0, 0, 0),
        Some(load) => write_numbers(out, at, 1, load.next, load.left, load.shown as u32),
    }
}

// The whole record of what is carried, into as many bytes. There is room.
fn write_carried(out: &mut [u8], carried: Carried)
    requires { length out.old ≡ record_bytes }
    ensures { Wrote out.old 0 (record_format.put carried) out.new record_bytes }
{
    write_head(out, 0, CARRIED_LENGTH, CARRIED_KIND);
    write::<2>(out, HEAD_BYTES, carried.high_mask as u32);
    write_run::<u32, 4>(out, HEAD_BYTES + SLOTS_AT, &carried.slots);
    write_load(out, HEAD_BYTES + LOAD_AT, carried.load);
}

// Internal: the whole record of what is carried.
pub fn carried_record(carried: Carried) -> [u8; RECORD_BYTES]
    ensures { result ≡ record_format.put carried }
{
    let mut bytes = [0u8; RECORD_BYTES];
    write_carried(&mut bytes, carried);
    bytes
}

// What is promised of the record.
pub fn promises()
    ensures records { CarriedRecords }
{}
