// Jobs of saves and of loads, each on what the one before left. A line is the last call's refusal, 0 for none, and the checksum of
// what the calls left.
use image_layout::IMAGE_BYTES;
use machine::fresh::fresh;
use machine::refusal::Refusal;
use test_jobs::{Job, Line};
use test_machines::sums;
use test_machines::whole::{digest_whole, seeded_or_fresh};
use whole_machine::images::{load_whole, save_whole};

// Some more than an image has.
const ROOM: usize = 49152;

fn line_of(answer: Result<(), Refusal>, sum: u32) -> Line {
    let number = match answer {
        Ok(()) => 0,
        Err(r) => r.into(),
    };
    Line::OfImage([number, sum])
}

// Saves of the seed's machine; the limit is the room.
pub(crate) fn do_saves(j: Job) -> Option<Line> {
    let n = j.limit as usize;
    if ROOM < n {
        return None;
    }
    let mut room = [0; ROOM];
    let m = seeded_or_fresh(j.seed);
    let mut saved = Ok(());
    for _ in 0..j.times {
        saved = save_whole(&m, &mut room[..n]);
    }
    let sum = sums::add_bytes(sums::start(), &room[..n]);
    Some(line_of(saved, sums::checksum(sum)))
}

// Loads of the image of the seed's machine over a fresh machine.
pub(crate) fn do_loads(j: Job) -> Line {
    let mut room = [0; IMAGE_BYTES];
    let mut loaded = save_whole(&seeded_or_fresh(j.seed), &mut room);
    let mut m = fresh();
    for _ in 0..j.times {
        loaded = load_whole(&room, &mut m);
    }
    line_of(loaded, digest_whole(&m))
}
