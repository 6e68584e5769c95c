// A stream in pieces: each goes on from what the one before carries, and writes after what was written.
ghost use Rattle.std.specs.Prelude.{◌≤◌, ◌≡◌, length};

use crate::lines::add_call;
use expander_rules::Carried;
use test_machines::draws::{draw, next_state};
use test_machines::sums;
use test_machines::sums::Sums;

// What is carried, the place past what was written, how many pieces were accepted, and the checksum of all calls.
#[derive(Clone, Copy)]
pub(crate) struct Fed {
    pub(crate) carried: Carried,
    pub(crate) at: usize,
    pub(crate) taken: u32,
    pub(crate) sum: Sums,
}

pub(crate) fn not_fed(carried: Carried) -> Fed
    ensures { result.at ≡ 0 }
{
    Fed {
        carried,
        at: 0,
        taken: 0,
        sum: sums::start(),
    }
}

// One piece.
fn feed(nine: &[u32], fed: Fed, piece: &[u32], out: &mut [u32]) -> Fed
    requires { fed.at ≤ length out.old }
    ensures { (result.at ≤ length out.new) × (length out.new ≡ length out.old) }
{
    let r = expander::expand(nine, fed.carried, piece, &mut out[fed.at..]);
    let carried = r.carried;
    let sum = add_call(fed.sum, r);
    match r.answer {
        Err(_) => Fed {
            carried,
            at: fed.at,
            taken: fed.taken,
            sum,
        },
        Ok(n) => Fed {
            carried,
            at: fed.at + n,
            taken: fed.taken % 0xFFFF_FFFF + 1,
            sum,
        },
    }
}

// Two pieces, from the output's start.
fn feed_cut(
    nine: &[u32],
    carried: Carried,
    fed: Fed,
    stream: &[u32],
    place: usize,
    out: &mut [u32],
) -> Fed
    requires { place ≤ length stream.now }
    ensures { (result.at ≤ length out.new) × (length out.new ≡ length out.old) }
{
    let start = Fed {
        carried,
        at: 0,
        taken: fed.taken,
        sum: fed.sum,
    };
    let first = feed(nine, start, &stream[..place], out);
    feed(nine, first, &stream[place..], out)
}

// Cut in two at each place, from the same state each time.
pub(crate) fn feed_places(nine: &[u32], carried: Carried, stream: &[u32], out: &mut [u32]) -> Fed {
    let mut fed = not_fed(carried);
    for place in 0..stream.len() {
        fed = feed_cut(nine, carried, fed, stream, place, out);
    }
    feed_cut(nine, carried, fed, stream, stream.len(), out)
}

// A piece's length, drawn from a state: at most the low half of the seed.
fn drawn_length(state: u32, seed: u32) -> u32 {
    draw(state) as u32 % (seed % 65536 + 1)
}

// In pieces whose lengths are drawn from a seed. No stream uses the turns up: they are what a proved loop counts down.
pub(crate) fn feed_drawn(
    nine: &[u32],
    carried: Carried,
    stream: &[u32],
    seed: u32,
    out: &mut [u32],
) -> Fed {
    let mut fed = not_fed(carried);
    let mut state = seed;
    let mut i: usize = 0;
    for _ in 0..u32::MAX {
        if stream.len() <= i {
            break;
        }
        let n = drawn_length(state, seed) as usize;
        let end = i + n.min(stream.len() - i);
        fed = feed(nine, fed, &stream[i..end], out);
        state = next_state(state);
        i = end;
    }
    fed
}
