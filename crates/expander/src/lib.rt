// The expander: a stream with MOP, MOP_CFG and REPLAY words becomes the words that they stand for (document 01, "Expander"; document
// 02, K1), in one call or in pieces (K2).
#![tactic(auto)]

ghost use Rattle.std.specs.Prelude.{true, false, [], ◌≡◌, min, ◌≤◌, length};
ghost use Rattle.bits.specs.Overwrite.{over};
ghost use Rattle.machine.specs.Answers.{accepted, told};
ghost use Rattle.expander_rules.specs.Sizes.{needed_most};
ghost use Rattle.expander_rules.specs.Stream.{any_replay};
ghost use Rattle.expander_rules.specs.Replay.{is_loading};
ghost use Rattle.expander_rules.specs.State.{fresh_carried};
ghost use Rattle.expander_rules.specs.Call.{expanding, fault_of, expansion_of, expand_of, close_of};
ghost use Rattle.expander_rules.specs.Admitted.{Admitted};
ghost use Rattle.expander.specs.Outcome.{outcome};

use crate::nine::Nine;
use expander_mop::{count, limits, stream};
use expander_replay::loads::{any_replay, is_loading, load_formed};
use expander_rules::sizes::{NEEDED_MOST, NINE, NOP, PART_MOST, SLOTS};
use expander_rules::{Carried, Expanded};
use machine::refusal::Refusal;
use machine::sizes::STREAM_WORDS;

mod nine;
mod parts;
mod pass;
mod survey;

pub fn fresh_carried() -> Carried
    ensures { result ≡ fresh_carried }
{
    Carried {
        high_mask: 0,
        slots: [NOP; SLOTS],
        load: None,
    }
}

// What an accepted call has written, and what is carried after it.
#[derive(Clone, Copy)]
struct Written {
    count: usize,
    carried: Carried,
}

// Writes a stream that was found to be sound and to fit, and tells what is carried after it.
fn write_replayed(
    nine: &Nine,
    carried: Carried,
    input: &[u32],
    room: &mut [u32; PART_MOST],
    out: &mut [u32],
) -> Carried
    requires { (fault_of nine.now.words carried.high_mask carried.load input.now ≡ accepted tt) × (length (expansion_of nine.now.words carried input.now).words ≤ length out.old) }
    ensures onward { result ≡ (expansion_of nine.now.words carried input.now).carried }
    ensures wrote { out.new ≡ over out.old 0 (expansion_of nine.now.words carried input.now).words }
{
    let mut slots = carried.slots;
    let handed = pass::pass_stream(
        nine,
        carried.high_mask,
        carried.load,
        input,
        &mut slots,
        room,
        out,
    );
    Carried {
        high_mask: handed.high,
        slots,
        load: handed.load,
    }
}

// A call whose lengths and load are right, by both stages. `limit` is the most words that it may write.
fn expand_replayed(
    nine: &Nine,
    carried: Carried,
    input: &[u32],
    limit: usize,
    out: &mut [u32],
) -> Result<Written, Refusal>
    requires { Admitted carried input.now × (limit ≡ min (length out.old) needed_most) }
    ensures { outcome carried out.new result ≡ expand_of nine.now.words carried input.now out.old }
{
    let mut room = [0; PART_MOST];
    let count = survey::survey_stream(
        nine,
        carried.high_mask,
        carried.load,
        input,
        limit,
        &mut room,
    )?;
    if limit < count {
        return Err(Refusal::ShortOutput);
    }
    let carried = write_replayed(nine, carried, input, &mut room, out);
    Ok(Written { count, carried })
}

// The same where no load is on and no word is a REPLAY, by the MOP stage alone: slots and load stay as they are.
fn expand_plain(
    nine: &Nine,
    carried: Carried,
    input: &[u32],
    limit: usize,
    out: &mut [u32],
) -> Result<Written, Refusal>
    requires { Admitted carried input.now × (limit ≡ min (length out.old) needed_most) × (nine.now.plain ≡ true) × (any_replay input.now ≡ false) × (is_loading carried.load ≡ false) }
    ensures { outcome carried out.new result ≡ expand_of nine.now.words carried input.now out.old }
{
    if limits::bad_rounds(&nine.words, input) {
        return Err(Refusal::BadRounds);
    }
    let count = count::count_stream(&nine.words, input, limit);
    if limit < count {
        return Err(Refusal::ShortOutput);
    }
    let put = stream::put_stream(&nine.words, carried.high_mask, input, 0, out);
    let mut after = carried;
    after.high_mask = put.high;
    Ok(Written {
        count,
        carried: after,
    })
}

// A call, by its refusals in their order.
fn expand_checked(
    nine: &[u32],
    carried: Carried,
    input: &[u32],
    out: &mut [u32],
) -> Result<Written, Refusal>
    ensures { outcome carried out.new result ≡ expand_of nine.now carried input.now out.old }
{
    let Some(words) = nine.as_array::<NINE>() else {
        return Err(Refusal::BadLength);
    };
    if STREAM_WORDS < input.len() {
        return Err(Refusal::BadLength);
    }
    if !load_formed(carried.load) {
        return Err(Refusal::Malformed);
    }
    let limit = out.len().min(NEEDED_MOST);
    let nine = Nine::new(words);
    if nine.plain && !any_replay(input) && !is_loading(carried.load) {
        return expand_plain(&nine, carried, input, limit, out);
    }
    expand_replayed(&nine, carried, input, limit, out)
}

// Expands `input`, a piece of a stream, into `out`; a load goes on over its end. `nine` is the words m0 to m8: they are lent, and another
// number of them is refused by 4.
pub fn expand(nine: &[u32], carried: Carried, input: &[u32], out: &mut [u32]) -> Expanded
    ensures { expanding (told result.answer) result.carried out.new ≡ expand_of nine.now carried input.now out.old }
{
    match expand_checked(nine, carried, input, out) {
        Ok(written) => Expanded {
            answer: Ok(written.count),
            carried: written.carried,
        },
        Err(why) => Expanded {
            answer: Err(why),
            carried,
        },
    }
}

// Ends a stream after its last piece: a load that is on ends with what came, and mask and slots stay. It writes nothing.
#[tactic(auto, unfolding(expander_rules::specs::Call::close_of))]
pub fn close(carried: Carried) -> Expanded
    ensures { expanding (told result.answer) result.carried [] ≡ close_of carried }
{
    if !load_formed(carried.load) {
        return Expanded {
            answer: Err(Refusal::Malformed),
            carried,
        };
    }
    let mut after = carried;
    after.load = None;
    Expanded {
        answer: Ok(0),
        carried: after,
    }
}
