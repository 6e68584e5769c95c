// The refusals of a call, in document 01's order: 4, 10, 5, 6.
ghost use Rattle.std.specs.Prelude.{◌≡◌};
ghost use Rattle.machine.specs.Lent.{viewed};
ghost use Rattle.machine.specs.Answers.{told};
ghost use Rattle.run_order.specs.Cursor.{streams_in};
ghost use Rattle.run_rules.specs.Checks.{streams_sized, placed, call_check};

use machine::lent::MachineView;
use machine::refusal::Refusal;
use machine::sizes::{MOST_TURNS, STREAM_WORDS};
use machine_formed::{machine_formed, machine_sized};
use run_order::cursor::{Cursor, StreamsView};

// No stream is over 65,536 words.
#[tactic(auto, unfolding(run_rules::specs::Checks::streams_sized))]
fn streams_sized(streams: StreamsView<'_>) -> bool
    ensures { result ≡ streams_sized (streams_in streams.entry) }
{
    streams.s0.len() <= STREAM_WORDS
        && streams.s1.len() <= STREAM_WORDS
        && streams.s2.len() <= STREAM_WORDS
}

// No position is past its stream, and the next thread is one of the three.
#[tactic(auto, unfolding(run_rules::specs::Checks::placed))]
fn is_placed(streams: StreamsView<'_>, c: Cursor) -> bool
    ensures { result ≡ placed (streams_in streams.entry) c }
{
    c.at0 <= streams.s0.len()
        && c.at1 <= streams.s1.len()
        && c.at2 <= streams.s2.len()
        && c.next <= 2
}

// The first refusal of a call, where there is one.
#[tactic(auto, unfolding(run_rules::specs::Checks::call_check))]
pub(crate) fn check_call(
    m: MachineView<'_>,
    streams: StreamsView<'_>,
    c: Cursor,
    budget: u32,
) -> Result<(), Refusal>
    ensures { told result ≡ call_check (streams_in streams.entry) (viewed m.entry) c budget }
{
    if !machine_sized(m) || !streams_sized(streams) {
        return Err(Refusal::BadLength);
    }
    if !machine_formed(m) {
        return Err(Refusal::Malformed);
    }
    if !is_placed(streams, c) {
        return Err(Refusal::BadCursor);
    }
    if budget > MOST_TURNS {
        return Err(Refusal::BadBudget);
    }
    Ok(())
}
