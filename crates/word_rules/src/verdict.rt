// What comes of an offered word before its work: it is refused by itself, stalled by its thread's wait, or goes on.
ghost use Rattle.std.specs.Prelude.{◌≡◌, ◌<◌};
ghost use Rattle.bits.specs.Field.{flag};
ghost use Rattle.word_rules.specs.Offered.{HeldUp};

use bits::word;
use machine::refusal::{Outcome, Refusal, StallCause};

// Whether block bit BIT is among those that a thread's wait stalls now: 1 of the sync unit, 5 of the scalar unit, 6 of the matrix unit, 7 of the
// config unit. Internal: it is one of a 16-bit number.
pub fn stalls<const BIT: u32>(blocks: u16) -> bool
    requires { BIT < 16 }
    ensures { result ≡ flag BIT blocks }
{
    word::flag::<BIT>(blocks as u32)
}

// What comes of a word with block bit BIT that is held up: 2 where it is not fine, 3 where a field of it is not fine, then 101 where its
// thread's wait stalls it. None: it goes on. The cause of 101 is not known here: `step_offer` puts it in. Internal, as above.
pub fn held_up<const BIT: u32>(fine_word: bool, fine_field: bool, blocks: u16) -> Option<Outcome>
    requires { BIT < 16 }
    ensures { HeldUp fine_word fine_field (flag BIT blocks) result }
{
    if !fine_word {
        return Some(Outcome::Refused(Refusal::BadWord));
    }
    if !fine_field {
        return Some(Outcome::Refused(Refusal::BadField));
    }
    if stalls::<BIT>(blocks) {
        return Some(Outcome::Stalled(StallCause::WaitHolds(0)));
    }
    None
}
