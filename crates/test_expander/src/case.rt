// A case: twelve words of 4 bytes, the lowest byte first.
use crate::draws::{Mix, Replays};
use bits::word::{field, flag};
use expander_rules::Load;
use format::number::read;

pub(crate) const BYTES: usize = 48;

#[derive(Clone, Copy)]
pub(crate) struct Case {
    pub(crate) seed: u32,
    pub(crate) high: u16,
    pub(crate) nine_words: usize,
    pub(crate) mix: Mix,
    pub(crate) in_nine: Replays,
    pub(crate) in_slots: Replays,
    pub(crate) m0: u32,
    pub(crate) m1: u32,
    pub(crate) stream_words: usize,
    pub(crate) room: usize,
    pub(crate) load: Option<Load>,
    pub(crate) pieces: u32,
}

// The load: its kind in bit 0 and whether it is shown in bit 1; the next slot; the words to come.
fn read_load(record: &[u8; BYTES]) -> Option<Load> {
    let kind = read::<4>(record, 32);
    if !flag::<0>(kind) {
        return None;
    }
    Some(Load {
        next: read::<4>(record, 36),
        left: read::<4>(record, 40),
        shown: flag::<1>(kind),
    })
}

// Seed; high mask and the number of nine words; the mix, a byte each; m0; m1; stream words; room; the shares of REPLAYs in the stream,
// the nine words and the slots, and whether their lengths may be odd; the load; the pieces (see pieces.rt).
pub(crate) fn read_case(record: &[u8; BYTES]) -> Case {
    let lent = read::<4>(record, 4);
    let mix = read::<4>(record, 8);
    let replays = read::<4>(record, 28);
    let odd = 0 < field::<24, 8>(replays);
    Case {
        seed: read::<4>(record, 0),
        high: (lent % 65536) as u16,
        nine_words: (lent / 65536) as usize,
        mix: Mix {
            mops0: field::<0, 8>(mix),
            mops1: field::<8, 8>(mix),
            configs: field::<16, 8>(mix),
            counts: field::<24, 8>(mix),
            replays: Replays {
                below: field::<0, 8>(replays),
                odd,
            },
        },
        in_nine: Replays {
            below: field::<8, 8>(replays),
            odd,
        },
        in_slots: Replays {
            below: field::<16, 8>(replays),
            odd,
        },
        m0: read::<4>(record, 12),
        m1: read::<4>(record, 16),
        stream_words: read::<4>(record, 20) as usize,
        room: read::<4>(record, 24) as usize,
        load: read_load(record),
        pieces: read::<4>(record, 44),
    }
}

// m0 and m1 come from the case, where so many words are lent.
pub(crate) fn set_counts(nine: &mut [u32], m0: u32, m1: u32) {
    if 1 < nine.len() {
        nine[0] = m0;
        nine[1] = m1;
    }
}
