// The fields of the words that work on the control part.
ghost use Rattle.std.specs.Prelude.{◌≡◌, ltb};
ghost use Rattle.bits.specs.Field.{field, flag};
ghost use Rattle.machine.specs.Sizes.{mutex_count};
ghost use Rattle.word_rules.specs.SyncWords.{block_of, mask_of};

use bits::word::{field, flag};
use machine::sizes::MUTEXES;

// ATGETM and ATRELM: mutex 0–15.
pub fn mutex(word: u32) -> u16
    ensures { result ≡ field 0 16 word }
{
    field::<0, 16>(word) as u16
}

// Whether the mutex is not over 7.
pub fn mutex_fine(word: u32) -> bool
    ensures { result ≡ ltb (field 0 16 word) mutex_count }
{
    (mutex(word) as usize) < MUTEXES
}

// Block 15–23.
pub fn block(word: u32) -> u16
    ensures { result ≡ block_of word }
{
    field::<15, 9>(word) as u16
}

// Mask 2–9.
pub fn mask(word: u32) -> u8
    ensures { result ≡ mask_of word }
{
    field::<2, 8>(word) as u8
}

// STALLWAIT: conditions 0–14.
pub fn conditions(word: u32) -> u32
    ensures { result ≡ field 0 15 word }
{
    field::<0, 15>(word)
}

// SEMINIT: maximum 20–23.
pub fn maximum(word: u32) -> u8
    ensures { result ≡ field 20 4 word }
{
    field::<20, 4>(word) as u8
}

// SEMINIT: value 16–19.
pub fn init_value(word: u32) -> u8
    ensures { result ≡ field 16 4 word }
{
    field::<16, 4>(word) as u8
}

// SEMWAIT: condition 0–1.
pub fn condition(word: u32) -> u8
    ensures { result ≡ field 0 2 word }
{
    field::<0, 2>(word) as u8
}

// CLEARDVALID: A 22.
pub fn clears_a(word: u32) -> bool
    ensures { result ≡ flag 22 word }
{
    flag::<22>(word)
}

// CLEARDVALID: B 23.
pub fn clears_b(word: u32) -> bool
    ensures { result ≡ flag 23 word }
{
    flag::<23>(word)
}

// CLEARDVALID: keep 1.
pub fn keeps(word: u32) -> bool
    ensures { result ≡ flag 1 word }
{
    flag::<1>(word)
}

// CLEARDVALID: reset 0.
pub fn resets(word: u32) -> bool
    ensures { result ≡ flag 0 word }
{
    flag::<0>(word)
}

// SETDVALID: A 0.
pub fn sets_a(word: u32) -> bool
    ensures { result ≡ flag 0 word }
{
    flag::<0>(word)
}

// SETDVALID: B 1.
pub fn sets_b(word: u32) -> bool
    ensures { result ≡ flag 1 word }
{
    flag::<1>(word)
}
