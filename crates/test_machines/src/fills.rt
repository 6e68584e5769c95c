// Lent stores filled from the draws, in order. Each answers the state after its last draw.
use crate::draws::{draw, mark, small, state_after, word};

// Items of any kind, so many draws each.
fn fill<T: Copy, F: Fn(u32) -> T>(x: u32, draws: usize, dst: &mut [T], item: F) -> u32
    requires { F.IsAlwaysCallable item }
{
    let mut state = x;
    for place in dst {
        *place = item(state);
        state = state_after(state, draws);
    }
    state
}

// Bytes of the bits of `mask`, a draw each.
pub fn fill_small(x: u32, mask: u8, dst: &mut [u8]) -> u32 {
    fill(x, 1, dst, |state| small(state, mask))
}

// Numbers of 16 bits, a draw each.
pub fn fill_halves(x: u32, dst: &mut [u16]) -> u32 {
    fill(x, 1, dst, draw)
}

// Words of the bits of `mask`, two draws each.
pub fn fill_words(x: u32, mask: u32, dst: &mut [u32]) -> u32 {
    fill(x, 2, dst, |state| word(state, mask))
}

// Valid marks, a draw each.
pub fn fill_marks(x: u32, dst: &mut [bool]) -> u32 {
    fill(x, 1, dst, mark)
}
