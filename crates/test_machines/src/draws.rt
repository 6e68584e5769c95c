// Numbers drawn from a small generator. Its state is a number of 32 bits; each draw gives one of 16.

// The state after a draw.
pub fn next_state(x: u32) -> u32 {
    let y = x as u64 * 1664525 + 1013904223;
    (y % 0x1_0000_0000) as u32
}

// The state after `n` draws.
pub fn state_after(x: u32, n: usize) -> u32 {
    let mut state = x;
    for _ in 0..n {
        state = next_state(state);
    }
    state
}

// The number drawn.
pub fn draw(x: u32) -> u16 {
    (next_state(x) / 65536) as u16
}

// One draw, of which the bits of `mask` count.
pub fn small(x: u32, mask: u8) -> u8 {
    (draw(x) % 256) as u8 & mask
}

// Two draws as a word, the first its high half, of which the bits of `mask` count.
pub fn word(x: u32, mask: u32) -> u32 {
    let high = draw(x) as u32;
    let low = draw(next_state(x)) as u32;
    (high * 65536 + low) & mask
}

// One draw as a mark: set where it is odd.
pub fn mark(x: u32) -> bool {
    draw(x) % 2 == 1
}
