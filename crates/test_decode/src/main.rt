// Decodes the words of standard input, 4 bytes each, and prints a line for each, for comparison with the oracle: the word's name
// and its fields from the highest bits down, or `refused N`. In front of a second operand stands whether it is a register.
#![tactic(auto)]

mod names;

use crate::names::Named;
use format::number::read;
use program_io::read_full;
use std::io;

// Reads one word and prints its line, and answers whether there was one.
fn one_word(rt: &HostRuntime) -> io::Result<bool> {
    let mut bytes = [0u8; 4];
    let got = read_full(&mut rt.stdin(), &mut bytes)?;
    if got < 4 {
        return Ok(false);
    }
    match word_decode::decode(read::<4>(&bytes, 0)) {
        Ok(instruction) => println!(rt; "{}", Named(instruction))?,
        Err(r) => println!(rt; "refused {}", u32::from(r))?,
    }
    Ok(true)
}

// No input uses the turns up: they are what a proved loop counts down.
fn main(rt: HostRuntime) -> io::Result<()> {
    for _ in 0..u32::MAX {
        if !one_word(&rt)? {
            return Ok(());
        }
    }
    Ok(())
}
