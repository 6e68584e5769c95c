// Prints where each row of both views lies, in every setting, for comparison with the oracle. A line is the view's width,
// the flags that are on, the row, and its storage row or rows: `32 R- 8 64 72`.
#![tactic(auto)]

use dest::flags::{Flags, flags_of};
use dest::maps;
use dest::rows::{StorageRow, View16Row, View32Row};
use std::io;

fn write_flag(rt: &HostRuntime, on: bool, letter: &[u8]) -> io::Result<()> {
    rt.write_all(if on { letter } else { b"-" })
}

fn write_start(rt: &HostRuntime, view: &[u8], flags: Flags, n: u32) -> io::Result<()> {
    rt.write_all(view)?;
    write_flag(rt, flags.remap, b"R")?;
    write_flag(rt, flags.swizzle, b"S")?;
    rt.write_all(b" ")?;
    rt.print(n as u64)
}

fn write_place(rt: &HostRuntime, s: StorageRow) -> io::Result<()> {
    rt.write_all(b" ")?;
    rt.print(s.0 as u64)
}

// A line of the 16-bit view.
fn write_16(rt: &HostRuntime, flags: Flags, n: u32) -> io::Result<()> {
    write_start(rt, b"16 ", flags, n)?;
    match View16Row::new(n) {
        Some(row) => write_place(rt, maps::storage_row(flags, row))?,
        None => rt.write_all(b" past")?,
    }
    rt.write_all(b"\n")
}

// A line of the 32-bit view.
fn write_32(rt: &HostRuntime, flags: Flags, n: u32) -> io::Result<()> {
    write_start(rt, b"32 ", flags, n)?;
    match View32Row::new(n) {
        Some(row) => {
            write_place(rt, maps::high_row(flags, row))?;
            write_place(rt, maps::low_row(flags, row))?;
        }
        None => rt.write_all(b" past")?,
    }
    rt.write_all(b"\n")
}

// A view's rows in the setting of a Config word, and numbers past the view: the next one and two of more than 16 bits.
fn write_view<W: Fn(&HostRuntime, Flags, u32) -> io::Result<()>>(
    rt: &HostRuntime,
    write_row: W,
    rows: u16,
    word: u32,
) -> io::Result<()>
    requires { W.IsAlwaysCallable write_row }
{
    let flags = flags_of(word);
    for n in 0..=rows as u32 {
        write_row(rt, flags, n)?;
    }
    write_row(rt, flags, 0x1_0000)?;
    write_row(rt, flags, 0xffff_ffff)
}

// Every setting that a view tells apart; some of the words have bits set that are no flag, or not for the view.
fn main(rt: HostRuntime) -> io::Result<()> {
    write_view(&rt, write_16, View16Row::ROWS, 2)?;
    write_view(&rt, write_16, View16Row::ROWS, 0xffff_fffd)?;
    write_view(&rt, write_32, View32Row::ROWS, 0)?;
    write_view(&rt, write_32, View32Row::ROWS, 1)?;
    write_view(&rt, write_32, View32Row::ROWS, 0xffff_fffe)?;
    write_view(&rt, write_32, View32Row::ROWS, 3)
}
