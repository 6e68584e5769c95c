// What is printed: a line, record 38 with what is carried, and of a piece record 39 with the words.
ghost use Rattle.std.specs.Prelude.{◌≤◌, length};
ghost use Rattle.expander_rules.specs.Sizes.{needed_most};
ghost use Rattle.expand.specs.Sizes.{words_record};

use expander_rules::Carried;
use format::run::{write_head, write_run};
use machine::refusal::Refusal;
use program_carried::carried_record;
use std::io;

fn print_line(rt: &HostRuntime, name: &[u8], n: usize) -> io::Result<()> {
    rt.write_all(name)?;
    rt.print(n as u64)?;
    rt.write_all(b"\n")
}

pub(crate) fn print_bad(rt: &HostRuntime, at: usize) -> io::Result<()> {
    print_line(rt, b"bad record at ", at)
}

// Record 38.
fn print_carried(rt: &HostRuntime, carried: Carried) -> io::Result<()> {
    let bytes = carried_record(carried);
    rt.write_all(&bytes)
}

pub(crate) fn print_refused(rt: &HostRuntime, why: Refusal, carried: Carried) -> io::Result<()> {
    print_line(rt, b"refused ", u32::from(why) as usize)?;
    print_carried(rt, carried)
}

pub(crate) fn print_closed(rt: &HostRuntime, carried: Carried) -> io::Result<()> {
    rt.write_all(b"closed\n")?;
    print_carried(rt, carried)
}

// Record 39, made in the room lent for it. Internal: there is room.
fn print_words(rt: &HostRuntime, words: &[u32], bytes: &mut [u8]) -> io::Result<()>
    requires { (length words.now ≤ needed_most) × (words_record ≤ length bytes.old) }
{
    let n = words.len();
    write_head(bytes, 0, (4 * n) as u32, 39);
    write_run::<u32, 4>(bytes, 6, words);
    rt.write_all(&bytes[..6 + 4 * n])
}

// Internal: there is room for the words.
pub(crate) fn print_done(
    rt: &HostRuntime,
    words: &[u32],
    carried: Carried,
    bytes: &mut [u8],
) -> io::Result<()>
    requires { (length words.now ≤ needed_most) × (words_record ≤ length bytes.old) }
{
    print_line(rt, b"words ", words.len())?;
    print_carried(rt, carried)?;
    print_words(rt, words, bytes)
}
