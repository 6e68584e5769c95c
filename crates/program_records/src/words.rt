// The words of the three threads.
ghost use Rattle.std.specs.Prelude.{◌≡◌, ◌+◌, ◌*◌, ◌≤◌, length, take};
ghost use Rattle.run_order.specs.Cursor.{streams};
ghost use Rattle.program_records.specs.Counts.{words_end, words_at, streams_of};

use crate::counts::Counts;
use format::HEAD_BYTES;
use format::run::read_run;

// Reads `n` words from a place into the start of the slice lent. Internal: they are there, and there is room.
fn read_first(s: &[u8], at: usize, n: usize, dst: &mut [u32])
    requires { (at + 4 * n ≤ length s.now) × (n ≤ length dst.old) }
    ensures { take n dst.new ≡ words_at s.now at n }
{
    read_run::<u32, 4>(s, at, &mut dst[..n]);
}

// Reads each thread's words into the start of the slice lent for them. Internal: they are there, and there is room.
pub fn read_streams(s: &[u8], c: Counts, s0: &mut [u32], s1: &mut [u32], s2: &mut [u32])
    requires { (words_end c ≤ length s.now) × (c.n0 ≤ length s0.old) × (c.n1 ≤ length s1.old) × (c.n2 ≤ length s2.old) }
    ensures { streams (take c.n0 s0.new) (take c.n1 s1.new) (take c.n2 s2.new) ≡ streams_of s.now c }
{
    read_first(s, HEAD_BYTES, c.n0, s0);
    read_first(s, 2 * HEAD_BYTES + 4 * c.n0, c.n1, s1);
    read_first(s, 3 * HEAD_BYTES + 4 * c.n0 + 4 * c.n1, c.n2, s2);
}
