// Runs of numbers between bytes and lent parts.
ghost use Rattle.std.specs.Prelude.{◌≡◌, ◌+◌, ◌*◌, ◌^◌, ◌≤◌, ◌<◌, length, drop};
ghost use Rattle.bits.specs.Bytes.{enc, le};
ghost use Rattle.bits.specs.Overwrite.{Wrote};
ghost use Rattle.format.specs.Format.{many_get, many_put, head_bytes, head};

use crate::number::{Number, read, write};

// Reads as many numbers of W bytes from `at` as `dst` holds. Internal: they are there, and fit the type.
pub fn read_run<T: Number, const W: usize>(s: &[u8], at: usize, dst: &mut [T])
    requires there { at + length dst.old * W ≤ length s.now }
    requires width { (0 < W) × (W ≤ 4) }
    requires fit { 256 ^ W ≤ T.most + 1 }
    ensures { dst.new ≡ many_get (λ b. T.of (le W b)) W (length dst.old) (drop at s.now) }
{
    for i in 0..dst.len() {
        dst[i] = T::narrow(read::<W>(s, at + i * W));
    }
}

// Writes the low W bytes of each number of `src`, from `at`. Internal: there is room.
pub fn write_run<T: Number, const W: usize>(out: &mut [u8], at: usize, src: &[T])
    requires room { at + length src.now * W ≤ length out.old }
    requires width { (0 < W) × (W ≤ 4) }
    ensures { Wrote out.old at (many_put (λ x. enc W (T.value x)) src.now) out.new (at + length src.now * W) }
{
    for i in 0..src.len() {
        write::<W>(out, at + i * W, src[i].wide());
    }
}

// Writes a record's head: the body's length and its kind. Internal: there is room.
pub fn write_head(out: &mut [u8], at: usize, n: u32, k: u32)
    requires { at + head_bytes ≤ length out.old }
    ensures { Wrote out.old at ((head n k).put (tt, tt)) out.new (at + head_bytes) }
{
    write::<4>(out, at, n);
    write::<2>(out, at + 4, k);
}
