// Words copied from one store into another.
ghost use Rattle.std.specs.Prelude.{◌≡◌, ◌+◌, ◌≤◌, length};
ghost use Rattle.bits.specs.Copies.{copied};

// A loop and no `copy_from_slice`: sixteen words that the compiler can count are then copied without a call, which costs a transpose a third less.
// The n words of `src` from place `from` on, stored in `dst` from place `to` on. Internal: they lie within both.
pub fn copy_words(src: &[u32], dst: &mut [u32], from: usize, to: usize, n: usize)
    requires { (from + n ≤ length src.now) × (to + n ≤ length dst.old) }
    ensures { dst.new ≡ copied n from to src.now dst.old }
{
    for i in 0..n {
        dst[to + i] = src[from + i];
    }
}
