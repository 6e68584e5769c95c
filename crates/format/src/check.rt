// How far fields are good: the offset of the first that is missing, cut or out of range, or the size of them all.
ghost use Rattle.std.specs.Prelude.{◌≡◌, ◌+◌, ◌-◌, ◌*◌, ◌^◌, ◌≤◌, ◌<◌, length, drop};
ghost use Rattle.format.specs.Places.{place_most};
ghost use Rattle.format.specs.Format.{good_across, num, numbers, most_after, head_bytes, head, kind};

use crate::HEAD_BYTES;

// How far two parts in a row are good: to `a` where that is short of the first part's `n` bytes, else `b` bytes into the
// second. Internal: the places are small numbers.
#[tactic(auto, unfolding(crate::specs::Format::good_across))]
pub fn good_across(a: usize, n: usize, b: usize) -> usize
    requires { n + b ≤ place_most }
    ensures { (result ≡ good_across a n b) × (result ≤ n + b) }
{
    if a < n { a } else { n + b }
}

// W where a field of W bytes stands at `at` and is from `lo` to `hi`, else 0. Internal: it has one to four bytes.
pub fn field<const W: usize>(s: &[u8], at: usize, lo: u32, hi: u32) -> usize
    requires { (at ≤ place_most) × (0 < W) × (W ≤ 4) }
    ensures { (result ≡ (num W lo hi).good (drop at s.now)) × (result ≤ W) }
{
    if s.len() < at + W {
        return 0;
    }
    let v = crate::number::read::<W>(s, at);
    if lo <= v && v <= hi { W } else { 0 }
}

// The largest number of W bytes. Internal: there are one to four.
fn largest<const W: usize>() -> u32
    requires { (0 < W) × (W ≤ 4) }
    ensures { result ≡ 256 ^ W - 1 }
{
    u32::MAX >> (32 - 8 * W)
}

// How far `n` fields of W bytes from `at` are good, each at most `hi`. Internal: the places are small numbers.
pub fn fields<const W: usize>(s: &[u8], at: usize, n: usize, hi: u32) -> usize
    requires { (at + n * W ≤ place_most) × (0 < W) × (W ≤ 4) }
    ensures { (result ≡ (numbers n W hi).good (drop at s.now)) × (result ≤ n * W) }
{
    // Fields that may hold any number can only be missing or cut.
    if hi == largest::<W>() {
        return n.min(s.len().saturating_sub(at) / W) * W;
    }
    for i in 0..n {
        let good = field::<W>(s, at + i * W, 0, hi);
        if good < W {
            return i * W + good;
        }
    }
    n * W
}

// The largest that a field after a kind byte may be.
#[tactic(auto, unfolding(crate::specs::Format::most_after))]
pub fn most_after(kind: u32, most: u32) -> u32
    ensures { result ≡ most_after kind most }
{
    if kind == 0 { 0 } else { most }
}

// How far a record's head is good. Internal: the places are small numbers.
pub fn head(s: &[u8], at: usize, n: u32, k: u32) -> usize
    requires { at + head_bytes ≤ place_most }
    ensures { (result ≡ (head n k).good (drop at s.now)) × (result ≤ head_bytes) }
{
    let a = field::<4>(s, at, n, n);
    let b = field::<2>(s, at + 4, k, k);
    good_across(a, 4, b)
}

// How far a record of kind `k` is good that holds `n` numbers of W bytes, each at most `hi`. Internal: the places are
// small numbers.
pub fn record<const W: usize>(s: &[u8], at: usize, k: u32, n: usize, hi: u32) -> usize
    requires { (at + head_bytes + n * W ≤ place_most) × (0 < W) × (W ≤ 4) }
    ensures { (result ≡ (kind k (numbers n W hi)).good (drop at s.now)) × (result ≤ head_bytes + n * W) }
{
    let h = head(s, at, (n * W) as u32, k);
    let b = fields::<W>(s, at + HEAD_BYTES, n, hi);
    good_across(h, HEAD_BYTES, b)
}
