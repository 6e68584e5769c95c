// Items of any kind written into a lent store from a place on; each function answers the place past what it wrote.
ghost use Rattle.std.specs.Prelude.{◌+◌, ◌≤◌, [], ◌∷◌, length};
ghost use Rattle.bits.specs.Overwrite.{Wrote};

// Internal: there is room for one item.
pub fn put_one<T: Copy>(out: &mut [T], at: usize, item: T) -> usize
    requires { at + 1 ≤ length out.old }
    ensures { Wrote out.old at (item ∷ []) out.new result }
{
    out[at] = item;
    at + 1
}

// A loop, since `copy_from_slice` of a few items, whose number the compiler knows, costs several times as much. Internal: there is room for the items.
pub fn put_all<T: Copy>(out: &mut [T], at: usize, items: &[T]) -> usize
    requires { at + length items.now ≤ length out.old }
    ensures { Wrote out.old at items.now out.new result }
{
    for i in 0..items.len() {
        out[at + i] = items[i];
    }
    at + items.len()
}
