// The lengths of lent parts. A store of the program has one entry more than the machine's.
ghost use Rattle.std.specs.Prelude.{◌≤◌};

// How much of a store is lent, by two bits of the case from a place on: all but its last entry; one less; one more; nothing.
pub(crate) fn lent(store: usize, lengths: u32, place: u32) -> usize
    ensures { result ≤ store }
{
    if store < 2 {
        return 0;
    }
    match lengths >> (place % 32) & 3 {
        0 => store - 1,
        1 => store - 2,
        2 => store,
        _ => 0,
    }
}
