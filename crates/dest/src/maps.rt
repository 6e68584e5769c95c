// The maps from view rows to storage rows.
ghost use Rattle.std.specs.Prelude.{◌≡◌};
ghost use Rattle.dest.specs.Maps.{remapped, swizzled, after_remap, after_swizzle, storage16, high32, low32};

use crate::flags::Flags;
use crate::rows::{StorageRow, View16Row, View32Row};

// Bit 4 to 3, 5 to 4, 3 to 5.
fn remap(r: u16) -> u16
    ensures { result ≡ remapped r }
{
    r / 64 * 64 + r / 8 % 2 * 32 + r / 32 % 2 * 16 + r / 16 % 2 * 8 + r % 8
}

// New bit 3 is old 4 xor old 2, new bit 2 is old 3.
fn swizzle(r: u16) -> u16
    ensures { result ≡ swizzled r }
{
    let crossed = (r / 16 % 2) ^ (r / 4 % 2);
    r / 16 * 16 + crossed * 8 + r / 8 % 2 * 4 + r % 4
}

fn after_remap(flags: Flags, r: u16) -> u16
    ensures { result ≡ after_remap flags r }
{
    if flags.remap { remap(r) } else { r }
}

fn after_swizzle(flags: Flags, r: u16) -> u16
    ensures { result ≡ after_swizzle flags r }
{
    if flags.swizzle { swizzle(r) } else { r }
}

// The storage row of a 16-bit view row.
pub fn storage_row(flags: Flags, row: View16Row) -> StorageRow
    ensures { result ≡ storage16 flags row }
{
    StorageRow(after_remap(flags, row.0))
}

// The storage row of the high halves of a 32-bit view row.
pub fn high_row(flags: Flags, row: View32Row) -> StorageRow
    ensures { result ≡ high32 flags row }
{
    let m = after_swizzle(flags, after_remap(flags, row.0));
    StorageRow(m / 8 % 64 * 16 + m % 8)
}

// The storage row of the low halves of a 32-bit view row.
pub fn low_row(flags: Flags, row: View32Row) -> StorageRow
    ensures { result ≡ low32 flags row }
{
    let high = high_row(flags, row);
    StorageRow(high.0 + 8)
}
