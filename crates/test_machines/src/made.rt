// How a machine is made and lent, in six numbers of 4 bytes.
ghost use Rattle.std.specs.Prelude.{◌+◌, ◌≤◌, length};
ghost use Rattle.test_machines.specs.Made.{made_bytes};

use crate::number::Number;
use format::number::read;

pub const MADE_BYTES: usize = 24;

// The seed's machine, with a number of it set; and the part, 1 to 7 in the order that they are lent, that has a length of its own.
#[derive(Clone, Copy)]
pub struct Made {
    pub seed: u32,
    pub number: Number,
    pub part: u32,
    pub length: u32,
}

// The six numbers from `at` on. Internal: they are there.
pub fn read_made(s: &[u8], at: usize) -> Made
    requires { at + made_bytes ≤ length s.now }
{
    Made {
        seed: read::<4>(s, at),
        number: Number {
            kind: read::<4>(s, at + 4).into(),
            place: read::<4>(s, at + 8),
            value: read::<4>(s, at + 12),
        },
        part: read::<4>(s, at + 16),
        length: read::<4>(s, at + 20),
    }
}
