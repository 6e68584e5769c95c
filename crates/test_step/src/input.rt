// Where the parts of the input end.
ghost use Rattle.std.specs.Prelude.{◌≤◌};

use test_machines::made::MADE_BYTES;

// A group up to its cases.
pub(crate) const HEADER_BYTES: usize = MADE_BYTES + 4;

// Where the cases of a group end that says it has `count` of them: at the last whole case that is there.
pub(crate) fn cases_end(from: usize, count: u32, len: usize) -> usize
    requires { from ≤ len }
    ensures { (from ≤ result) × (result ≤ len) }
{
    let there = (len - from) / 8;
    if (count as usize) < there {
        return from + count as usize * 8;
    }
    from + there * 8
}
