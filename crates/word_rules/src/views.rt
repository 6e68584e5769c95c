// The views of Dest that a word may name.
ghost use Rattle.std.specs.Prelude.{◌≡◌};
ghost use Rattle.word_rules.specs.Marks.{view_rows};

use dest::rows::{View16Row, View32Row};

// How many rows a view has: the 32-bit view where `wide`, else the 16-bit view.
pub fn view_rows(wide: bool) -> u16
    ensures { result ≡ view_rows wide }
{
    if wide {
        View32Row::ROWS
    } else {
        View16Row::ROWS
    }
}
