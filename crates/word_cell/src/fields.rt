// The fields of the words that work on source cells and marks.
ghost use Rattle.std.specs.Prelude.{◌≡◌};
ghost use Rattle.bits.specs.Field.{field, flag};
ghost use Rattle.word_rules.specs.Marks.{view_rows};
ghost use Rattle.word_rules.specs.CellWords.{no_addr_mod, place_in_rows};

use bits::word;
use word_rules::views::view_rows;

// Whether AddrMod, 14–16, is 0.
pub fn no_addr_mod(word: u32) -> bool
    ensures { result ≡ no_addr_mod word }
{
    word::field::<14, 3>(word) == 0
}

// MOVB2A: A row 17–22.
pub fn row_a(word: u32) -> u8
    ensures { result ≡ field 17 6 word }
{
    word::field::<17, 6>(word) as u8
}

// MOVB2A: four-row bit 13.
pub fn four(word: u32) -> bool
    ensures { result ≡ flag 13 word }
{
    word::flag::<13>(word)
}

// MOVB2A: B row 0–5.
pub fn row_b(word: u32) -> u8
    ensures { result ≡ field 0 6 word }
{
    word::field::<0, 6>(word) as u8
}

// ZEROACC: mode 19–20.
pub fn mode(word: u32) -> u8
    ensures { result ≡ field 19 2 word }
{
    word::field::<19, 2>(word) as u8
}

// ZEROACC: 32-bit view 18.
pub fn wide(word: u32) -> bool
    ensures { result ≡ flag 18 word }
{
    word::flag::<18>(word)
}

// ZEROACC: place 0–13.
pub fn place(word: u32) -> u16
    ensures { result ≡ field 0 14 word }
{
    word::field::<0, 14>(word) as u16
}

// Whether ZEROACC's place lies in its view: each view has its own limit.
pub fn place_fine(word: u32) -> bool
    ensures { result ≡ place_in_rows (view_rows (flag 18 word)) (field 19 2 word) (field 0 14 word) }
{
    let rows = view_rows(wide(word));
    let place = place(word);
    match mode(word) {
        0 => place < rows,
        1 => 16 * (place as u32) + 16 <= rows as u32,
        2 => place <= 1,
        _ => true,
    }
}
