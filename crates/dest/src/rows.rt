// The three kinds of Dest row: each is a tuple struct of its own, and each view's has its ROWS, since document 01 names that form; so there are two
// of them and no parameter.
ghost use Rattle.std.specs.Prelude.{◌≡◌};
ghost use Rattle.dest.specs.Rows.{row16_of, row32_of};

// A row of the 16-bit view. Only this crate can set its number, so that elsewhere a row of a view is within it: it comes of `new`.
#[derive(Clone, Copy)]
pub struct View16Row(pub(crate) u16);

// A row of the 32-bit view, by `new` too.
#[derive(Clone, Copy)]
pub struct View32Row(pub(crate) u16);

// A row of storage, 0 to 1,023.
#[derive(Clone, Copy)]
pub struct StorageRow(pub u16);

impl View16Row {
    pub const ROWS: u16 = 1024;

    // A number from outside as a row of the view, if it is one.
    pub fn new(n: u32) -> Option<Self>
        ensures { result ≡ row16_of n }
    {
        if n < Self::ROWS as u32 {
            return Some(View16Row(n as u16));
        }
        None
    }
}

impl View32Row {
    pub const ROWS: u16 = 512;

    // A number from outside as a row of the view, if it is one.
    pub fn new(n: u32) -> Option<Self>
        ensures { result ≡ row32_of n }
    {
        if n < Self::ROWS as u32 {
            return Some(View32Row(n as u16));
        }
        None
    }
}
