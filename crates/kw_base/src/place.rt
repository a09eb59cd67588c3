//! Texts: the line and the column of a byte.

ghost use Rattle.std.specs.Prelude.{◌≡◌, ◌≤◌, length};
ghost use Rattle.kw_base.specs.Place.{place_at};

/// A place in a text: a line and a column, both counted from 1, the column in bytes. A number above
/// 4,294,967,295 is given as that number.
#[derive(Clone, Copy, Debug, PartialEq, Eq)]
pub struct Place {
    pub line: u32,
    pub column: u32,
}

/// The place of the byte at this offset of a text, or of the end of the text.
pub fn place_of(text: &[u8], offset: usize) -> Place
    requires { offset ≤ length text.now }
    ensures { result ≡ place_at text.now offset }
{
    let mut line: u32 = 1;
    let mut column: u32 = 1;
    for byte in &text[..offset] {
        if *byte == b'\n' {
            line = line.saturating_add(1);
            column = 1;
        } else {
            column = column.saturating_add(1);
        }
    }
    Place { line, column }
}
