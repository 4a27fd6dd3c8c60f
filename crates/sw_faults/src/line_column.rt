//! Lines and columns.
ghost use Rattle.std.specs.Prelude.{◌≡◌, ◌≤◌, length};
ghost use Rattle.sw_faults.specs.LineColumn.{column_of, line_of};

/// Where a byte stands in a text, for a person to find: both from 1. Lines end with LF, and a column counts bytes.
#[derive(Clone, Copy)]
pub struct Position {
    /// From 1.
    pub line: usize,
    /// In bytes, from 1.
    pub column: usize,
}

/// The line and column of the byte at `offset`, or of the text's end.
pub fn position_at(text: &[u8], offset: usize) -> Position
    requires { offset ≤ length text.now }
    ensures line { result.line ≡ line_of text.now offset }
    ensures column { result.column ≡ column_of text.now offset }
{
    let before = &text[..offset];
    let mut line = 1;
    let mut column = 1;
    for byte in before {
        column += 1;
        if *byte == b'\n' {
            line += 1;
            column = 1;
        }
    }
    Position { line, column }
}
