//! Brackets and quotes that are not closed.
use crate::line_column::position_at;
use crate::made::Made;
use std::alloc::Global;

/// A bracket or a quote that opens something, and where it stands.
#[derive(Clone, Copy)]
struct Opening {
    mark: u8,
    at: usize,
}

impl Opening {
    fn is_quote(self) -> bool {
        self.mark == b'"' || self.mark == b'\''
    }

    /// What closes it.
    fn closing_mark(self) -> u8 {
        match self.mark {
            b'[' => b']',
            b'{' => b'}',
            quote => quote,
        }
    }
}

/// What a byte stands in.
#[derive(Clone, Copy)]
enum Inside {
    Values,
    Comment,
    /// A text behind this quote. The flag: a backslash stands before the byte.
    Quoted(Opening, bool),
}

/// A scan of a text, byte by byte.
#[derive(Drop)]
struct MarkScan {
    inside: Inside,
    /// The brackets that are open.
    open: Vec<Opening>,
}

impl MarkScan {
    /// Reads a byte of a text in quotes. Gives the quote, if the line ends there.
    fn quoted_turn(&mut self, quote: Opening, escaped: bool, byte: u8) -> Option<Opening> {
        if byte == b'\n' {
            return Some(quote);
        }
        let begins_escape = !escaped && byte == b'\\' && quote.mark == b'"';
        self.inside = if !escaped && byte == quote.mark {
            Inside::Values
        } else {
            Inside::Quoted(quote, begins_escape)
        };
        None
    }

    /// Reads a closing bracket. Gives the bracket that it should have closed, if it closes another.
    fn close(&mut self, byte: u8) -> Option<Opening> {
        let last = self.open.pop()?;
        (last.closing_mark() != byte).then_some(last)
    }

    /// Reads a byte outside of quotes and comments.
    fn value_turn(&mut self, byte: u8, at: usize) -> Made<Option<Opening>> {
        let opening = Opening { mark: byte, at };
        match byte {
            b'#' => self.inside = Inside::Comment,
            b'"' | b'\'' => self.inside = Inside::Quoted(opening, false),
            b'[' | b'{' => self.open.push(opening)?,
            b']' | b'}' => return Ok(self.close(byte)),
            _ => {}
        }
        Ok(None)
    }

    /// Reads a byte. Gives what is not closed, where that is seen there.
    fn turn(&mut self, byte: u8, at: usize) -> Made<Option<Opening>> {
        match self.inside {
            Inside::Quoted(quote, escaped) => Ok(self.quoted_turn(quote, escaped, byte)),
            Inside::Values => self.value_turn(byte, at),
            Inside::Comment => {
                if byte == b'\n' {
                    self.inside = Inside::Values;
                }
                Ok(None)
            }
        }
    }

    /// What is open at the text's end: the last of what stands before a place of it.
    fn left_open(&self, before: usize) -> Option<Opening> {
        match self.inside {
            Inside::Quoted(quote, _) => Some(quote),
            _ => {
                let mut marks = self.open.iter().rev();
                marks.find(|mark| mark.at < before).copied()
            }
        }
    }
}

/// Has the text quotes of three marks, behind which a text may have several lines?
fn has_long_quotes(text: &[u8]) -> bool {
    text.windows(3).any(|marks| marks.starts_with(b"\"\"\"") || marks.starts_with(b"'''"))
}

/// The bracket or quote that is not closed, of a text that is no TOML at this place; none where
/// that is not sure.
fn unclosed_in(alloc: Global, text: &[u8], place: usize) -> Made<Option<Opening>> {
    if has_long_quotes(text) {
        return Ok(None);
    }
    let mut scan = MarkScan {
        inside: Inside::Values,
        open: Vec::new(alloc),
    };
    for (at, byte) in text.iter().enumerate() {
        if let Some(mark) = scan.turn(*byte, at)? {
            return Ok(Some(mark));
        }
    }
    Ok(scan.left_open(place))
}

/// Which bracket or quote is not closed, of a text that is no TOML at this place; nothing where
/// that is not sure, or where it stands further on.
///
/// # Errors
///
/// There is no memory for the text, or for the brackets that are open.
pub(crate) fn unclosed_help(alloc: Global, text: &[u8], place: usize) -> Made<String> {
    let Some(opening) = unclosed_in(alloc, text, place)? else {
        return Ok(String::new(alloc));
    };
    let place = position_at(text, place.min(text.len()));
    let opened = position_at(text, opening.at.min(text.len()));
    let mark = char::from(opening.mark);
    let (line, column) = (opened.line, opened.column);
    let is_before = (line, column) < (place.line, place.column);
    if is_before && opening.is_quote() {
        format!(in alloc; "the quote {mark} at {line}:{column} is not closed")
    } else if is_before {
        format!(in alloc; "the '{mark}' at {line}:{column} is not closed")
    } else if opening.is_quote() && line == place.line {
        String::from_str(alloc, "a quote in this line is not closed")
    } else {
        Ok(String::new(alloc))
    }
}
