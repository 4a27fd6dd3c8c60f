//! A scan of a text that proposes a place. What it proposes is checked by `place`: no claim rests on it.
use crate::frame::{Frame, Headers};
use crate::made::Made;
use crate::sought::Sought;
use std::alloc::Global;
use sw_text::Section;
use toml_parser::text::{first, skip, skip_blank, skip_ws};
use toml_parser::{ErrorKind, Key, ParseError, dotted_key, quoted, starts_string, unquoted};

/// A piece of a text that a scan proposes.
#[derive(Clone, Copy)]
pub(crate) struct Proposal {
    pub(crate) from: usize,
    pub(crate) to: usize,
    /// How many of the brackets that are open behind it are open before it.
    pub(crate) open: usize,
}

/// The piece that was begun: where, and how many brackets are open before it and at its end.
#[derive(Clone, Copy)]
struct Piece {
    from: usize,
    before: usize,
    behind: usize,
}

/// The rest of the text, or why it can't be read on.
type Rest<'t> = Result<&'t str, ParseError>;

/// What a scan knows.
#[derive(Drop)]
struct TextScan<'s> {
    alloc: Global,
    sought: Sought<'s>,
    /// How long the whole text is.
    length: usize,
    headers: Headers,
    /// The table of the last header.
    section: Option<Section>,
    begun: Option<Piece>,
    /// The brackets that are open.
    frames: Vec<Frame>,
}

impl TextScan<'_> {
    /// The piece that begins at this rest of the text, and which leaves so many brackets more open.
    fn piece(&self, rest: &str, opened: usize) -> Piece {
        let before = self.frames.len();
        Piece {
            from: self.length.saturating_sub(rest.len()),
            before,
            behind: before.saturating_add(opened),
        }
    }

    /// Begins a piece at a table, or at a key of it, if that is sought and none was begun.
    fn begin(&mut self, section: Option<Section>, key: Option<&str>, piece: Piece) {
        if self.begun.is_none() && self.sought.key == key && section == Some(self.sought.section) {
            self.begun = Some(piece);
        }
    }

    /// The table that a key leads to, from a table on. Begins a piece at its last part, if that is
    /// sought. `opens`: it opens an entry.
    fn reach(
        &mut self,
        section: Option<Section>,
        key: &Key,
        piece: Piece,
        opens: bool,
    ) -> Made<Option<Section>> {
        let mut parent = section;
        for part in &key.path {
            parent = self.headers.enter(parent, part.as_str(), false)?;
        }
        let last = key.last.as_str();
        self.begin(parent, Some(last), piece);
        self.headers.enter(parent, last, opens)
    }

    /// Notes a bracket as open, and hands on what stands behind it.
    fn open<'t>(&mut self, frame: Frame, behind: &'t str) -> Rest<'t> {
        self.frames.push(frame)?;
        Ok(behind)
    }

    /// Reads the beginning of a value, or all of it.
    fn value<'t>(&mut self, section: Option<Section>, rest: &'t str) -> Rest<'t> {
        let byte = first(rest);
        if byte == b'[' {
            return self.open(Frame::List(section), skip(rest, 1));
        }
        if byte == b'{' {
            let piece = self.piece(rest, 1);
            self.begin(section, None, piece);
            return self.open(Frame::Table(section), skip(rest, 1));
        }
        if starts_string(rest) {
            return Ok(quoted(self.alloc, rest)?.1);
        }
        Ok(unquoted(self.alloc, rest)?.1)
    }

    /// Reads a key, `=`, and the beginning of the value or all of it.
    fn member<'t>(&mut self, section: Option<Section>, rest: &'t str) -> Rest<'t> {
        let (key, after) = dotted_key(self.alloc, rest)?;
        let piece = self.piece(rest, 0);
        let inner = self.reach(section, &key, piece, false)?;
        if let Some(part) = key.path.first() {
            self.begin(section, Some(part.as_str()), piece);
        }
        if first(after) != b'=' {
            return Err(ParseError::at(ErrorKind::MissingEquals, after));
        }
        self.value(inner, skip_ws(skip(after, 1)))
    }

    /// Reads a header, behind its first bracket, which begins the piece.
    fn header<'t>(&mut self, piece: Piece, rest: &'t str) -> Rest<'t> {
        let opens = first(rest) == b'[';
        let (inner, closing) = if opens {
            (skip(rest, 1), "]]")
        } else {
            (rest, "]")
        };
        let (key, after) = dotted_key(self.alloc, skip_ws(inner))?;
        self.section = self.reach(Some(Section::Document), &key, piece, opens)?;
        if opens {
            self.begin(self.section, None, piece);
        }
        match after.strip_prefix(closing) {
            Some(behind) => Ok(behind),
            None => Err(ParseError::at(ErrorKind::UnclosedTable, after)),
        }
    }

    /// Reads the next part of the text.
    fn turn<'t>(&mut self, rest: &'t str) -> Rest<'t> {
        let byte = first(rest);
        let Some(frame) = self.frames.last().copied() else {
            if byte == b'[' {
                return self.header(self.piece(rest, 0), skip(rest, 1));
            }
            return self.member(self.section, rest);
        };
        if byte == frame.closing_byte() {
            let _ = self.frames.pop();
            return Ok(skip(rest, 1));
        }
        if byte == b',' {
            let _ = self.frames.pop();
            return self.open(frame.next(), skip(rest, 1));
        }
        match frame {
            Frame::Table(section) => self.member(section, rest),
            Frame::List(section) => self.value(section, rest),
        }
    }
}

/// The place that a scan of the text meets first for what is sought, and the brackets that are open
/// behind it.
pub(crate) fn propose(
    alloc: Global,
    text: &str,
    sought: Sought<'_>,
) -> Result<Option<(Proposal, Vec<Frame>)>, ParseError> {
    let mut scan = TextScan {
        alloc,
        sought,
        length: text.len(),
        headers: Headers {
            last: Vec::new(alloc),
        },
        section: Some(Section::Document),
        begun: None,
        frames: Vec::new(alloc),
    };
    let mut rest = text;
    for _ in 0..text.len() {
        rest = scan.turn(skip_blank(rest, true))?;
        if let Some(begun) = scan.begun
            && begun.behind == scan.frames.len()
        {
            let piece = Proposal {
                from: begun.from,
                to: text.len().saturating_sub(rest.len()),
                open: begun.before,
            };
            return Ok(Some((piece, scan.frames)));
        }
    }
    Ok(None)
}
