//! Hints: what is said, for a person, of a fault of a text or of how a call ended.
ghost use Rattle.std.specs.Prelude.{◌≡◌, None};

use crate::escaped::show;
use std::alloc::{AllocError, Global};

/// What is said, for a person, of a fault of a text or of how a call ended. Of a part that is empty nothing is said.
#[derive(Drop)]
pub struct Hint {
    /// The line that it is about, counted from 1, if it is about one.
    pub line: Option<usize>,
    /// The column in that line, in bytes and counted from 1, if that is known.
    pub column: Option<usize>,
    /// What is the matter.
    pub what: String,
    /// What there is to see: a way, or what holds what, step by step.
    pub steps: Vec<String>,
    /// What stands there.
    pub found: String,
    /// What would be right.
    pub expected: String,
    /// What to do.
    pub help: String,
    /// What else has to do with it.
    pub notes: Vec<String>,
}

impl Hint {
    /// A hint that says what is the matter, and no more.
    pub fn new(alloc: Global, what: String) -> Hint
        ensures line { result.line ≡ None }
        ensures column { result.column ≡ None }
    {
        Hint {
            line: None,
            column: None,
            what,
            steps: Vec::new(alloc),
            found: String::new(alloc),
            expected: String::new(alloc),
            help: String::new(alloc),
            notes: Vec::new(alloc),
        }
    }

    /// The hint as lines, each with its end, of what goes by this name.
    ///
    /// # Errors
    ///
    /// There is no memory for the text.
    pub fn text(&self, alloc: Global, name: &str) -> Result<String, AllocError> {
        let head = self.head(alloc, name)?;
        let steps = self.steps.concat(alloc)?;
        let found = line_of(alloc, "found", self.found.as_str())?;
        let expected = line_of(alloc, "expected", self.expected.as_str())?;
        let help = line_of(alloc, "help", self.help.as_str())?;
        let notes = note_lines(alloc, &self.notes)?;
        format!(in alloc; "{head}{steps}{found}{expected}{help}{notes}")
    }

    /// Where, and what is the matter.
    fn head(&self, alloc: Global, name: &str) -> Result<String, AllocError> {
        let name = show(alloc, name.as_bytes())?;
        let what = show(alloc, self.what.as_bytes())?;
        match (self.line, self.column) {
            (Some(line), Some(column)) => format!(in alloc; "{name}:{line}:{column}: {what}\n"),
            (Some(line), None) => format!(in alloc; "{name}:{line}: {what}\n"),
            _ => format!(in alloc; "{name}: {what}\n"),
        }
    }
}

/// An indented line, none where there is nothing to say.
fn line_of(alloc: Global, name: &str, words: &str) -> Result<String, AllocError> {
    if words.is_empty() {
        return Ok(String::new(alloc));
    }
    let words = show(alloc, words.as_bytes())?;
    format!(in alloc; "  {name}: {words}\n")
}

fn note_lines(alloc: Global, notes: &[String]) -> Result<String, AllocError> {
    let mut lines = String::new(alloc);
    for note in notes {
        lines.push_str(line_of(alloc, "note", note.as_str())?.as_str())?;
    }
    Ok(lines)
}
