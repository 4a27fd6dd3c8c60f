//! A writer that remembers why a write failed.
ghost use Rattle.std.specs.Prelude.{◌≡◌};

use std::io::{self, ErrorKind, Write};

/// What standard output goes by.
pub(crate) const STANDARD_OUTPUT: &str = "standard output";

/// What could not be read or written, and why.
#[derive(Clone, Copy)]
pub(crate) struct Failed<'a> {
    pub(crate) path: &'a str,
    pub(crate) kind: ErrorKind,
}

/// A writer to what goes by this name. It writes as the one in it does.
#[derive(Drop)]
pub(crate) struct NotingWriter<'a, W> {
    writer: W,
    path: &'a str,
    /// What could not be written last.
    pub(crate) unwritten: Option<Failed<'a>>,
}

impl<'a, W: Write> NotingWriter<'a, W> {
    pub(crate) fn new(path: &'a str, writer: W) -> NotingWriter<'a, W>
        ensures { W.contents result.writer ≡ W.contents writer }
    {
        NotingWriter {
            writer,
            path,
            unwritten: None,
        }
    }
}

impl<W: Write> Write for NotingWriter<'_, W> {
    ghost contents = { λ s. W.contents s.writer };

    fn write(&mut self, buf: &[u8]) -> io::Result<usize> {
        let written = self.writer.write(buf);
        if let Err(error) = &written {
            let kind = error.kind();
            self.unwritten = Some(Failed {
                path: self.path,
                kind,
            });
        }
        written
    }

    fn flush(&mut self) -> io::Result<()> {
        self.writer.flush()
    }
}
