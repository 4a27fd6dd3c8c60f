//! Texts read and written whole, also where a call fails.
ghost use Rattle.std.specs.Prelude.{Some};

use std::alloc::Global;
use std::io;
use std::io::{Read, Write};
use sw_text::{ReadError, WriteError, read_whole, write_whole};

/// Gives one byte a call, and fails at one call alone, the one after `before_fault` of them.
#[derive(Drop)]
struct FailingReader {
    before_fault: usize,
}

impl Read for FailingReader {
    fn read(&mut self, buf: &mut [u8]) -> io::Result<usize> {
        if self.before_fault == 0 {
            self.before_fault = usize::MAX;
            return Err(io::Error::from(io::ErrorKind::Interrupted));
        }
        self.before_fault -= 1;
        let Some(first) = buf.first_mut() else {
            return Ok(0);
        };
        *first = b'a';
        Ok(1)
    }
}

/// Takes one byte a call, and after `room` of them fails at one call, by an error or by taking none.
#[derive(Drop)]
struct SlowWriter {
    taken: Vec<u8>,
    room: usize,
    takes_none: bool,
}

impl Write for SlowWriter {
    ghost contents = { λ s. Some s.taken.items };

    fn write(&mut self, buf: &[u8]) -> io::Result<usize> {
        if self.taken.len() == self.room {
            self.room = usize::MAX;
            if self.takes_none {
                return Ok(0);
            }
            return Err(io::Error::from(io::ErrorKind::Interrupted));
        }
        let Some(first) = buf.first() else {
            return Ok(0);
        };
        self.taken.push(*first)?;
        Ok(1)
    }

    fn flush(&mut self) -> io::Result<()> {
        Ok(())
    }
}

/// A text up to its limit is read.
pub(crate) fn are_read(alloc: Global) -> bool {
    for limit in 0..8usize {
        let mut reader = &b"abcd"[..];
        let wanted = if limit < 4 {
            Err(&ReadError::TooLong)
        } else {
            Ok(&b"abcd"[..])
        };
        let text = read_whole(alloc, &mut reader, limit);
        if text.as_deref() != wanted || reader.len() != 3usize.saturating_sub(limit) {
            return false;
        }
    }
    true
}

/// A read that fails is not tried again.
pub(crate) fn fail_once(alloc: Global) -> bool {
    for before_fault in 0..20usize {
        let mut reader = FailingReader { before_fault };
        let text = read_whole(alloc, &mut reader, 40);
        if text.as_deref() != Err(&ReadError::Failed) {
            return false;
        }
    }
    true
}

const TEXT: &[u8] = b"place 0 0 A>B\n";

/// A writer with so much room takes the text, or a write that fails leaves a beginning.
pub(crate) fn are_begun(alloc: Global) -> bool {
    for room in 0..TEXT.len() + 2 {
        for &takes_none in &[false, true] {
            let mut writer = SlowWriter {
                taken: Vec::new(alloc),
                room,
                takes_none,
            };
            let is_whole = write_whole(TEXT, &mut writer).is_ok();
            let wanted = (TEXT.len() <= room, &TEXT[..TEXT.len().min(room)]);
            if (is_whole, writer.taken.as_slice()) != wanted {
                return false;
            }
        }
    }
    true
}
