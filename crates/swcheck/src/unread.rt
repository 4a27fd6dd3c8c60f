//! Why a file can't be read or written, as the system tells it. It decides nothing.
use crate::noting_writer::{Failed, STANDARD_OUTPUT};
use crate::told::tell_text;
use std::alloc::{AllocError, Global};
use std::fs;
use std::io::{self, ErrorKind, Read};
use std::rt::Files;
use sw_faults::Hint;

/// The system's reason, in words.
fn reason_of(kind: ErrorKind) -> &'static str {
    match kind {
        ErrorKind::NotFound => "no such file",
        ErrorKind::PermissionDenied => "permission denied",
        ErrorKind::IsADirectory => "is a directory",
        ErrorKind::NotADirectory => "a part of the path is not a directory",
        ErrorKind::InvalidFilename => "the name is too long",
        ErrorKind::InvalidInput => "no file can have this name",
        ErrorKind::FilesystemLoop => "too many symbolic links",
        ErrorKind::StaleNetworkFileHandle => "the file is gone from its server",
        ErrorKind::TimedOut => "timed out",
        ErrorKind::Interrupted => "interrupted",
        ErrorKind::ResourceBusy | ErrorKind::ExecutableFileBusy => "in use",
        ErrorKind::WouldBlock => "nothing to read yet",
        ErrorKind::OutOfMemory => "out of memory",
        ErrorKind::Unsupported | ErrorKind::NotSeekable => "can't be read like a file",
        ErrorKind::FileTooLarge => "too large",
        ErrorKind::StorageFull | ErrorKind::QuotaExceeded => "no room left",
        ErrorKind::ReadOnlyFilesystem => "can't be written",
        ErrorKind::BrokenPipe => "nothing reads it",
        ErrorKind::WriteZero => "nothing was written",
        ErrorKind::ConnectionRefused
        | ErrorKind::ConnectionReset
        | ErrorKind::HostUnreachable
        | ErrorKind::NetworkUnreachable
        | ErrorKind::ConnectionAborted
        | ErrorKind::NotConnected
        | ErrorKind::AddrInUse
        | ErrorKind::AddrNotAvailable
        | ErrorKind::NetworkDown
        | ErrorKind::AlreadyExists
        | ErrorKind::DirectoryNotEmpty
        | ErrorKind::InvalidData
        | ErrorKind::Deadlock
        | ErrorKind::CrossesDevices
        | ErrorKind::TooManyLinks
        | ErrorKind::ArgumentListTooLong
        | ErrorKind::UnexpectedEof
        | ErrorKind::InProgress
        | ErrorKind::Other
        | ErrorKind::Uncategorized => "the system reports some other error",
    }
}

/// The reason why what goes by this name can't be read or written.
fn reason_for(path: &str, kind: ErrorKind) -> &'static str {
    match kind {
        ErrorKind::NotFound if path == "-" => { "no such file; for standard input use /dev/stdin" }
        ErrorKind::Other | ErrorKind::Uncategorized if path == STANDARD_OUTPUT => {
            "can't be written; it may be closed"
        }
        kind => reason_of(kind),
    }
}

/// Why no certificate can be kept in this folder, as far as that is known: it is not there, or is none.
pub(crate) fn folder_fault<R: Files>(rt: &R, path: &str) -> Option<&'static str> {
    match fs::metadata(rt, path) {
        Ok(known) if known.is_dir() => None,
        Ok(_) => Some("is not a directory"),
        Err(error) => match error.kind() {
            ErrorKind::NotFound => Some("no such directory"),
            kind => Some(reason_of(kind)),
        },
    }
}

/// The path, and the reason.
fn unread_text(alloc: Global, path: &str, kind: ErrorKind) -> Result<String, AllocError> {
    let reason = String::from_str(alloc, reason_for(path, kind))?;
    Hint::new(alloc, reason).text(alloc, path)
}

/// Why a file or a folder can't be read, if it can't: it is opened once more, and a byte of it is read. A pipe is not asked: it would lose
/// the byte, or have none yet.
pub(crate) fn read_failure<'a, R: Files>(rt: &R, path: &'a str) -> Option<Failed<'a>> {
    let known = match fs::metadata(rt, path) {
        Ok(known) => known,
        Err(error) => return Some(Failed {
            path,
            kind: error.kind(),
        }),
    };
    if !known.is_file() && !known.is_dir() {
        return None;
    }
    let mut reader = match fs::open(rt, path) {
        Ok(reader) => reader,
        Err(error) => return Some(Failed {
            path,
            kind: error.kind(),
        }),
    };
    let mut byte = [0];
    match reader.read(&mut byte) {
        Ok(_) => None,
        Err(error) => Some(Failed {
            path,
            kind: error.kind(),
        }),
    }
}

/// Tells what could not be read or written, and why, as far as that is known.
pub(crate) fn tell_failed<R: Eprint + AllocGlobal>(rt: &R, failed: Option<Failed<'_>>) {
    if let Some(failed) = failed {
        let text = unread_text(rt.alloc(), failed.path, failed.kind).ok();
        tell_text(rt, text.as_deref());
    }
}
