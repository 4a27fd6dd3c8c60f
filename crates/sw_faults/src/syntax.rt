//! What TOML misses in a text that is none, and what to do about it.
use crate::escaped::show;
use crate::made::Made;
use crate::unclosed::unclosed_help;
use std::alloc::{AllocError, Global};
use sw_text::TextFault;
use toml::de::Error;
use toml_parser::ErrorKind;

/// Why a text is no TOML, if that is its fault.
///
/// # Errors
///
/// There is no memory to read the text once more.
pub(crate) fn syntax_error(alloc: Global, text: &[u8], fault: &TextFault) -> Made<Option<Error>> {
    let TextFault::Syntax = fault else {
        return Ok(None);
    };
    match toml::table_from_slice(alloc, text) {
        Ok(_) => Ok(None),
        Err(error) if error.is_memory() => Err(AllocError),
        Err(error) => Ok(Some(error)),
    }
}

/// What TOML misses, in its reader's words.
pub(crate) fn missed_text(alloc: Global, error: &Error) -> Made<String> {
    error.message().replace(alloc, '`', "'")
}

/// What a text is in the place of TOML, if its first bytes tell.
fn form_words(text: &[u8]) -> Option<&'static str> {
    match text {
        [0xFF, 0xFE, ..] | [0xFE, 0xFF, ..] | [_, 0, _, 0, ..] | [0, _, 0, _, ..] => {
            Some("the text is UTF-16: save it as UTF-8")
        }
        _ if text.trim_ascii_start().starts_with(b"{") => {
            Some("this is JSON: a network file is TOML, and so is a load")
        }
        _ => None,
    }
}

/// What to do about a header, with which this rest of the text begins, for a list that is written
/// in brackets.
fn header_words(error: &Error, rest: &[u8]) -> Option<&'static str> {
    let message = error.message();
    let is_taken = message == ErrorKind::Extend.description()
        || message == ErrorKind::DuplicateKey.description();
    (is_taken && rest.starts_with(b"[[")).then_some(
        "a list written in [ ] gets no more entries from a header: write all of them in [ ], or all below headers",
    )
}

/// Does a byte belong to a number, or to a word like one?
fn is_of_word(byte: u8) -> bool {
    byte.is_ascii_alphanumeric() || byte == b'_'
}

/// The digits of a hexadecimal number which is not written as TOML does, if the text begins so.
fn misspelt_digits(rest: &[u8]) -> Option<&[u8]> {
    let word = rest.split(|byte| !is_of_word(*byte)).next()?;
    let begun = word.strip_prefix(b"0X");
    let digits = begun
        .or(word.strip_suffix(b"h"))
        .or(word.strip_suffix(b"H"))?;
    let is_number = word.first()?.is_ascii_digit()
        && !digits.is_empty()
        && digits.iter().all(|digit| digit.is_ascii_hexdigit());
    is_number.then_some(digits)
}

/// What to do about a text that is no TOML; nothing where there is no more to say.
///
/// # Errors
///
/// There is no memory for the text.
pub(crate) fn syntax_help(alloc: Global, text: &[u8], error: &Error) -> Made<String> {
    let start = match error.span() {
        Some(span) => span.start,
        None => 0,
    };
    let place = start.min(text.len());
    let rest = &text[place..];
    if let Some(words) = form_words(text).or(header_words(error, rest)) {
        return String::from_str(alloc, words);
    }
    match misspelt_digits(rest) {
        Some(digits) => {
            let digits = show(alloc, digits)?;
            format!(in alloc; "a hexadecimal number begins with a lower-case 0x: write 0x{digits}")
        }
        None if error.message() == ErrorKind::Recursion.description() => Ok(String::new(alloc)),
        None => unclosed_help(alloc, text, place),
    }
}
