//! The text that is most like another one.
ghost use Rattle.std.specs.Prelude.{◌≡◌, IfOk, find, map, option_map};
ghost use Rattle.sw_faults.specs.Nearest.{is_near, like};

use std::alloc::{AllocError, Global};
use strsim::levenshtein;

/// The most bytes of a name that is compared: no key and no name has so many.
const MOST_COMPARED: usize = 64;

/// Whether so many single changes lead from one text to the other, and not all of the text is changed.
fn is_near(alloc: Global, name: &str, count: usize, text: &str) -> Result<bool, AllocError>
    ensures { IfOk result (λ b. b ≡ is_near name.now count text.now) }
{
    if count >= name.len() {
        return Ok(false);
    }
    if name.len() > MOST_COMPARED {
        return Ok(false);
    }
    Ok(levenshtein(alloc, name, text)? == count)
}

/// The first of the texts that is at this distance.
fn first_at<'a>(
    alloc: Global,
    name: &str,
    texts: &[&'a str],
    count: usize,
) -> Result<Option<&'a str>, AllocError>
    ensures { IfOk result (λ o. option_map (λ t. t.now) o ≡ find (is_near name.now count) (map (λ t. t.now) texts.now)) }
{
    for text in texts {
        if is_near(alloc, name, count, text)? {
            return Ok(Some(text));
        }
    }
    Ok(None)
}

/// The text that was meant, maybe: the first that differs by the case of its letters alone, or else the first that one change leads to, or
/// else two.
///
/// # Errors
///
/// There is no memory to compare them.
pub fn like<'a>(alloc: Global, name: &str, texts: &[&'a str]) -> Result<Option<&'a str>, AllocError>
    ensures { IfOk result (λ o. option_map (λ t. t.now) o ≡ like name.now (map (λ t. t.now) texts.now)) }
{
    for text in texts {
        if text.eq_ignore_ascii_case(name) {
            return Ok(Some(text));
        }
    }
    match first_at(alloc, name, texts, 1)? {
        Some(text) => Ok(Some(text)),
        None => first_at(alloc, name, texts, 2),
    }
}

/// The text that was meant, maybe, as words; nothing where none is like the name.
///
/// # Errors
///
/// There is no memory for the text, or to compare them.
pub fn meant_help(alloc: Global, name: &str, texts: &[&str]) -> Result<String, AllocError> {
    match like(alloc, name, texts)? {
        Some(text) => format!(in alloc; "did you mean '{text}'?"),
        None => Ok(String::new(alloc)),
    }
}
