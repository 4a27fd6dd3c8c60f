//! The words that a program was given, and what they ask for. Where they ask for no call, that is told, and the status is given to end with.
ghost use Rattle.std.specs.Prelude.{◌≡◌, ◌⊎◌, IfErr, IfOk, map, string_bytes};
ghost use Rattle.sw_args.specs.CommandLine.{Gives, HasWorkers};
ghost use Rattle.sw_calls.specs.Given.{EndsRefused};

use crate::told::{tell_refused, tell_words_fault};
use std::rt::Env;
use std::{env, io};
use sw_args::{Asked, WordsFault, words};

/// The words that the program was given, its name first.
///
/// # Errors
///
/// A word is no text, or there is no memory for them.
pub fn given_texts<R: Env + Print + Eprint + AllocGlobal>(rt: &R) -> Result<Vec<String>, u8>
    ensures { IfErr result (λ status. (status ≡ 2) ⊎ ((status ≡ 5) ⊎ (status ≡ 6))) }
{
    let given = match env::args(rt) {
        Ok(given) => given,
        Err(error) if error.kind() == io::ErrorKind::OutOfMemory => return Err(tell_words_fault(
            rt,
            &WordsFault::Memory,
        )),
        Err(_) => return Err(tell_refused(rt, "the arguments are not UTF-8 text").status()),
    };
    match given.collect::<Vec<String>>(rt.alloc()) {
        Ok(texts) => Ok(texts),
        Err(_) => Err(tell_words_fault(rt, &WordsFault::Memory)),
    }
}

/// The texts' words, as they are read.
///
/// # Errors
///
/// There is no memory for them.
pub fn given_words<'a, R: Print + Eprint + AllocGlobal>(
    rt: &R,
    texts: &'a [String],
) -> Result<Vec<&'a str>, u8>
    ensures words { IfOk result (λ words. map (λ s. s.now) words.items ≡ map string_bytes texts.entry.now) }
    ensures fault { IfErr result (λ status. (status ≡ 5) ⊎ (status ≡ 6)) }
{
    let mut words = Vec::new(rt.alloc());
    for text in texts {
        let Ok(()) = words.push(text.as_str()) else {
            return Err(tell_words_fault(rt, &WordsFault::Memory));
        };
    }
    Ok(words)
}

/// What the words ask for; they begin with the program's name.
///
/// # Errors
///
/// They ask for help, something is wrong with them, or there is no memory to read them.
pub fn given_call<'a, R: Print + Eprint + AllocGlobal>(
    rt: &R,
    given: &'a [&'a str],
) -> Result<Asked<'a>, u8>
    ensures call { IfOk result (Gives (map (λ s. s.now) given.entry.now)) }
    ensures workers { IfOk result (λ asked. HasWorkers asked.call) }
    ensures fault { IfErr result (EndsRefused (map (λ s. s.now) given.entry.now)) }
{
    match words(rt.alloc(), given) {
        Ok(asked) => Ok(asked),
        Err(fault) => Err(tell_words_fault(rt, &fault)),
    }
}
