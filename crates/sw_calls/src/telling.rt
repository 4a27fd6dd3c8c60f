//! What a call asks to be told on standard error.
ghost use Rattle.std.specs.Prelude.{◌≡◌, option_map};
ghost use Rattle.sw_calls.specs.Telling.{hints_of, notes_of, telling_of};

use sw_args::Asked;

/// Whether hints are wanted.
#[derive(Clone, Copy)]
pub enum Hints {
    /// Where there is something to tell.
    Auto,
    /// Nowhere.
    Never,
}

/// How many notes of a kind are wanted.
#[derive(Clone, Copy)]
pub enum Notes {
    /// The first few; the others are counted.
    Few,
    /// All.
    All,
    /// None.
    Never,
}

/// What is wanted on standard error besides what each call tells there.
#[derive(Clone, Copy)]
pub struct Telling {
    /// What to do about what was found.
    pub hints: Hints,
    /// What is probably a slip.
    pub notes: Notes,
    /// Each fault that can be told, not only the first.
    pub all_faults: bool,
}

/// What was given at `--hints`: `auto`, as where it is left out, or `never`. There is no third.
fn hints_of(given: Option<&str>) -> Option<Hints>
    ensures { result ≡ hints_of (option_map (λ s. s.now) given.entry) }
{
    let Some(word) = given else {
        return Some(Hints::Auto);
    };
    if word == "auto" {
        return Some(Hints::Auto);
    }
    if word == "never" {
        return Some(Hints::Never);
    }
    None
}

/// What was given at `--notes`: `few`, as where it is left out, `all` or `never`. There is no fourth.
fn notes_of(given: Option<&str>) -> Option<Notes>
    ensures { result ≡ notes_of (option_map (λ s. s.now) given.entry) }
{
    let Some(word) = given else {
        return Some(Notes::Few);
    };
    if word == "few" {
        return Some(Notes::Few);
    }
    if word == "all" {
        return Some(Notes::All);
    }
    if word == "never" {
        return Some(Notes::Never);
    }
    None
}

/// What is wanted by these words, if each option's value is one of its values.
pub fn telling_of(asked: &Asked<'_>) -> Option<Telling>
    ensures { result ≡ telling_of (option_map (λ s. s.now) asked.now.hints) (option_map (λ s. s.now) asked.now.notes) asked.now.all_faults }
{
    let hints = hints_of(asked.hints)?;
    let notes = notes_of(asked.notes)?;
    Some(Telling {
        hints,
        notes,
        all_faults: asked.all_faults,
    })
}
