//! Why words are refused, as clap says it, and more.
use std::alloc::{AllocError, Global};
use sw_args::commands_with;

/// What clap's lines begin with that tell what to do.
const TIP: &str = "  tip: ";

/// What clap says in such a line of similar subcommands, the nearest one last.
const SIMILAR: &str = "some similar subcommands exist: ";

/// The option that is refused, without its dashes, if one is.
fn refused_option(text: &str) -> Option<&str> {
    let rest = text.strip_prefix("error: unexpected argument '")?;
    let (word, _) = rest.split_once("' found")?;
    word.strip_prefix("--")
}

/// The tip on an option of other commands; none where no command has it.
fn option_tip(alloc: Global, text: &str) -> Result<Option<String>, AllocError> {
    let Some(option) = refused_option(text) else {
        return Ok(None);
    };
    let names = commands_with(alloc, option)?;
    if names.is_empty() {
        return Ok(None);
    }
    let names = names.join(alloc, ", ")?;
    Ok(Some(format!(in alloc; "{TIP}--{option} is an option of {names}\n")?))
}

/// Names with a comma between each two, in the other order.
fn in_reverse(alloc: Global, names: &str) -> Result<String, AllocError> {
    let mut text = String::new(alloc);
    for name in names.rsplit(", ") {
        if !text.is_empty() {
            text.push_str(", ")?;
        }
        text.push_str(name)?;
    }
    Ok(text)
}

/// What is told in the place of a line of clap's: the nearest subcommand first, and one tip alone on an option of other commands.
fn retold_line(alloc: Global, line: &str, option_tip: Option<&str>) -> Result<String, AllocError> {
    match (line.strip_prefix(TIP), option_tip) {
        (Some(_), Some(tip)) => String::from_str(alloc, tip),
        (Some(tip), None) => match tip.strip_prefix(SIMILAR) {
            Some(names) => {
                let names = in_reverse(alloc, names)?;
                format!(in alloc; "{TIP}{SIMILAR}{names}\n")
            }
            None => format!(in alloc; "{line}\n"),
        },
        (None, _) => format!(in alloc; "{line}\n"),
    }
}

/// Why words are refused, by what clap says of it. Of an option that other commands have these are told, in the place of a tip to pass it as a
/// value, and of subcommands that are similar the nearest one first.
///
/// # Errors
///
/// There is no memory for the text.
pub(crate) fn refusal_text(alloc: Global, text: &str) -> Result<String, AllocError> {
    let option_tip = option_tip(alloc, text)?;
    let mut retold = String::new(alloc);
    for line in text.lines() {
        let line = retold_line(alloc, line, option_tip.as_deref())?;
        retold.push_str(line.as_str())?;
    }
    Ok(retold)
}
