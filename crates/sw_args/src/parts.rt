//! A command by a table of its words and options.
ghost use Rattle.std.specs.Prelude.{◌≡◌, false, pos, IfOk};
ghost use Rattle.clap.specs.declared.builder.value_parser.ValueParser.TheVariants.{Signed};
ghost use Rattle.clap.specs.Words.{rule_of};
ghost use Rattle.sw_args.specs.CommandLine.{IsMade};
ghost use Rattle.sw_args.specs.Parts.{part_rule, subcommand_app};

use clap::builder::ValueParser;
use clap::{Arg, ArgAction, Command};
use std::alloc::{AllocError, Global};

/// What a word or an option of a command takes.
#[derive(Clone, Copy)]
pub(crate) enum Takes {
    /// A value that must be given.
    Value,
    /// Values of which one or more must be given.
    Values,
    /// A value that may be left out.
    Optional,
    /// An option's number, from 1 up to the most; the usual one, in decimal digits, if it is left out.
    Count(&'static str, u32),
    /// Nothing: the option is given or not.
    Flag,
    /// An option's value, any text, which may be left out.
    Text,
}

/// A word or an option of a command: its name, what it takes, and what it is for.
pub(crate) type CommandPart = (&'static str, Takes, &'static str);

/// A subcommand: its name, what it does, an example of its use, and its words and options.
pub(crate) struct Subcommand {
    pub name: &'static str,
    pub about: &'static str,
    pub example: &'static str,
    pub parts: &'static [CommandPart],
}

/// Whether to tell what to do.
const HINTS: CommandPart = (
    "hints",
    Takes::Text,
    "auto: print on standard error what to do about what was found; never: print no hints or notes",
);

/// How many notes to tell.
const NOTES: CommandPart = (
    "notes",
    Takes::Text,
    "few: print three notes of each kind, and count the others; all: print all; never: print none",
);

/// Whether to tell each fault.
const ALL_FAULTS: CommandPart = (
    "all-faults",
    Takes::Flag,
    "Print on standard error every fault that can be found, not only the first",
);

/// A number from 1 up to the most.
fn count_parser<'a>(most: u32) -> ValueParser<'a>
    ensures { result ≡ Signed (pos 1) (pos most) }
{
    clap::value_parser!(u32).range(1..=i64::from(most))
}

/// The argument that the part is.
fn arg_of<'a>(alloc: Global, part: CommandPart) -> Arg<'a>
    ensures { (rule_of result ≡ part_rule part.entry) × (result.global ≡ false) }
{
    let (name, takes, help) = part;
    let arg = Arg::new(alloc, name).help(help);
    match takes {
        Takes::Value => arg.required(true),
        Takes::Values => arg.required(true).action(ArgAction::Append),
        Takes::Optional => arg,
        Takes::Count(usual, most) => arg
            .long(name)
            .value_parser(count_parser(most))
            .default_value(usual),
        Takes::Flag => arg.long(name).action(ArgAction::SetTrue),
        Takes::Text => arg.long(name),
    }
}

/// The subcommand, with the options that each has behind its own: what is told on standard error.
pub(crate) fn subcommand_of<'a>(
    alloc: Global,
    subcommand: &Subcommand,
) -> Result<Command<'a>, AllocError>
    ensures { IfOk result (IsMade (subcommand_app subcommand.now)) }
{
    let mut command = Command::new(alloc, subcommand.name)
        .about(subcommand.about)
        .after_help(subcommand.example);
    for part in subcommand.parts {
        command = command.arg(arg_of(alloc, *part))?;
    }
    let hinting = command.arg(arg_of(alloc, HINTS))?;
    let noting = hinting.arg(arg_of(alloc, NOTES))?;
    noting.arg(arg_of(alloc, ALL_FAULTS))
}
