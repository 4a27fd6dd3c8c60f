//! The words of the command line.
ghost use Rattle.std.specs.Prelude.{◌≡◌, map, option_map, slice_get, IfErr, IfOk};
ghost use Rattle.clap.specs.Words.{HasKind, fault_of, kind_of};
ghost use Rattle.sw_args.specs.CommandLine.{IsToldAs, swcheck_app};
ghost use Rattle.sw_args.specs.Parts.{HasFound, subcommand_app, subcommand_apps};

use crate::call::WordsFault;
use crate::parts::{CommandPart, Subcommand, Takes, subcommand_of};
use crate::release::RELEASE;
use clap::error::ErrorKind;
use clap::{ArgMatches, Command};
use std::alloc::{AllocError, Global};

/// The most threads that `run` may be asked for.
const MOST_WORKERS: u32 = 64;

/// The most steps that `run` may be asked for.
const MOST_STEPS: u32 = 16_777_216;

/// The most tries of a search.
const MOST_TRIES: u32 = 1_000_000;

/// The greatest number that a search may begin with.
const MOST_SEED: u32 = 4_294_967_295;

/// A network file, which must be given.
const FILE: CommandPart = ("FILE", Takes::Value, "A network file");

/// The answer as an object of JSON.
const JSON: CommandPart = ("json", Takes::Flag, "Print the answer as one JSON object");

/// The subcommands, each by itself: what a table costs to prove grows faster than the square of its rows.
const ROUTE: &Subcommand = &Subcommand {
    name: "route",
    about: "Print the places of a flow; 'routed' means: packets that arrive do so correctly, but some may circle",
    example: "Example: swcheck route examples/line.toml f",
    parts: &[
        FILE,
        (
            "FLOW",
            Takes::Value,
            "The name of a flow, or NAME+reply for its replies",
        ),
        JSON,
    ],
};

const DECIDE: &Subcommand = &Subcommand {
    name: "decide",
    about: "Print a certificate that a network never locks up, or why there is none",
    example: "Example: swcheck decide examples/ring.toml",
    parts: &[FILE, JSON],
};

const CHECK: &Subcommand = &Subcommand {
    name: "check",
    about: "Check a certificate that a network never locks up",
    example: "Example: swcheck check examples/turn.toml examples/turn.cert",
    parts: &[FILE, ("CERT", Takes::Value, "A certificate file"), JSON],
};

const REPORT: &Subcommand = &Subcommand {
    name: "report",
    about: "Print the size of a network, and the verdict on it",
    example: "Example: swcheck report examples/ring.toml",
    parts: &[FILE, JSON],
};

const REPLAY: &Subcommand = &Subcommand {
    name: "replay",
    about: "Carry out the steps of a schedule, and print the result",
    example: "Example: swcheck replay examples/line.toml examples/line.schedule",
    parts: &[FILE, ("SCHEDULE", Takes::Value, "A schedule file"), JSON],
};

const RUN: &Subcommand = &Subcommand {
    name: "run",
    about: "Send the packets of a load through a network, and print the result",
    example: "Example: swcheck run examples/turn.toml examples/turn.load",
    parts: &[
        FILE,
        ("LOAD", Takes::Value, "A load file"),
        (
            "workers",
            Takes::Count("4", MOST_WORKERS),
            "How many threads to use, 1 to 64",
        ),
        (
            "limit",
            Takes::Count("1000000", MOST_STEPS),
            "How many steps to make at most, 1 to 16777216",
        ),
        (
            "schedule",
            Takes::Text,
            "A file to write the steps to, as a schedule",
        ),
        (
            "summary",
            Takes::Flag,
            "Print on standard error what became of each flow's packets",
        ),
        JSON,
    ],
};

const MIGRATE: &Subcommand = &Subcommand {
    name: "migrate",
    about: "Print a network file of version 1 as one of version 2",
    example: "Example: swcheck migrate examples/ring.toml",
    parts: &[FILE],
};

const EXPLAIN: &Subcommand = &Subcommand {
    name: "explain",
    about: "Print in words why a network can lock up, or that it never does",
    example: "Example: swcheck explain examples/ring.toml",
    parts: &[
        FILE,
        (
            "all",
            Takes::Flag,
            "For each step, name all flows that make it, not just six",
        ),
        JSON,
    ],
};

const DRAW: &Subcommand = &Subcommand {
    name: "draw",
    about: "Print a drawing of a network, in Graphviz's DOT language",
    example: "Example: swcheck draw examples/ring.toml --cycle",
    parts: &[
        FILE,
        ("flow", Takes::Text, "A flow whose places are drawn bold"),
        (
            "cycle",
            Takes::Flag,
            "Draw the first shortest cycle in red, with its steps numbered",
        ),
        (
            "numbers",
            Takes::Flag,
            "Show each channel's number in the certificate, if the network never locks up",
        ),
    ],
};

const RMAP: &Subcommand = &Subcommand {
    name: "rmap",
    about: "Print the load entry that sends an RMAP command along a flow",
    example: "Example: swcheck rmap examples/rmap.toml w read 0xA0000000 16",
    parts: &[
        FILE,
        ("FLOW", Takes::Value, "The name of a flow to a target"),
        ("ACTION", Takes::Value, "read or write"),
        (
            "ADDRESS",
            Takes::Value,
            "The first address, decimal or hexadecimal with 0x",
        ),
        (
            "VALUE",
            Takes::Value,
            "How many bytes to read, or the bytes to write, as pairs of hexadecimal digits",
        ),
        ("no-ack", Takes::Flag, "Do not ask for a reply to a write"),
        (
            "transaction",
            Takes::Text,
            "The transaction identifier, 0 to 65535; 0 if left out",
        ),
    ],
};

const MEND: &Subcommand = &Subcommand {
    name: "mend",
    about: "Print each single change that makes a network free, or that there is none",
    example: "Example: swcheck mend examples/ring.toml",
    parts: &[
        FILE,
        (
            "pairs",
            Takes::Flag,
            "If no single change frees it, except taking out all flows of a node, print each pair that does",
        ),
        JSON,
    ],
};

const MARGIN: &Subcommand = &Subcommand {
    name: "margin",
    about: "Print how far the premises of a network can be relaxed while it still never locks up",
    example: "Example: swcheck margin examples/turn.toml",
    parts: &[FILE, JSON],
};

const WITNESS: &Subcommand = &Subcommand {
    name: "witness",
    about: "Look for a schedule of steps that locks a network up, and print it",
    example: "Example: swcheck witness examples/ring.toml",
    parts: &[
        FILE,
        (
            "tries",
            Takes::Count("200", MOST_TRIES),
            "How often to try, 1 to 1000000",
        ),
        (
            "seed",
            Takes::Count("1", MOST_SEED),
            "The seed of the random choices, 1 to 4294967295",
        ),
    ],
};

const AUDIT: &Subcommand = &Subcommand {
    name: "audit",
    about: "Print the verdicts on many networks",
    example: "Example: swcheck audit --json examples/*.toml",
    parts: &[
        ("FILE", Takes::Values, "A network file, or several"),
        JSON,
        (
            "quiet",
            Takes::Flag,
            "Print only files whose network is not free",
        ),
        (
            "certificates",
            Takes::Text,
            "A directory for the certificates of free networks",
        ),
    ],
};

const INIT: &Subcommand = &Subcommand {
    name: "init",
    about: "Print a sample network file: the bus, if no NAME is given",
    example: "Example: swcheck init",
    parts: &[(
        "NAME",
        Takes::Optional,
        "bus, ring, housekeeping, regions or limits",
    )],
};

/// The subcommand at a place of the help.
fn subcommand_at(place: usize) -> Option<&'static Subcommand>
    ensures { option_map (λ row. subcommand_app row.now) result ≡ slice_get subcommand_apps place }
{
    match place {
        0 => Some(ROUTE),
        1 => Some(DECIDE),
        2 => Some(CHECK),
        3 => Some(REPORT),
        4 => Some(REPLAY),
        5 => Some(RUN),
        6 => Some(MIGRATE),
        7 => Some(EXPLAIN),
        8 => Some(DRAW),
        9 => Some(RMAP),
        10 => Some(MEND),
        11 => Some(MARGIN),
        12 => Some(WITNESS),
        13 => Some(AUDIT),
        14 => Some(INIT),
        _ => None,
    }
}

/// No command has so many subcommands.
const MOST_SUBCOMMANDS: usize = 64;

/// Has the subcommand an option of this name?
fn has_option(subcommand: &Subcommand, name: &str) -> bool {
    subcommand.parts.iter().any(|(part, takes, _help)| {
        *part == name && matches!(takes, Takes::Count(..) | Takes::Flag | Takes::Text)
    })
}

/// The names of the subcommands that have an option of this name, without its dashes.
///
/// # Errors
///
/// There is no memory for the list.
pub fn commands_with(alloc: Global, option: &str) -> Result<Vec<&'static str>, AllocError> {
    let mut names = Vec::new(alloc);
    for place in 0..MOST_SUBCOMMANDS {
        if let Some(subcommand) = subcommand_at(place)
            && has_option(subcommand, option)
        {
            names.push(subcommand.name)?;
        }
    }
    Ok(names)
}

const NO_WORDS: &[&str] = &[];

/// What clap finds in the words, or its error.
pub(crate) fn found_in<'a>(
    alloc: Global,
    words: &'a [&'a str],
) -> Result<ArgMatches<'a>, clap::Error>
    ensures found { IfOk result (λ matches. HasFound (map (λ s. s.now) words.entry.now) matches) }
    ensures kinds { IfErr result (HasKind (fault_of swcheck_app (map (λ s. s.now) words.entry.now))) }
{
    let mut command = Command::new(alloc, "swcheck")
        .about("Checks SpaceWire networks")
        .version(RELEASE)
        .subcommand_required(true);
    let mut place = 0;
    while let Some(row) = subcommand_at(place) {
        match subcommand_of(alloc, row) {
            Ok(subcommand) => command = command.subcommand(subcommand)?,
            Err(refused) => {
                // By its own parse clap lets a command go: so no drop of one is proved here.
                drop(command.try_get_matches_from(NO_WORDS));
                return Err(refused.into());
            }
        }
        place += 1;
    }
    command.try_get_matches_from(words)
}

/// How an error of clap's is told. That of a growth that was refused is told as any other such.
pub(crate) fn fault_of(alloc: Global, error: &clap::Error) -> WordsFault
    ensures { IsToldAs (kind_of error.now) result }
{
    if error.kind() == ErrorKind::OutOfMemory {
        return WordsFault::Memory;
    }
    let Ok(text) = error.to_string(alloc) else {
        return WordsFault::Memory;
    };
    if error.use_stderr() {
        WordsFault::Refused(text)
    } else {
        WordsFault::Help(text)
    }
}
