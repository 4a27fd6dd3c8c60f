//! What the words ask for.
ghost use Rattle.std.specs.Prelude.{◌≡◌, map, IfOk, IfErr};
ghost use Rattle.clap.specs.Words.{found_of, rows_of, subcommand_rows_of};
ghost use Rattle.sw_args.specs.declared.call.WordsFault.TheVariants.{Memory};
ghost use Rattle.sw_args.specs.CommandLine.{Gives, HasCall, IsCallOf, IsMatched, IsOther, MeetsCall, Refuses};

use crate::call::{Asked, Call, WordsFault};
use crate::command_line::{fault_of, found_in};
use crate::values::{first_value, is_set, number_of, value_of};
use clap::ArgMatches;
use std::alloc::Global;

/// The call of a subcommand that wants a file and a value beside it, or a file alone. clap gives each value that the subcommand requires.
fn file_call<'a>(name: &str, values: &ArgMatches<'a>) -> Call<'a>
    requires called { HasCall name.now (rows_of (found_of values.now)) }
    requires other { IsOther name.now }
    ensures { IsCallOf name.now (rows_of (found_of values.now)) result }
{
    let file = first_value(values, "FILE");
    let json = is_set(values, "json");
    match name {
        "route" => {
            let flow = first_value(values, "FLOW");
            Call::Route { file, flow, json }
        }
        "check" => Call::Check {
            file,
            certificate: first_value(values, "CERT"),
            json,
        },
        "replay" => Call::Replay {
            file,
            schedule: first_value(values, "SCHEDULE"),
            json,
        },
        "decide" => Call::Decide { file, json },
        "report" => Call::Report { file, json },
        "migrate" => Call::Migrate { file },
        "explain" => Call::Explain {
            file,
            all: is_set(values, "all"),
            json,
        },
        "draw" => Call::Draw {
            file,
            flow: value_of(values, "flow"),
            cycle: is_set(values, "cycle"),
            numbers: is_set(values, "numbers"),
        },
        "mend" => Call::Mend {
            file,
            pairs: is_set(values, "pairs"),
            json,
        },
        // No other is left than `margin`.
        _ => Call::Margin { file, json },
    }
}

/// The call of a subcommand.
fn call_of<'a>(name: &str, values: &ArgMatches<'a>) -> Call<'a>
    requires { HasCall name.now (rows_of (found_of values.now)) }
    ensures { IsCallOf name.now (rows_of (found_of values.now)) result }
{
    match name {
        "audit" => Call::Audit {
            json: is_set(values, "json"),
            quiet: is_set(values, "quiet"),
            certificates: value_of(values, "certificates"),
        },
        "init" => Call::Init {
            name: value_of(values, "NAME"),
        },
        "run" => Call::Run {
            file: first_value(values, "FILE"),
            load: first_value(values, "LOAD"),
            workers: number_of(values, "workers"),
            limit: number_of(values, "limit"),
            schedule: value_of(values, "schedule"),
            summary: is_set(values, "summary"),
            json: is_set(values, "json"),
        },
        "rmap" => Call::Rmap {
            file: first_value(values, "FILE"),
            flow: first_value(values, "FLOW"),
            action: first_value(values, "ACTION"),
            address: first_value(values, "ADDRESS"),
            value: first_value(values, "VALUE"),
            unacknowledged: is_set(values, "no-ack"),
            transaction: value_of(values, "transaction"),
        },
        "witness" => Call::Witness {
            file: first_value(values, "FILE"),
            tries: number_of(values, "tries"),
            seed: number_of(values, "seed"),
        },
        _ => file_call(name, values),
    }
}

/// The call of the subcommand that was met, with the files that its values name, and what is told on standard error.
fn asked_of<'a>(alloc: Global, matches: &ArgMatches<'a>) -> Result<Asked<'a>, WordsFault>
    requires { MeetsCall (subcommand_rows_of matches.now) }
    ensures asked { IfOk result (IsMatched (subcommand_rows_of matches.now)) }
    ensures memory { IfErr result (λ fault. fault ≡ Memory) }
{
    let (name, values) = matches.subcommand().unwrap();
    let Ok(files) = Vec::from_slice(alloc, values.get_strs("FILE").unwrap_or(&[])) else {
        return Err(WordsFault::Memory);
    };
    Ok(Asked {
        call: call_of(name, values),
        files,
        hints: value_of(values, "hints"),
        notes: value_of(values, "notes"),
        all_faults: is_set(values, "all-faults"),
    })
}

/// What the words ask for; they begin with the program's name.
///
/// # Errors
///
/// Help was asked for, or the words are refused, each with the text to print; or a growth was refused.
pub fn words<'a>(alloc: Global, words: &'a [&'a str]) -> Result<Asked<'a>, WordsFault>
    ensures call { IfOk result (Gives (map (λ s. s.now) words.entry.now)) }
    ensures fault { IfErr result (Refuses (map (λ s. s.now) words.entry.now)) }
{
    match found_in(alloc, words) {
        Ok(matches) => {
            let asked = asked_of(alloc, &matches);
            drop(matches);
            asked
        }
        Err(error) => {
            let fault = fault_of(alloc, &error);
            drop(error);
            Err(fault)
        }
    }
}
