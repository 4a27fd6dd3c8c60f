//! The values that clap found for a subcommand.
ghost use Rattle.std.specs.Prelude.{◌≡◌, ◌<◌, ◌^◌, ℕ, Some, option_map, IsSome};
ghost use Rattle.clap.specs.Words.{first_of, found_of, rows_of};
ghost use Rattle.sw_args.specs.CommandLine.{IsSet, SaysNumber};

use clap::ArgMatches;

/// The first value of an argument, if it has one.
pub(crate) fn value_of<'a>(values: &ArgMatches<'a>, name: &str) -> Option<&'a str>
    ensures { option_map (λ s. s.now) result ≡ first_of name.now (rows_of (found_of values.now)) }
{
    values.get_str(name)
}

/// The first value of an argument that has one.
pub(crate) fn first_value<'a>(values: &ArgMatches<'a>, name: &str) -> &'a str
    requires { IsSome (first_of name.now (rows_of (found_of values.now))) }
    ensures { first_of name.now (rows_of (found_of values.now)) ≡ Some result.now }
{
    value_of(values, name).unwrap()
}

/// The number that an option's value says; clap gives no other than a number from 1 up to the option's most.
pub(crate) fn number_of(values: &ArgMatches<'_>, name: &str) -> u32
    requires { (number : ℕ) × SaysNumber name.now (rows_of (found_of values.now)) number × (number < 2 ^ 32) }
    ensures { SaysNumber name.now (rows_of (found_of values.now)) result }
{
    values.get_one::<u32>(name).unwrap()
}

/// Whether an option without a value was given.
pub(crate) fn is_set(values: &ArgMatches<'_>, name: &str) -> bool
    ensures { IsSet name.now (rows_of (found_of values.now)) result }
{
    values.get_one::<bool>(name).unwrap_or(false)
}
