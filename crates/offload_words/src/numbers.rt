//! Options that take one number: told to clap, and read from its matches.

ghost use Rattle.std.specs.Prelude.{◌≡◌, IfOk, false};
ghost use Rattle.clap.specs.Words.{app_of, found_of, rows_of, rule_of, with_rule};
ghost use Rattle.offload_words.specs.Commands.{has_globals_of};
ghost use Rattle.offload_words.specs.Numbers.{number_in, number_rule, plain_number_rule};
ghost use Rattle.offload_words.specs.Blocks.{blocks_rule};

use clap::builder::ValueParser;
use clap::{Arg, ArgAction, ArgMatches};
use std::alloc::{AllocError, Global};

/// The option `--id`, which takes a number from `low` to `high`.
fn plain_number_option<'a>(alloc: Global, id: &'a str, low: u64, high: u64) -> Arg<'a>
    ensures rule { rule_of result ≡ plain_number_rule id.entry.now low high }
    ensures local { result.global ≡ false }
{
    Arg::new(alloc, id)
        .long(id)
        .action(ArgAction::Set)
        .value_parser(ValueParser::unsigned(low, high))
}

/// The same, with a number where the option isn't given.
pub(crate) fn number_option<'a>(
    alloc: Global,
    id: &'a str,
    low: u64,
    high: u64,
    default: &'a str,
) -> Arg<'a>
    ensures rule { rule_of result ≡ number_rule id.entry.now low high default.entry.now }
    ensures local { result.global ≡ false }
{
    plain_number_option(alloc, id, low, high).default_value(default)
}

/// The subcommand with the option `--id` too, which need not be given.
pub(crate) fn with_plain_number<'a>(
    alloc: Global,
    app: clap::Command<'a>,
    id: &'a str,
    low: u64,
    high: u64,
) -> Result<clap::Command<'a>, AllocError>
    requires local { has_globals_of app ≡ false }
    ensures app { IfOk result (λ c. app_of c ≡ with_rule (app_of app.entry) (plain_number_rule id.entry.now low high)) }
    ensures local { IfOk result (λ c. has_globals_of c ≡ false) }
{
    app.arg(plain_number_option(alloc, id, low, high))
}

/// The subcommand with the option `--id` too, and a number where it isn't given.
pub(crate) fn with_number<'a>(
    alloc: Global,
    app: clap::Command<'a>,
    id: &'a str,
    low: u64,
    high: u64,
    default: &'a str,
) -> Result<clap::Command<'a>, AllocError>
    requires local { has_globals_of app ≡ false }
    ensures app { IfOk result (λ c. app_of c ≡ with_rule (app_of app.entry)
        (number_rule id.entry.now low high default.entry.now)) }
    ensures local { IfOk result (λ c. has_globals_of c ≡ false) }
{
    app.arg(number_option(alloc, id, low, high, default))
}

/// The subcommand with the option `--blocks` too. By default there are as many as 64 records of the greatest length
/// need.
pub(crate) fn with_blocks<'a>(
    alloc: Global,
    app: clap::Command<'a>,
) -> Result<clap::Command<'a>, AllocError>
    requires local { has_globals_of app ≡ false }
    ensures app { IfOk result (λ c. app_of c ≡ with_rule (app_of app.entry) blocks_rule) }
    ensures local { IfOk result (λ c. has_globals_of c ≡ false) }
{
    with_number(alloc, app, "blocks", 1, 65536, "8384")
}

/// The number at the option `--id`, of 64 bits.
pub(crate) fn wide_number_at(matches: &ArgMatches<'_>, id: &str) -> Option<u64>
    ensures number { result ≡ number_in 18446744073709551615 id.now (rows_of (found_of matches.now)) }
{
    matches.get_one::<u64>(id)
}

/// The number at the option `--id`.
pub(crate) fn number_at(matches: &ArgMatches<'_>, id: &str) -> Option<u32>
    ensures number { result ≡ number_in 4294967295 id.now (rows_of (found_of matches.now)) }
{
    matches.get_one::<u32>(id)
}
