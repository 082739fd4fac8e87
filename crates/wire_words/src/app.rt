//! The options of `wire`, as clap is told of them.

ghost use Rattle.std.specs.Prelude.{◌≡◌, IfOk, false};
ghost use Rattle.clap.specs.Words.{app_of, rule_of, with_rule};
ghost use Rattle.offload_words.specs.Numbers.{number_rule};
ghost use Rattle.wire_words.specs.Options.{default_text_rule, flag_rule, has_globals_of, numbers_app, wire_app};

use clap::builder::ValueParser;
use clap::{Arg, ArgAction, Command};
use std::alloc::{AllocError, Global};

// The option `--id`, which takes a number from `low` to `high`, and a number where it isn't given.
fn number_option<'a>(alloc: Global, id: &'a str, low: u64, high: u64, default: &'a str) -> Arg<'a>
    ensures rule { rule_of result ≡ number_rule id.entry.now low high default.entry.now }
    ensures local { result.global ≡ false }
{
    Arg::new(alloc, id)
        .long(id)
        .action(ArgAction::Set)
        .value_parser(ValueParser::unsigned(low, high))
        .default_value(default)
}

// The option `--id`, which takes any text, and a text where it isn't given.
fn text_option<'a>(alloc: Global, id: &'a str, default: &'a str) -> Arg<'a>
    ensures rule { rule_of result ≡ default_text_rule id.entry.now default.entry.now }
    ensures local { result.global ≡ false }
{
    Arg::new(alloc, id)
        .long(id)
        .action(ArgAction::Set)
        .default_value(default)
}

// The flag `--id`.
fn flag<'a>(alloc: Global, id: &'a str) -> Arg<'a>
    ensures rule { rule_of result ≡ flag_rule id.entry.now }
    ensures local { result.global ≡ false }
{
    Arg::new(alloc, id).long(id).action(ArgAction::SetTrue)
}

// The command with one option more.
fn with_option<'a>(app: Command<'a>, option: Arg<'a>) -> Result<Command<'a>, AllocError>
    requires option { option.global ≡ false }
    requires local { has_globals_of app ≡ false }
    ensures app { IfOk result (λ c. app_of c ≡ with_rule (app_of app.entry) (rule_of option.entry)) }
    ensures local { IfOk result (λ c. has_globals_of c ≡ false) }
{
    app.arg(option)
}

// The options that take a number.
fn with_numbers<'a>(alloc: Global) -> Result<Command<'a>, AllocError>
    ensures app { IfOk result (λ c. app_of c ≡ numbers_app) }
    ensures local { IfOk result (λ c. has_globals_of c ≡ false) }
{
    let mss = with_option(
        Command::new(alloc, "wire"),
        number_option(alloc, "mss", 1, 65535, "1448"),
    )?;
    with_option(mss, number_option(alloc, "blocks", 1, 65536, "131"))
}

/// All options. By default there are as many blocks as a record of the greatest length needs.
pub(crate) fn wire_command<'a>(alloc: Global) -> Result<Command<'a>, AllocError>
    ensures app { IfOk result (λ c. app_of c ≡ wire_app) }
{
    let sums = with_option(with_numbers(alloc)?, text_option(alloc, "sums", "partial"))?;
    with_option(sums, flag(alloc, "summary"))
}
