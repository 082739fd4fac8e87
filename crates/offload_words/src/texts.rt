//! Options that take one text: told to clap, and read from its matches.

ghost use Rattle.std.specs.Prelude.{◌≡◌, IfOk, false, option_map};
ghost use Rattle.clap.specs.Words.{app_of, found_of, first_of, rows_of, with_rule};
ghost use Rattle.offload_words.specs.Commands.{has_globals_of};
ghost use Rattle.offload_words.specs.Texts.{text_rule};

use clap::{Arg, ArgAction, ArgMatches};
use std::alloc::{AllocError, Global};

/// The subcommand with the option `--id` too, which takes any text and need not be given.
pub(crate) fn with_text<'a>(
    alloc: Global,
    app: clap::Command<'a>,
    id: &'a str,
) -> Result<clap::Command<'a>, AllocError>
    requires local { has_globals_of app ≡ false }
    ensures app { IfOk result (λ c. app_of c ≡ with_rule (app_of app.entry) (text_rule id.entry.now)) }
    ensures local { IfOk result (λ c. has_globals_of c ≡ false) }
{
    app.arg(Arg::new(alloc, id).long(id).action(ArgAction::Set))
}

/// The text at the option `--id`.
pub(crate) fn text_at<'a>(matches: &ArgMatches<'a>, id: &str) -> Option<&'a str>
    ensures text { option_map (λ s. s.now) result ≡ first_of id.now (rows_of (found_of matches.now)) }
{
    matches.get_str(id)
}
