//! The subcommand `make` and its options.

ghost use Rattle.std.specs.Prelude.{◌≡◌, IfOk, false};
ghost use Rattle.clap.specs.Words.{app_of, found_of, rows_of};
ghost use Rattle.offload_words.specs.Commands.{has_globals_of};
ghost use Rattle.offload_words.specs.Make.{make_app, make_options_in};

use crate::numbers::{number_at, number_option, wide_number_at};
use clap::ArgMatches;
use std::alloc::{AllocError, Global};

/// The options of `make`.
#[derive(Clone, Copy, Debug, PartialEq, Eq)]
pub struct MakeOptions {
    /// What all of the capture follows from.
    pub seed: u64,
    /// How many records it has: at most 10,000,000.
    pub count: u32,
}

/// What clap is told of `make`.
pub(crate) fn make_subcommand<'a>(alloc: Global) -> Result<clap::Command<'a>, AllocError>
    ensures app { IfOk result (λ c. app_of c ≡ make_app) }
    ensures local { IfOk result (λ c. has_globals_of c ≡ false) }
{
    clap::Command::new(alloc, "make")
        .arg(number_option(alloc, "seed", 0, u64::MAX, "1"))?
        .arg(number_option(alloc, "count", 0, 10000000, "1000"))
}

/// The options among the matches of `make`.
pub(crate) fn make_options(matches: &ArgMatches<'_>) -> Option<MakeOptions>
    ensures options { result ≡ make_options_in (rows_of (found_of matches.now)) }
{
    let seed = wide_number_at(matches, "seed")?;
    let count = number_at(matches, "count")?;
    Some(MakeOptions { seed, count })
}
