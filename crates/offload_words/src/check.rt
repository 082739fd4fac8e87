//! The subcommand `check` and its options.

ghost use Rattle.std.specs.Prelude.{◌≡◌, IfOk, false};
ghost use Rattle.clap.specs.Words.{app_of, found_of, rows_of};
ghost use Rattle.offload_words.specs.Commands.{has_globals_of};
ghost use Rattle.offload_words.specs.Check.{check_app, check_options_in};
ghost use Rattle.offload_words.specs.Merge.{AreQueuesIn};
ghost use Rattle.offload_words.specs.Reading.{Reads};

use crate::fault::WordsFault;
use crate::merge::{MergeOptions, merge_options, with_merge_options};
use crate::numbers::{number_at, wide_number_at, with_number, with_plain_number};
use clap::ArgMatches;
use std::alloc::{AllocError, Global};

/// The options of `check`.
#[derive(Drop)]
pub struct CheckOptions {
    /// What it merges with.
    pub merge: MergeOptions,
    /// What the generated capture follows from that is checked; without it one that is read is.
    pub seed: Option<u64>,
    /// How many records the generated capture has: at most 10,000,000.
    pub count: u32,
}

/// What clap is told of `check`.
pub(crate) fn check_subcommand<'a>(alloc: Global) -> Result<clap::Command<'a>, AllocError>
    ensures app { IfOk result (λ c. app_of c ≡ check_app) }
    ensures local { IfOk result (λ c. has_globals_of c ≡ false) }
{
    let merge = with_merge_options(alloc, clap::Command::new(alloc, "check"))?;
    let seed = with_plain_number(alloc, merge, "seed", 0, u64::MAX)?;
    with_number(alloc, seed, "count", 0, 10000000, "1000")
}

/// The options among the matches of `check`.
pub(crate) fn check_options(
    alloc: Global,
    matches: &ArgMatches<'_>,
) -> Result<CheckOptions, WordsFault>
    requires queues { AreQueuesIn (rows_of (found_of matches.now)) }
    ensures options { Reads result (check_options_in (rows_of (found_of matches.now))) }
{
    let merge = merge_options(alloc, matches)?;
    let count = number_at(matches, "count").ok_or(WordsFault::Usage)?;
    let seed = wide_number_at(matches, "seed");
    Ok(CheckOptions { merge, seed, count })
}
