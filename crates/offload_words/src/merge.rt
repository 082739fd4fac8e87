//! The subcommand `merge` and its options.

ghost use Rattle.std.specs.Prelude.{◌≡◌, IfOk, false};
ghost use Rattle.clap.specs.Words.{app_of, found_of, rows_of};
ghost use Rattle.offload_words.specs.Commands.{has_globals_of};
ghost use Rattle.offload_words.specs.Merge.{AreQueuesIn, merge_app, merge_numbers_in, merge_options_in};
ghost use Rattle.offload_words.specs.Merge.{with_merge_numbers as with_merge_numbers_of, with_merge_rules};
ghost use Rattle.offload_words.specs.Reading.{Reads};

use crate::fault::WordsFault;
use crate::filter::filter_at;
use crate::numbers::{number_at, with_blocks, with_number};
use crate::rss::choice_at;
use crate::texts::with_text;
use clap::ArgMatches;
use frame_layout::Choice;
use std::alloc::{AllocError, Global};
use tap_filter::Program;

/// The options of `merge`.
#[derive(Drop)]
pub struct MergeOptions {
    /// The queues that packets go to by their flow keys, each worked on its own: 1 to 64.
    pub queues: u32,
    /// The most records that are merged with one another, a round: 1 to 4096.
    pub budget: u32,
    /// The blocks of 2048 bytes that the records of a round are read into: 1 to 65536.
    pub blocks: u32,
    /// The taps, each of which reads a window of every record: 0 to 8.
    pub taps: u32,
    /// The most bytes of a window: 1 to 2048.
    pub snap: u32,
    /// The most packets of a merged record: 1 to 4096.
    pub segs: u32,
    /// How flows go to the queues.
    pub choice: Choice,
    /// What taps are shown of a record: as many of its bytes as the program's value, and all where there is none.
    pub filter: Option<Program>,
}

/// A subcommand with the options of `merge` that take a number.
fn with_merge_numbers<'a>(
    alloc: Global,
    app: clap::Command<'a>,
) -> Result<clap::Command<'a>, AllocError>
    requires local { has_globals_of app ≡ false }
    ensures app { IfOk result (λ c. app_of c ≡ with_merge_numbers_of (app_of app.entry)) }
    ensures local { IfOk result (λ c. has_globals_of c ≡ false) }
{
    let queues = with_number(alloc, app, "queues", 1, 64, "1")?;
    let budget = with_number(alloc, queues, "budget", 1, 4096, "64")?;
    let blocks = with_blocks(alloc, budget)?;
    let taps = with_number(alloc, blocks, "taps", 0, 8, "0")?;
    let snap = with_number(alloc, taps, "snap", 1, 2048, "64")?;
    with_number(alloc, snap, "segs", 1, 4096, "4096")
}

/// A subcommand with the options of `merge`.
pub(crate) fn with_merge_options<'a>(
    alloc: Global,
    app: clap::Command<'a>,
) -> Result<clap::Command<'a>, AllocError>
    requires local { has_globals_of app ≡ false }
    ensures app { IfOk result (λ c. app_of c ≡ with_merge_rules (app_of app.entry)) }
    ensures local { IfOk result (λ c. has_globals_of c ≡ false) }
{
    let numbers = with_merge_numbers(alloc, app)?;
    let filter = with_text(alloc, numbers, "filter")?;
    let rss = with_text(alloc, filter, "rss")?;
    with_text(alloc, rss, "table")
}

/// What clap is told of `merge`.
pub(crate) fn merge_subcommand<'a>(alloc: Global) -> Result<clap::Command<'a>, AllocError>
    ensures app { IfOk result (λ c. app_of c ≡ merge_app) }
    ensures local { IfOk result (λ c. has_globals_of c ≡ false) }
{
    with_merge_options(alloc, clap::Command::new(alloc, "merge"))
}

/// The options among the matches of `merge`, over these queues and with this choice and this filter.
fn merge_numbers(
    matches: &ArgMatches<'_>,
    queues: u32,
    choice: Choice,
    filter: Option<Program>,
) -> Option<MergeOptions>
    ensures options { result ≡ merge_numbers_in (rows_of (found_of matches.now)) queues choice filter }
{
    let budget = number_at(matches, "budget")?;
    let blocks = number_at(matches, "blocks")?;
    let taps = number_at(matches, "taps")?;
    let snap = number_at(matches, "snap")?;
    let segs = number_at(matches, "segs")?;
    Some(MergeOptions {
        queues,
        budget,
        blocks,
        taps,
        snap,
        segs,
        choice,
        filter,
    })
}

/// The options among the matches of `merge`.
pub(crate) fn merge_options(
    alloc: Global,
    matches: &ArgMatches<'_>,
) -> Result<MergeOptions, WordsFault>
    requires queues { AreQueuesIn (rows_of (found_of matches.now)) }
    ensures options { Reads result (merge_options_in (rows_of (found_of matches.now))) }
{
    let queues = number_at(matches, "queues").ok_or(WordsFault::Usage)?;
    let choice = choice_at(matches, queues).ok_or(WordsFault::Usage)?;
    let filter = filter_at(alloc, matches)?;
    merge_numbers(matches, queues, choice, filter).ok_or(WordsFault::Usage)
}
