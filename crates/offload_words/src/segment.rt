//! The subcommand `segment` and its options.

ghost use Rattle.std.specs.Prelude.{◌≡◌, IfOk, false};
ghost use Rattle.clap.specs.Words.{app_of, found_of, rows_of};
ghost use Rattle.offload_words.specs.Commands.{has_globals_of};
ghost use Rattle.offload_words.specs.Segment.{segment_app, segment_options_in};

use crate::numbers::{number_at, with_blocks};
use clap::ArgMatches;
use std::alloc::{AllocError, Global};

/// The options of `segment`.
#[derive(Clone, Copy, Debug, PartialEq, Eq)]
pub struct SegmentOptions {
    /// The blocks of 2048 bytes that a record is read into: 1 to 65536.
    pub blocks: u32,
}

/// What clap is told of `segment`.
pub(crate) fn segment_subcommand<'a>(alloc: Global) -> Result<clap::Command<'a>, AllocError>
    ensures app { IfOk result (λ c. app_of c ≡ segment_app) }
    ensures local { IfOk result (λ c. has_globals_of c ≡ false) }
{
    with_blocks(alloc, clap::Command::new(alloc, "segment"))
}

/// The options among the matches of `segment`.
pub(crate) fn segment_options(matches: &ArgMatches<'_>) -> Option<SegmentOptions>
    ensures options { result ≡ segment_options_in (rows_of (found_of matches.now)) }
{
    let blocks = number_at(matches, "blocks")?;
    Some(SegmentOptions { blocks })
}
