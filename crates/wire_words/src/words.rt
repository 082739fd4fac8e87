//! From the words to the options.

ghost use Rattle.std.specs.Prelude.{◌≡◌, ◌≢◌, ◌⊎◌, [], IfOk, IfSome, Some, None, false, map, string_bytes};
ghost use Rattle.clap.specs.Words.{app_of, found_of, rows_of};
ghost use Rattle.offload_words.specs.Reading.{Reads};
ghost use Rattle.wire_words.specs.Options.{AreInRange, options_in, options_of, wire_app, wire_options_of};

use crate::app::wire_command;
use crate::reading::{fills_all, is_set, number_at, text_at};
use clap::error::ErrorKind;
use clap::{ArgMatches, Command};
use offload_words::WordsFault;
use std::alloc::Global;
use wire_model::Wiring;

/// The options of `wire`.
#[derive(Clone, Copy, Debug, PartialEq, Eq)]
pub struct WireOptions {
    /// How packets go on the wire.
    pub wiring: Wiring,
    /// The blocks of 2048 bytes that a record is read into: 1 to 65536.
    pub blocks: u32,
    /// A line at the end tells what was done.
    pub has_summary: bool,
}

// These options, where the numbers are in their ranges.
fn options(mss: u32, fills_all: bool, blocks: u32, has_summary: bool) -> Option<WireOptions>
    ensures options { result ≡ options_of mss fills_all blocks has_summary }
    ensures range { IfSome result AreInRange }
{
    if mss < 1 || mss > 65535 || blocks < 1 || blocks > 65536 {
        return None;
    }
    Some(WireOptions {
        wiring: Wiring { mss, fills_all },
        blocks,
        has_summary,
    })
}

// The options among the matches of a line.
fn matched_options(matches: &ArgMatches<'_>) -> Option<WireOptions>
    ensures options { result ≡ options_in (rows_of (found_of matches.now)) }
    ensures range { IfSome result AreInRange }
{
    let mss = number_at(matches, "mss")?;
    let blocks = number_at(matches, "blocks")?;
    let all = fills_all(text_at(matches, "sums"))?;
    options(mss, all, blocks, is_set(text_at(matches, "summary")))
}

// The same, where none are a fault of the line.
fn read_options(matches: &ArgMatches<'_>) -> Result<WireOptions, WordsFault>
    ensures options { Reads result (options_in (rows_of (found_of matches.now))) }
    ensures range { IfOk result AreInRange }
{
    matched_options(matches).ok_or(WordsFault::Usage)
}

// The options of `words`, by clap, which was told of the command set.
fn parse_by<'a>(app: Command<'a>, words: &'a [String]) -> Result<WireOptions, WordsFault>
    requires app { app_of app ≡ wire_app }
    ensures options { Reads result (wire_options_of (map string_bytes words.entry.now)) }
    ensures range { IfOk result AreInRange }
{
    match app.try_get_matches_from(words) {
        Ok(matches) => read_options(&matches),
        Err(error) => match error.kind() {
            ErrorKind::OutOfMemory => Err(WordsFault::NoMemory),
            _ => Err(WordsFault::Usage),
        },
    }
}

/// The options of a line of words. The first word is the program's name.
///
/// # Errors
///
/// `Usage` where clap finds a fault in the line, of which a call for help is one, or `--sums` is neither `partial` nor
/// `all`. `NoMemory` where memory runs out, whatever the line.
pub fn parse_words(alloc: Global, words: &[String]) -> Result<WireOptions, WordsFault>
    ensures options { IfOk result (λ o. wire_options_of (map string_bytes words.now) ≡ Some o) }
    ensures range { IfOk result AreInRange }
    ensures no_options { result ≡ Err WordsFault.Usage → wire_options_of (map string_bytes words.now) ≡ None }
{
    match wire_command(alloc) {
        Ok(app) => parse_by(app, words),
        Err(_) => Err(WordsFault::NoMemory),
    }
}
