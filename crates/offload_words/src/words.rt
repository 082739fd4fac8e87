//! From the words to the command.

ghost use Rattle.std.specs.Prelude.{◌≡◌, ◌≢◌, ◌⊎◌, [], IfOk, IfSome, Some, None, false, map, option_and_then};
ghost use Rattle.std.specs.Prelude.{option_map, string_bytes, true};
ghost use Rattle.clap.specs.Words.{app_of, fault_of, found_of, rows_of, subcommand_rows_of};
ghost use Rattle.offload_words.specs.Commands.{FaultlessLinesAreCommands, HasRanges, command_named, command_of};
ghost use Rattle.offload_words.specs.Commands.{has_right_texts, offload_app};
ghost use Rattle.offload_words.specs.Check.{check_options_in};
ghost use Rattle.offload_words.specs.Make.{make_options_in};
ghost use Rattle.offload_words.specs.Merge.{AreQueuesIn, merge_options_in};
ghost use Rattle.offload_words.specs.Reading.{Reads};
ghost use Rattle.offload_words.specs.Segment.{segment_options_in};

use crate::check::{CheckOptions, check_options};
use crate::commands::offload_commands;
use crate::fault::WordsFault;
use crate::make::{MakeOptions, make_options};
use crate::merge::{MergeOptions, merge_options};
use crate::segment::{SegmentOptions, segment_options};
use clap::ArgMatches;
use clap::error::ErrorKind;
use std::alloc::Global;

/// What a line of words asks for.
#[derive(Drop)]
pub enum Command {
    /// `merge`: merge the TCP segments and UDP datagrams of a capture.
    Merge(MergeOptions),
    /// `segment`: cut the merged records of a capture again.
    Segment(SegmentOptions),
    /// `check`: merge a capture, cut its merged records again and count the packets that come back.
    Check(CheckOptions),
    /// `make`: write a generated capture.
    Make(MakeOptions),
}

/// `merge` with the options among its matches.
fn merge_command(alloc: Global, matches: &ArgMatches<'_>) -> Result<Command, WordsFault>
    requires queues { AreQueuesIn (rows_of (found_of matches.now)) }
    ensures command { Reads result (option_map Command.Merge (merge_options_in (rows_of (found_of matches.now)))) }
{
    Ok(Command::Merge(merge_options(alloc, matches)?))
}

/// `segment` with the options among its matches.
fn segment_command(matches: &ArgMatches<'_>) -> Result<Command, WordsFault>
    ensures command { Reads result (option_map Command.Segment (segment_options_in (rows_of (found_of matches.now)))) }
{
    let options = segment_options(matches).ok_or(WordsFault::Usage)?;
    Ok(Command::Segment(options))
}

/// `check` with the options among its matches.
fn check_command(alloc: Global, matches: &ArgMatches<'_>) -> Result<Command, WordsFault>
    requires queues { AreQueuesIn (rows_of (found_of matches.now)) }
    ensures command { Reads result (option_map Command.Check (check_options_in (rows_of (found_of matches.now)))) }
{
    Ok(Command::Check(check_options(alloc, matches)?))
}

/// `make` with the options among its matches.
fn make_command(matches: &ArgMatches<'_>) -> Result<Command, WordsFault>
    ensures command { Reads result (option_map Command.Make (make_options_in (rows_of (found_of matches.now)))) }
{
    let options = make_options(matches).ok_or(WordsFault::Usage)?;
    Ok(Command::Make(options))
}

/// The command of a subcommand's name and its matches.
#[tactic(auto, unfolding(crate::specs::Commands::command_named))]
fn command_at(alloc: Global, name: &str, matches: &ArgMatches<'_>) -> Result<Command, WordsFault>
    requires queues { AreQueuesIn (rows_of (found_of matches.now)) }
    ensures command { Reads result (command_named name.now (rows_of (found_of matches.now))) }
{
    match name {
        "merge" => merge_command(alloc, matches),
        "segment" => segment_command(matches),
        "check" => check_command(alloc, matches),
        "make" => make_command(matches),
        _ => Err(WordsFault::Usage),
    }
}

/// The command among the matches of a whole line.
fn command_in(alloc: Global, matches: &ArgMatches<'_>) -> Result<Command, WordsFault>
    requires queues { IfSome (subcommand_rows_of matches.now) (λ p. AreQueuesIn p.1) }
    ensures command { Reads result (option_and_then (λ p. command_named p.0 p.1) (subcommand_rows_of matches.now)) }
{
    let (name, options) = matches.subcommand().ok_or(WordsFault::Usage)?;
    command_at(alloc, name, options)
}

/// The command of `words`, by clap, which was told of the command set.
fn parse_by<'a>(
    alloc: Global,
    app: clap::Command<'a>,
    words: &'a [String],
) -> Result<Command, WordsFault>
    requires app { app_of app ≡ offload_app }
    ensures command { Reads result (command_of (map string_bytes words.entry.now)) }
{
    match app.try_get_matches_from(words) {
        Ok(matches) => command_in(alloc, &matches),
        Err(error) => match error.kind() {
            ErrorKind::OutOfMemory => Err(WordsFault::NoMemory),
            _ => Err(WordsFault::Usage),
        },
    }
}

/// The command that a line of words asks for. The first word is the program's name.
///
/// # Errors
///
/// `Usage` where the line isn't in the command set: clap finds a fault in it, of which a call for help or for the
/// version is one, or a text isn't as it must be: a filter that is refused, a hash key or a table that is none, or a
/// table without a key. `NoMemory` where memory runs out, whatever the line.
pub fn parse_words(alloc: Global, words: &[String]) -> Result<Command, WordsFault>
    ensures command { IfOk result (λ c. command_of (map string_bytes words.now) ≡ Some c) }
    ensures faultless { IfOk result (λ _. fault_of offload_app (map string_bytes words.now) ≡ []) }
    ensures texts { IfOk result (λ _. has_right_texts (map string_bytes words.now) ≡ true) }
    ensures range { IfOk result HasRanges }

    ensures usage { result ≡ Err WordsFault.Usage → (fault_of offload_app (map string_bytes words.now) ≢ [])
        ⊎ (has_right_texts (map string_bytes words.now) ≡ false) }
    ensures no_command { result ≡ Err WordsFault.Usage → command_of (map string_bytes words.now) ≡ None }
{
    match offload_commands(alloc) {
        Ok(app) => parse_by(alloc, app, words),
        Err(_) => Err(WordsFault::NoMemory),
    }
}

/// The law that a line in which clap finds no fault asks for a command exactly where its texts are as they must be: so
/// each line has a fault, or a text that is refused, or is a command.
pub fn every_faultless_line_is_a_command()
    ensures law { FaultlessLinesAreCommands }
{}
