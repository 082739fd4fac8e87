//! The option `--filter`: a program of `tap_filter`.

ghost use Rattle.std.specs.Prelude.{◌≡◌, ◌≢◌};
ghost use Rattle.clap.specs.Words.{found_of, rows_of};
ghost use Rattle.offload_words.specs.Filter.{filter_in};
ghost use Rattle.offload_words.specs.Reading.{Reads};

use crate::fault::WordsFault;
use crate::texts::text_at;
use clap::ArgMatches;
use std::alloc::Global;
use tap_filter::{FilterFault, Program};

/// What a line with a filter that is refused so is answered.
fn words_fault(fault: FilterFault) -> WordsFault
    ensures usage { result ≡ WordsFault.Usage → fault ≢ FilterFault.NoMemory }
{
    match fault {
        FilterFault::NoMemory => WordsFault::NoMemory,
        _ => WordsFault::Usage,
    }
}

/// The program that the text at the option lists, where it is given.
pub(crate) fn filter_at(
    alloc: Global,
    matches: &ArgMatches<'_>,
) -> Result<Option<Program>, WordsFault>
    ensures filter { Reads result (filter_in (rows_of (found_of matches.now))) }
{
    match text_at(matches, "filter") {
        None => Ok(None),
        Some(text) => match Program::of_text(alloc, text) {
            Ok(program) => Ok(Some(program)),
            Err(fault) => Err(words_fault(fault)),
        },
    }
}
