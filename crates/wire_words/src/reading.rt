//! Options, read from clap's matches.

ghost use Rattle.std.specs.Prelude.{◌≡◌, option_map};
ghost use Rattle.clap.specs.Words.{found_of, first_of, rows_of};
ghost use Rattle.offload_words.specs.Numbers.{number_in};
ghost use Rattle.wire_words.specs.Options.{fills_all_by, is_set_by};

use clap::ArgMatches;

/// The number at the option `--id`.
pub(crate) fn number_at(matches: &ArgMatches<'_>, id: &str) -> Option<u32>
    ensures number { result ≡ number_in 4294967295 id.now (rows_of (found_of matches.now)) }
{
    matches.get_one::<u32>(id)
}

/// The text at the option `--id`.
pub(crate) fn text_at<'a>(matches: &ArgMatches<'a>, id: &str) -> Option<&'a str>
    ensures text { option_map (λ s. s.now) result ≡ first_of id.now (rows_of (found_of matches.now)) }
{
    matches.get_str(id)
}

/// Which sums a text says are filled: all, or the partial ones alone.
pub(crate) fn fills_all(text: Option<&str>) -> Option<bool>
    ensures fills { result ≡ fills_all_by (option_map (λ s. s.now) text.entry) }
{
    match text? {
        "all" => Some(true),
        "partial" => Some(false),
        _ => None,
    }
}

/// Whether a flag's text says that it is given.
pub(crate) fn is_set(text: Option<&str>) -> bool
    ensures set { result ≡ is_set_by (option_map (λ s. s.now) text.entry) }
{
    match text {
        Some(text) => text == "true",
        None => false,
    }
}
