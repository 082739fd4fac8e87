//! The command line of `wire`: from words to options.
//!
//! The options are one description for `clap`, and clap's own functions of such a description say which lines of
//! words it takes (`fault_of`) and which values these give (`matches_of`); `wire_options_of` of `specs/Options` reads
//! the values out, and [`parse_words`] computes it. Proved there: the options (`options`), each in its range
//! (`range`), and that `Usage` is answered for a line that is none alone (`no_options`).
//!
//! ```
//! // wire --mss 1460 --sums all
//! let mss = parse_words(alloc, words)?.wiring.mss; // 1460
//! ```
//!
//! Tests: `wire_tests`, module `words`.
//!
//! Why so: **by default there are 131 blocks**, as many as the longest record needs, since each record is a round of
//! its own.
#![tactic(auto)]

mod app;
mod reading;
mod words;

pub use offload_words::WordsFault;
pub use words::{WireOptions, parse_words};
