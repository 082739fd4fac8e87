//! The command line of `offload`: from words to a command.
//!
//! The command set is one description for `clap`, and clap's own functions of such a description say which lines of
//! words it takes (`fault_of`) and which values these give (`subcommand_of`). Three options take a text that clap knows
//! nothing of: a filter of taps as [`tap_filter`] reads it, and a hash key and a table of queues, of which
//! [`frame_layout`] makes a choice of queues. `command_of` in `specs/Commands.antt` reads the values out, and
//! `parse_words` computes it. Proved there: `Ok` exactly for a line in which clap finds no fault and whose texts are as
//! they must be, with the values of its matches (`command`, `faultless`, `texts`), each in its range (`range`), and
//! `Usage` only for a line with a fault or a text that is refused (`usage`, `no_command`).
//! `every_faultless_line_is_a_command` carries the law that there is no other kind of line.
//!
//! ```
//! // offload merge --budget 16 --filter "1,6 0 0 40"
//! let budget = match parse_words(alloc, words)? {
//!     Command::Merge(options) => options.budget, // 16
//!     _ => 0,
//! };
//! ```
//!
//! Its parts: `commands` tells clap the command set, `merge`, `segment`, `check` and `make` have a subcommand each,
//! `numbers` the options with one number, `words` the top call. `OptionRows`, `OptionNumbers` and `Subcommands` in
//! `proofs/` hold for any command set whose arguments are options with one value.
//!
//! Tests: `run_tests`, module `options`, and `word_tests`, module `words`.
//!
//! Why so:
//!
//! - The command line has a crate of its own, `offload_words`, which `offload_run` offers again.
#![tactic(auto)]

pub mod check;
mod commands;
mod fault;
mod filter;
pub mod make;
pub mod merge;
mod numbers;
mod rss;
pub mod segment;
mod texts;
pub mod words;

pub use check::CheckOptions;
pub use fault::WordsFault;
pub use make::MakeOptions;
pub use merge::MergeOptions;
pub use segment::SegmentOptions;
pub use words::{Command, every_faultless_line_is_a_command, parse_words};
