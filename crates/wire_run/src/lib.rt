//! The program `wire` over any source and any sink: words, what a host captured in, what went over the wire out.
//!
//! Proved, at every source, sink and log (clauses of [`run`]): which words are no options, and that nothing is then
//! read or written (`usage`, `no_options`, `untouched`); what is read and written for each answer, and when the sink
//! is flushed (`given`, by `Answers` of `offload_model` over `wiring_whole` of `wire_model`); that it is, whatever
//! the answer, a prefix of what comes of all that was given (`prefix`); of which pool an empty one is told
//! (`blocks`); that a fault is answered only where the outside failed (`read`, `write`); what the log gets (`log`,
//! `log_prefix`), and that it gets what was done with `--summary` alone (`summary`, `quiet`).
//!
//! ```
//! let status = run(alloc, &words, &mut source, &mut sink, &mut log);
//! let code = status.code(); // 0 where all went well
//! ```
//!
//! Its parts: `wire` (a whole capture), `log` (the lines on standard error) and `program` (the call `run`).
//!
//! Tests: `wire_tests`, modules `frames` and `words`.
#![tactic(auto)]

mod log;
mod program;
mod wire;

pub use command_answers::Status;
pub use log::write_status;
pub use program::run;
pub use wire::run_wire;
pub use wire_words::{WireOptions, WordsFault, parse_words};
