//! What a command answers: its status, with the code that the program ends with and the line that the log gets; and
//! what each status says of source and sink, command by command and in plain words.
//!
//! A command that reads a capture ends by its file header ([`refused`]), or behind its records, where the sink is
//! flushed ([`finish`]). Its [`Status`] has a code ([`Status::code`]) and a line in the log ([`write_log`]).
//!
//! The definitions stand in `specs/`: which ending of the model a status stands for (`Ending`); what `merge` makes of a
//! capture (`Output`); what each status says of a command (`RunAnswers`, with `Checking` and `Making`), and the same in
//! plain words (`PlainWords`).
//!
//! Proved, by the names of the clauses: the log gets the line of the status, or a prefix of it where it fails (`line`,
//! `prefix`, `quiet` of [`write_log`]); behind the last write the sink is flushed, or the answer is a write fault whose
//! cause is the sink's (`flushed`, `failed` of [`finish`]). And the laws: the two commands one after the other bring
//! every flow back ([`every_flow_comes_back`]); each line of `check` tells as many records that came back as there are
//! ([`every_record_returns`]); and what is said of each status is this in plain words ([`answers_in_plain_words`],
//! [`prefixes_in_plain_words`]).
//!
//! ```
//! let status = finish(&mut sink, Status::ReadFault);
//! write_log(&mut log, &status);
//! let code = status.code(); // 5
//! ```
//!
//! Tests: `run_tests`.
//!
//! Why so:
//!
//! - **It stands on no rounds**: what is said of a command wants the model and the counts alone, so the laws are proved
//!   beside the engine, and each command by itself.
//! - **What is said of the commands that read is said once** (`Passing` of `offload_model`): what a command makes of
//!   some bytes, and what each ending says of that. `ending_of` leads from a status there, and one more command that
//!   reads is one more line of `Answers`. `answers_in_plain_words` unfolds it: what the capture reads as, which round
//!   exceeds the blocks, what is written.
//! - **`flows` asks nothing of the source**: a record that was read is held in fields of 32 bits and in bytes, so the
//!   packets that are merged are such as a capture may hold (`captured` of `Merged` of `rounds`), and their numbers
//!   rise whatever the bytes. It is said where merging ended by the bytes or by the source (status 0, 3, 4, 5); after a
//!   fault of the sink or want of memory a prefix is written, of which it isn't said.
#![tactic(auto)]

mod ending;
mod laws;
mod logging;
mod status;

pub use ending::{finish, refused};
pub use laws::{
    answers_in_plain_words, every_flow_comes_back, every_record_returns, prefixes_in_plain_words,
};
pub use logging::write_log;
pub use status::Status;
