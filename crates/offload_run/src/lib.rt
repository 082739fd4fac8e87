//! The program over any source and any sink: words, a capture in, a capture out.
//!
//! [`run`] does the command that the words ask for. `merge` reads a capture of Ethernet frames (the classic pcap
//! layout) in rounds of as many records as `--budget` says and writes a capture of link type 147: what the maximal
//! mergeable runs of each flow come to, of at most `--segs` packets, each behind an offload header of version 2, of 16
//! bytes. The packets of a round go by their flows to `--queues` queues, by a fold of the flow's key or by the Toeplitz
//! hash of `--rss` and the table of `--table`, and each of `--taps` taps reads a window of `--snap` bytes of what
//! `--filter` shows of every packet: queue by queue the records are written, and then tap by tap the windows. Workers
//! and taps run at the same time, in as many threads as there are processors for, and in two at least where there are
//! two of them; where there is a second processor the next rounds are read beside them. All threads are started once,
//! for the whole run. `segment` cuts such a capture, or one with headers of version 1, back into the packets that
//! its records stand for. `check` merges as `merge` does, compares what each round comes to with its packets, and
//! writes lines of how many came back, at the end; with `--seed` it checks a generated capture, and nothing is read.
//! Records are read into `--blocks` blocks of 2048 bytes; those of a round are given back as it ends, and all are home
//! at the end. The log gets one line on each status but a good one.
//!
//! Proved, at every source, sink, log and gate, with whatever options, and whatever the order in which workers and taps
//! run (clauses of [`run`]): which words are no command, and that nothing is then read or written (`usage`,
//! `no_command`, `untouched`); what is read and written for each answer, and when the sink is flushed (`given`, in
//! plain words in [`answers_in_plain_words`]); that it is, whatever the answer, a prefix of what comes of all that was
//! given, unless the source failed (`prefix`, [`prefixes_in_plain_words`]); of which pool an empty one is told
//! (`blocks`); that every flow comes back of what merging makes (`flows`); which engine a good run leaves, with all
//! blocks home, and how many it took (`engine`), and that all blocks of one are home on every other status (`home`);
//! that a fault is answered only where the outside failed (`read`, `write`); what the log gets (`log`, `log_prefix`,
//! `quiet`). So do the two commands one after the other ([`every_flow_comes_back`]), and each line of `check` tells as
//! many records that came back as there are ([`every_record_returns`]).
//!
//! [`run_streams`] is `run` over a reader and writers of std, as `main` calls it, and says of std's own writer what has
//! been given to it (`streamed`): all that `run` writes to its sink where that is flushed, and else the first bytes.
//!
//! ```
//! let mut engine = None;
//! let status = run(
//!     &rt,
//!     alloc,
//!     &words,
//!     &mut source,
//!     &mut sink,
//!     &mut log,
//!     &NoGate,
//!     &mut engine,
//! );
//! let code = status.code(); // 0 where all went well
//! ```
//!
//! Tests: `run_tests`.
//!
//! Why so:
//!
//! - **Each command is a crate of its own** (`segment_command`, `merge_command`, `check_command`, over what a command
//!   answers, `command_answers`), so that they are proved side by side. None knows of the others' blocks: what a
//!   command leaves is made an [`Engine`] here.
//! - **The engine goes out by a `&mut Option`** that holds none before, and is there at status 0. What it tells then,
//!   that all blocks are home and how many were taken, is one clause (`engine`), and that they are home whatever the
//!   status another (`home`); its calls stay those of `rounds`.
//! - **`run` asks its runtime for `Wait`, too**, since one side of `merge` and `check` sleeps until the other wakes it.
//!   So it is no longer proved that `run`, and `main`, come to an end; of their commands these two alone ever wait.
#![tactic(auto)]

mod command;
mod engine;
mod make;
mod streams;

pub use command::run;
pub use command_answers::{
    Status, answers_in_plain_words, every_flow_comes_back, every_record_returns,
    prefixes_in_plain_words, write_log,
};
pub use engine::Engine;
pub use offload_words::{
    CheckOptions, Command, MakeOptions, MergeOptions, SegmentOptions, WordsFault, parse_words,
};
pub use rounds::Rounds;
pub use segmenting::SegmentRun;
pub use streams::{Streams, run_streams};
