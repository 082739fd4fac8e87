//! What taps read of packets: a window of each, as it arrived, whatever becomes of the packet meanwhile.
//!
//! ```text
//!   packet   |........|........|........|...|        snap bytes a window
//!   tap      0        1        2        3            tap 4 reads nothing of it
//! ```
//!
//! A [`TapTask`] holds a clone of each packet, so its bytes stay while others push, pull, merge or release theirs.
//! [`TapTask::run`] copies the windows out, into one vector for all of them, and gives every clone back;
//! [`read_clones`] does the same with lists that are kept from round to round. Where packets lie still while a tap
//! reads there need be no clone: [`TapTexts::read`] copies a window out of a packet that is lent, a [`TapPacket`].
//!
//! Proved, by the names of the clauses of `run`:
//!
//! - `texts`: the windows are those of the packets, in the order of the clones, the empty ones left out.
//! - `windows`: the records made of them are the tap's windows in what merging writes (`windows_of`).
//! - `read` of `TapTexts::read`: the same of one packet that is lent, behind those before it.
//! - `kept`, `grows`, `places`: nothing is lost (see `frags`), also where memory runs out.
//!
//! Only tested: that the gate is passed, once before and once after, and that memory suffices where there is some.
//!
//! ```
//! let TapResult { texts, outcomes } = task.run(&NoGate);
//! let _ = home_of(outcomes);
//! let texts = texts?;
//! for i in 0..texts.len() {
//!     read = read.wrapping_add(texts.get(i).bytes.len());
//! }
//! ```
//!
//! Tests: `merge_tests`, module `tapping`.
//!
//! Why so:
//!
//! - **A tap's windows stand in one vector of bytes**: memory is taken once for a task, and `get` lends each window. A
//!   window keeps the packet's original length; the record that is written of it has the window's.
#![tactic(auto)]

ghost use Rattle.taps.specs.Texts.{TextsAreWindows};

mod clones;
mod frame;
mod packet;
mod task;
mod texts;

pub use clones::TapClone;
pub use packet::TapPacket;
pub use task::{TapResult, TapTask, read_clones};
pub use texts::{TapText, TapTexts};

/// The records of a tap's texts are its windows in what merging writes.
pub fn texts_are_windows()
    ensures law { TextsAreWindows }
{}
