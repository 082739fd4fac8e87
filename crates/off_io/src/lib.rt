//! Where bytes come from and go to, and how often that failed.
//!
//! A [`Source`] gives bytes and a [`Sink`] takes them. Each may tell what it has left or holds, and each counts its
//! faults; a call answers a fault only where that count rose. So a theorem over any source and sink can say which bytes
//! were read and written, and can blame a fault on the outside alone. A [`Gate`] is passed by tasks and changes no
//! answer; at a [`Meeting`] two of them wait for each other.
//!
//! Proved: `write_all` appends all bytes, or a prefix of them at a fault (clauses `ok`, `err`, `cause`); `read_full`
//! fills its buffer but at the end of the source (`bytes`, `cause`); the sources and sinks in memory fail at exactly
//! the calls that they were told, but for a write whose memory is refused (`fails`, `memory`); [`StdSource`],
//! [`BufferedSource`], [`StdSink`] and [`BufferedSink`] tell what std's readers give and what std's writers were given
//! (`bytes` of `read` and `write`). Trusted: that these readers and writers do as std says.
//!
//! ```
//! let mut source = StdSource::new(bytes); // or standard input
//! let mut sink = StdSink::new(room.as_mut_slice()); // or standard output
//! let mut magic = [0; 4];
//! let count = read_full(&mut source, &mut magic)?;
//! write_all(&mut sink, &magic[..count])?;
//! ```
//!
//! Tests: `header_tests`, module `sources`.
//!
//! Why so:
//!
//! - **A fault is answered only where a count rose.** Sources and sinks count their faults, and each clause that speaks
//!   of a fault says that the count rose in this call. Generic code can't raise it, so a body that gives up is refused.
//!   A counter that stands at its last value, 2^64 - 1, is read as risen.
//! - **A listed call of a memory sink** whose write is also refused memory fails by the list, and `refused` stays.
//! - **One call mostly takes or gives all bytes**, so `write_all` and `read_full` try one where they are called, and
//!   only what that leaves is a loop of its own. A [`BufferedSource`] copies what lies in std's buffer without a result
//!   of std's, which has 96 bytes, and a [`BufferedSink`] writes without one what has room in it: it asks what std
//!   asks, and what follows where there is no room stands apart.
//! - **Want of memory is std's `AllocError`** in every call below `offload_run` that has no other refusal; beside
//!   others it is a variant `NoMemory`.
#![tactic(auto)]

mod feed;
mod gate;
mod meeting;
mod mem_sink;
mod mem_source;
mod sink;
mod source;
mod standard;
mod sure;

pub use feed::Feed;
pub use gate::{Gate, NoGate, Who};
pub use meeting::Meeting;
pub use mem_sink::MemSink;
pub use mem_source::MemSource;
pub use sink::{Sink, WriteFault, write_all};
pub use source::{Failed, Source, read_full};
pub use standard::{BufferedSink, BufferedSource, StdSink, StdSource};
pub use sure::{SureSink, SureSource};
