//! Generated captures: large valid input with no file.
//!
//! A capture is given by a seed and a number of records. Its frames are TCP segments of eight flows over IPv4 and IPv6,
//! with a tag (IEEE 802.1Q) and in a VXLAN tunnel (RFC 7348), in the classic pcap layout. Most segments are full and
//! follow one another, so that they merge; draws from the seed make some short, empty, pushed, or with a jump of the
//! identification.
//!
//! The definition stands in `specs/`: the draws, the headers, the frames with their sums by one division, and the
//! capture, `made`. Proved: [`make_capture`] appends just these bytes, or a prefix of them at a fault (clauses `ok`,
//! `err`, `cause`); a [`MadeSource`] gives just these bytes, takes no memory and never fails; [`made_len`] is their
//! number; and the capture reads to its end with as many records as were wanted ([`made_reads_back`]).
//!
//! ```
//! make_capture(1, 1000, &mut sink)?;
//! let mut source = MadeSource::new(1, 1000);
//! ```
//!
//! Its parts: `draws` (what of a record is drawn), `headers` (each header as the array of its bytes), `record` (a
//! buffer that is filled from its end, each header pushed before what it carries), `frame`, `maker` (one record after
//! the other), and on these `capture` and `source`.
//!
//! Tests: `word_tests`, module `made`.
//!
//! Why so:
//!
//! - `make` takes at most 10,000,000 records, and `make_capture` and `MadeSource` any number of 32 bits: no clause
//!   wants the limit.
//! - **A generated frame is built from its end**, each header as the array of its bytes before what it carries: the
//!   clauses are concatenations, and no place is counted. A full payload's sum is taken of its bytes, which is fast
//!   enough.
#![tactic(auto)]

mod capture;
pub mod draws;
mod frame;
mod headers;
mod laws;
mod len;
mod maker;
mod record;
pub mod segment;
mod source;

pub use capture::make_capture;
pub use laws::made_reads_back;
pub use len::made_len;
pub use source::MadeSource;
