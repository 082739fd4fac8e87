//! Records of a capture, written from the buffers in which their bytes lie.
//!
//! There is one way to write merged packets, single ones, segments and the windows of taps. A record is its header,
//! maybe an offload header of 16 bytes, and a frame (pcap file format, section 5). Both headers are put together and
//! written by one call, and then the slices of the frame's buffer, uncopied. The segments of a merged frame are written
//! from its own buffer ([`write_segments`]): of each its record header and its own headers by one call, and then its
//! part of the payload. What a run of packets comes to is written from the packets, where they lie ([`write_run`]): the
//! record's headers and the merged frame's by one call, and then the payloads, each from its own packet.
//!
//! Proved, at every sink: what was appended is exactly the record as the model has it (`record_bytes`, clauses `ok`),
//! or a prefix of it where the sink's count of faults rose (`err`, `cause`). Of segments these are all of their
//! records, in turn, and of an engine's runs what each of them comes to.
//!
//! ```
//! let written = write_record(&mut sink, &file, time, original, None, &segment);
//! ```
//!
//! Tests: `engine_tests`, modules `rounds_in_turn::writing` and `rounds_in_turn::segments`.
#![tactic(auto)]

mod buffer;
mod in_place;
mod record;
mod segments;

pub use buffer::write_buffer;
pub use in_place::{write_run, write_runs};
pub use record::{Time, write_record, write_window};
pub use segments::write_segments;
