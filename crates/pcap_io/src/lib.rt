//! Captures in the classic pcap layout, version 2.4: reading and writing.
//!
//! The layout is that of the pcap file format ("PCAP Capture File Format", draft-ietf-opsawg-pcap, sections 4 and 5; in
//! short pcap-savefile(5)). A capture is a file header and records. [`CaptureReader`] gives the records one by one from
//! a source and takes no byte beyond what it asks for; [`write_file_head`] and [`write_rec_head`] write the headers,
//! and [`OffHead2`] is the 16-byte header of this project's own that stands before each frame in a capture of link type
//! 147, and [`OffHead`] the 12-byte header that stood there before.
//!
//! Proved: what the reader gives, what it refuses, why and where, and what is left of the source is what `reads` in
//! `specs/Capture.antt` says of the bytes (clauses `given`); each header written is its fields (`ok`, `err`). Laws of
//! the definitions, each on a function: what is written is read back, and a capture is the longest list of its whole
//! lawful records, spelled out, in one way alone ([`capture_splits`], [`split_is_unique`]).
//!
//! ```
//! let mut reader = CaptureReader::start(&mut feed, Link::Ethernet)?;
//! if let Some(head) = reader.next_head()? {
//!     reader.read_body(&mut frame[..head.captured as usize])?;
//! }
//! ```
//!
//! Its parts: the definition of a capture is one function by recursion on the bytes (`records_from`), and each test
//! that may refuse a header or a record is a row of a table, read by the first row that holds. A reader is a source
//! that it borrows and a place; what is still to be read from here is `found_at place bytes`.
//!
//! Tests: `header_tests`, module `captures`.
//!
//! Why so:
//!
//! - **What is left at a refused capture** is said as a rest of what was given, and not to the byte: how far a refused
//!   record was read is the reader's own matter.
#![tactic(auto)]

mod faults;
mod heads;
mod judge;
mod laws;
mod off_head;
mod place;
mod reader;
mod writer;

pub use faults::{CapFault, CapKind, InFault};
pub use heads::{FileHead, Link, RecHead};
pub use laws::{
    capture_reads_back, capture_splits, file_head_reads_back, lengths_are_of_packets,
    lengths_go_by_record, off_head_reads_back, off_head_writes_back, off_head2_reads_back,
    off_head2_writes_back, rec_head_reads_back, rec_head_writes_back, split_is_unique,
};
pub use net_bytes::Order;
pub use off_head::{AnyHead, FRAME_LIMIT, OFF_HEAD_LEN, OFF_HEAD2_LEN, OffHead, OffHead2};
pub use place::Place;
pub use reader::{CaptureReader, take_file};
pub use writer::{record_header, write_file_head, write_rec_head};
