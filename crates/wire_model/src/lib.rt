//! What a packet that a host captured is on the wire: the definition, and the laws that it keeps.
//!
//! A host hands its card frames of up to 64 KB, which the card cuts, and sums of TCP and UDP that the card fills in;
//! so a capture on the host shows frames that never were on the wire. The definition is three sentences of `specs/`:
//! a packet that was captured whole, has a shape and right lengths is filled, which gives the sums that are partial
//! their right value, or each one (`filled_of` of `Filling`); a TCP frame with more than `mss` bytes of payload,
//! which passes the test of a merged record, is its segments (`cut_of` of `Wire`); and each packet else passes byte
//! for byte. A partial sum is that of the pseudo header alone (RFC 9293, section 3.1; RFC 768). What is done is
//! counted (`counts_of` of `Counting`), and a whole capture goes record by record (`wiring_whole` of `Passing`).
//!
//! There is no code here that runs. Each public function has an empty body, and its clause `law` is proved: a filled
//! packet of which no sum stays wrong is right ([`filled_is_right`]), none stays wrong where all are wanted
//! ([`all_are_filled`]), a packet whose sums are right stays ([`right_stays`]), and so does one that isn't filled
//! ([`others_pass`]); the segments of a packet that is cut may be merged ([`cut_is_mergeable`]), carry its payload
//! ([`payload_stays`]), and merged are its frame again ([`cut_comes_back`]; it is one that can be captured:
//! [`filled_is_captured`]); what is written goes record by record ([`wiring_goes_by_record`]), and more bytes make
//! none of it less ([`wires_grow`]).
//!
//! Tests: `wire_tests`, modules `frames` and `words`; and `contrib/fuzz-wire` beside the definition in Python.
//!
//! Why so:
//!
//! - **The test of a merged record is the test of a frame that may be cut.** So lengths, control bits and all sums are
//!   judged once, by `offload_model`, and the segments are those that `segment` writes.
//! - **A sum is due where it is partial, and is then written**, whether it was right by chance or not: the value is the
//!   same. Tunnels' own sums over UDP may be partial as well, since a host leaves both to a card that can do so.
#![tactic(auto)]

mod counts;
mod fate;
mod laws;
mod wiring;

pub use counts::Counts;
pub use fate::Fate;
pub use laws::{
    all_are_filled, cut_comes_back, cut_is_mergeable, filled_is_captured, filled_is_right,
    others_pass, payload_stays, right_stays, wires_grow, wiring_goes_by_record,
};
pub use wiring::Wiring;
