//! The headers of a frame: its shape, its flow, and whether it may be merged.
//!
//! A frame of Ethernet (with up to two VLAN tags), IPv4 or IPv6, and TCP, or of these behind UDP and VXLAN, has a
//! [`Layout`]: [`shape`] finds it in the first 200 bytes (clauses `shape` and `front`). [`key`] gives what tells its
//! flow, and [`queue_of`] the flow's receive queue. [`candidate`] says whether the frame is a plain TCP segment with
//! exact lengths, right sums and a payload (`candidate`, in both directions), and what is read of it: a [`Seg`]. It
//! needs the front of the frame and the sum of the rest alone; [`candidate_in`] takes a layout that is known, and the
//! payload's sum, and [`mergeable_leaf`] only reads them. [`is_flow_of`] compares the keys of two frames where their
//! headers lie. No call takes memory. [`ip4_sum`] and [`carried_sum`] are the sums that headers before a payload
//! carry, which is known by its own sum ([`Front`]): a judge compares them with the fields, and who fills in headers
//! writes them.
//!
//! ```
//! let queue = queue_of(&key(frame), 4);
//! let len = frame.len() as u32;
//! if let Some(segment) = candidate(frame, &Partial::new(), len, len) {
//!     let payload = &frame[segment.layout.payload_at()..];
//! }
//! ```
//!
//! Its parts: `layout` (the type), `read` (shape), `flow` (the key), `queue` (key and queue of a frame), `front` and
//! `sums` (a frame known by its first bytes and a sum), `candidates` (candidate), `segment` (what is read of a
//! candidate), `same_flow` (whether two frames are of one flow), `choice` (the queue by a choice), `rss`,
//! `toeplitz_hash` and `hash_key` (what receive side scaling hashes, and its hash bit by bit and by tables), `plain`
//! (the headers that most frames have), `laws`. Its proofs
//! stand on two tables that compute: `Clear` (which bytes lie outside which fields of a header) and `Listed` (the 132
//! lists of headers that a shape may have).
//!
//! Tests: `header_tests`, modules `layouts`, `datagrams`, `encapsulated` and `queues`.
//!
//! Why so:
//!
//! - **What `candidate` asks of its caller**: the first bytes and what the partial sum stands for have `len` bytes
//!   together, the first bytes are the first 200 or all, and bytes are bytes. There is no bound on `len` but that of
//!   its type: an IPv6 frame of any length may say a payload length of 0, so a candidate has no greatest length. What
//!   bounds a run and a record is the frame's limit, 262,144 bytes, which stands in the rule of a run and in the
//!   opening of the record's test. `candidate_in` judges by a layout that is known and the sum of the payload, and
//!   `candidate` is that: who sums the payload for another reason reads its bytes once. Both read the layout by a
//!   reference and put it into the description at the end (`mergeable_leaf`): a layout of 40 bytes that is handed from
//!   call to call is copied at each, and each copy's room is set to zero first, since it has padding. `candidate_in`
//!   itself is inlined, so that the layout goes from its caller straight into the description. `mergeable_leaf` is for
//!   who has a layout that others have too, as that of a run.
//! - **The first 200 bytes tell the flow** (`front` of `key`), and `key_behind` takes a layout that is known, so that
//!   the headers of a packet that may be merged are walked once.
//! - **The fields that may differ are one table**, `varying`, as the pictures of the headers have them: what lies
//!   outside them, the tests, and the code's comparison of the bytes between them follow from it. What two such tables
//!   have to do with each other (no byte in common, one within the other) is computed.
//! - **What holds of the headers of every shape is computed** over the 132 lists of headers that there are
//!   (`all_shapes`): at most two IP headers, the first by place 22, a key of at most 119 bytes, at most one TCP header.
//! - **A GRE header is one of two layers**, of 4 bytes and of 8 with a key, so that a layer's size is a function of it
//!   alone. Headers with a sum or a sequence number give no shape: neither could be written again for a merged frame.
//!   Nor does a protocol type other than IPv4's and IPv6's, a tag's among them.
//! - **The Toeplitz hash stands twice**: bit by bit, as the definition's parities say, and by two tables of half bytes
//!   that a key makes once (`HashKey`), 576 numbers each: a third of the time. Both have the same clause.
//! - **What is hashed is read of the flow's key and not of the frame**, so it is total: for bytes that are no frame's
//!   key it is what the definition computes. That it is the addresses of the outermost IP header, and the ports of a
//!   TCP or UDP header directly behind it, is a law over a frame's layers (`rss_is_of_layers`).
//! - **Ethernet without tags, IPv4 or IPv6, and TCP lie at fixed places** (`plain`): such frames are judged, and their
//!   keys put together, by the same functions as others, called with headers that the compiler knows. So no place is
//!   checked and no list walked, and no proof is wanted but that the list is this one (`plain` of `are_plain`). A
//!   layout keeps which list it has, so that it is asked once, and `shape` looks there first: five tests, and the list
//!   is a constant.
//! - **Two frames are of one flow where the places of their keys hold the same** (`is_flow_of`): 24 bytes are compared
//!   where both have the plain headers, and no key of 120 bytes is made. Other keys are made and compared.
//! - **What isn't read needs no premise.** Neither shape nor key asks that the bytes behind the first 200 are bytes
//!   (`IsHeadOf`), so a packet that was cut short or has no shape is judged without a look at its payload.
#![tactic(auto)]

mod candidates;
pub mod choice;
pub mod flow;
mod front;
pub mod hash_key;
mod laws;
pub mod layout;
mod plain;
mod queue;
mod read;
mod rss;
mod same_flow;
pub mod segment;
mod sums;
mod toeplitz_hash;

pub use candidates::{candidate, candidate_in, ip6_length, mergeable_leaf};
pub use choice::{Choice, even_table, queue_by};
pub use flow::Key;
pub use front::Front;
pub use hash_key::HashKey;
pub use laws::{
    alike_keeps_key, alike_keeps_shape, candidates_are_short, headers_are_laid, rss_is_of_layers,
};
pub use layout::{Header, Layer, Layout};
pub use plain::{ETHERNET, IP, IP6, TCP, TCP6, are_plain, are_plain6};
pub use queue::{key, key_behind, queue_of};
pub use read::shape;
pub use rss::rss_input;
pub use same_flow::is_flow_of;
pub use segment::{Leaf, LeafFields, Seg};
pub use sums::{carried_sum, ip4_sum};
pub use toeplitz_hash::{hash_has_bits, hash_is_linear, toeplitz};
