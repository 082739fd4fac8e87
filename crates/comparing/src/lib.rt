//! Compares what the lanes of a round came to with the packets that went in, segment by segment, and counts what comes
//! back, queue by queue and tap by tap.
//!
//! ```text
//!   kept      p0 p1 p2 p3 p4 ..            a clone of each packet, in order
//!   flows     A: p0 -> p2 -> p3 ..         each packet leads to the next one of its flow
//!   run       A: q0 -> q2 -> q3            lies as it was read: [headers] are made beside, and behind them come the
//!             [headers] payloads ..        payloads; the segments are compared with p0, p2, p3 in turn
//! ```
//!
//! [`check_lanes`] takes the lanes of a round that was worked, and a clone of each packet, whatever these hold. A
//! queue's runs come in order ([`check_items`]); each stands for its own packet, or for the segments of its merged
//! frame, and these are compared with the next packets of their flow ([`KeptFlows`]): byte for byte, slice by slice
//! where they lie, and in original length. The merged frame isn't put together, and no segment is cut out: the headers
//! of both are made beside, and the payloads are read packet after packet. So no buffer changes, and memory is wanted
//! for totals and places alone.
//!
//! What is counted, and of these the packets that come back, are definitions of `check_totals`.
//!
//! Proved, by the names of the clauses:
//!
//! - `counts` of the inner calls: as many are counted as are equal in their places, whatever the packets are.
//! - `compared` of [`check_lanes`]: whatever packets the lanes hold in runs, of each queue so many are counted as
//!   returned as are equal to the next packets of their flows (`compared_lanes`). It asks no more of the lanes than
//!   that they may be compared. So a body that compares nothing doesn't meet it.
//! - `totals` of [`check_lanes`]: where the lanes hold what the round comes to, the totals are the model's: that all
//!   come back, byte for byte.
//!
//! ```
//! let mut flows = KeptFlows::of(alloc, &kept).expect(rt, "places");
//! let totals = check_items(slots, &engine.next, &engine.runs, &kept, &mut flows);
//! let returned = totals.returned;
//! ```
//!
//! Its parts: `bytes` (a buffer's bytes, read from the front), `payload` (those of a run's payloads), `same` (bytes
//! compared), `segment` (a segment of a merged frame), `in_bytes` (that they are bytes), `flow_key` and `kept_flows`
//! (each packet leads to the next one of its flow), `counting` (a run's packets), `items` (a queue's) and `lane_totals`
//! (a round's).
//!
//! Tests: `engine_tests`, module `reading_beside::examples`.
//!
//! Why so:
//!
//! - **It stands on lanes, and not on rounds**: a comparison wants the lanes and the clones that were kept, whoever
//!   worked them. So it is proved beside the engine, and merging and segmenting don't wait for it.
//! - **Merged frames and segments are compared as their packets lie**: the headers of a merged frame and of a segment
//!   are made beside, by the rules that writing and cutting have, and a payload is read in the packets' own blocks. A
//!   cutter would share a head, with which a life of that block begins, so the account of a round by lives would not be
//!   kept; and comparing would want spares, places and memory for pieces. So nothing of the lanes changes.
//! - **A merged frame is cut by its run's own numbers**, without a test of its record: that packets of a run may be
//!   merged is known of the run, and that what they come to may be cut is a law. So of a payload each byte is summed
//!   once, for its segment's headers, and compared once; of a packet that is alone none is summed.
//! - **That packets hold bytes** is found by a pass over their slices, in which none is read (`in_bytes`): cutting a
//!   frame wants it of all its bytes, and it is a fact of slices, so no caller has to give it.
//! - **The flow's packet in a segment's place** is found by one pass over the kept packets from the last to the first,
//!   which leads each to the next one of its flow, and a place for each flow that moves on as its runs come. Each kept
//!   packet is compared once at most, so a packet that came twice, or in another's place, isn't counted.
//! - **That as many come back as went in is a law, and no evidence** (`records_return`: `returned` of the definition is
//!   the packets of the queue): the number alone doesn't show that bytes were compared. `compared` of [`check_lanes`]
//!   does, whatever the lanes hold, and so do the tests.
#![tactic(auto)]

mod bytes;
mod counting;
mod flow_key;
mod in_bytes;
mod items;
mod kept_flows;
mod lane_totals;
mod payload;
mod same;
mod segment;

pub use items::check_items;
pub use kept_flows::KeptFlows;
pub use lane_totals::check_lanes;
