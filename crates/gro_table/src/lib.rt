//! Runs of packets joined into buffers of their own, as an item each: no payload is copied but what a head must have.
//!
//! ```text
//!   packet    [headers|payload] --> piece ..      packet   [headers|payload] --> piece ..
//!                 |       \                                         |
//!                 v        v                                        v
//!   item      [headers|payload: 200 bytes in all] --> the rest of each payload, where it lies, as pieces
//! ```
//!
//! A [`Packet`] is a buffer with two spare blocks. Where a run is joined the first one's spare becomes the new head:
//! its headers are written there, and edited there, so that no block is written that somebody else may hold. Behind
//! them stand so many bytes of the payloads that the head has 200, and all else moves. An [`Item`] is what a run comes
//! to, with the blocks that merging has left.
//!
//! A [`RoundTable`] owns packets, which it moves into items; how they are merged is the engine's of `frame_runs`. It
//! receives them one after the other, and finishes into their items. Proved, by the names of its clauses, whatever the
//! packets are:
//!
//! - `received` of `make` and `receive`: its runs are the maximal mergeable runs of each flow of the packets so far, in
//!   the order of their first packets, and hold these packets and nothing else; `count` and `many`: so many blocks and
//!   parts, and packets.
//! - `merged` of `finish`: the items are what the maximal runs of each flow come to, in the order of their first
//!   packets.
//! - `account` of `finish`: nothing of the packets is lost, and a life begins at most with a head that is a Sole;
//!   `shared`: where each head is a part, the items hold what the packets held. `count`: as many blocks and parts;
//!   `least`: no part of their buffers weighs less than w where none of the packets' does, and w is at most the weight
//!   of a whole block.
//! - `ready` of `finish`: each item's head has the first 200 bytes, or all of fewer, and one block at least is free
//!   beside it.
//! - `back` of `finish`: where memory is refused the table comes back as it was. `receive` would give its packet back,
//!   but asks for none.
//! - `kept`, `grows` and `places` of `release`: all that the table holds is given back, in places that were reserved
//!   before, and so is what a [`Packet`] holds.
//! - `finish_into` and `clear` say the same as `finish` and `release`, and `none`: the table holds nothing, and may be
//!   started again.
//!
//! Memory is taken in `make` and `start`, for all packets, runs and flows that may come, and in `finish`, before
//! anything moves. Receiving takes none. A table that serves one round after another keeps all of it but what items
//! take with them: each run's list of pieces, and outcomes, which `keep` takes back once they are empty. When memory is
//! refused no clause says.
//!
//! ```
//! let mut table = RoundTable::make(alloc, 2, 4096).expect(&rt, "memory");
//! if let Err((packet, _)) = table.receive(first) {
//!     packet.release(&mut outcomes);
//! }
//! if let Err((packet, _)) = table.receive(second) {
//!     packet.release(&mut outcomes);
//! }
//! match table.finish() {
//!     Ok(items) => blocks = spent(&rt, items, &[(0, 2, 100, 0)]), // one item of both, with 100 bytes of each
//!     Err((table, _)) => table.release(&mut outcomes),
//! }
//! ```
//!
//! Its parts: `packet_list` (slots, with the packets' spares beside), `table` (`RoundTable`), `places` (the lists that
//! items need, made before anything moves), `waiting` (packets as runs take them out of the list), `build` (the join
//! into one buffer), `item` (what a table's run comes to), `shelf` (memory that serves items to come).
//! `specs/Held.antt` says what is known of packets with spares, `specs/Lists.antt` how a list has them,
//! `specs/Waiting.antt` which packets are taken, `specs/Table.antt` what a contract sees of a table, `specs/Items.antt`
//! what an item holds.
//!
//! Tests: `merge_tests`, modules `merging` and `home`.
//!
//! Why so:
//!
//! - **A merged buffer's head is a block of its own**, the first packet's spare: that packet's headers are written
//!   there and edited there, and behind them stand so many bytes of the payloads that the head has 200, or all of
//!   fewer. No packet's head is written, whether others hold it or not, so a tap reads what arrived, and there is one
//!   way where there would be two. At most 200 bytes are copied for a run and none for a packet that is alone. Neither
//!   `pull_up` nor `unshare` serves: the one copies what is dropped again, and the other may copy a block.
//! - **Chains share the indices out** (`AreSharedOut` of `frame_runs`), so in the end the items hold each packet once,
//!   and nothing else.
//! - **All places are made before the first packet moves**: for a packet that is alone room for its two spares, for a
//!   run a list of pieces, one for each head and piece, and room for what is given back, three places for each packet:
//!   two spares, and a head that the merged head has used up. So building items takes no memory, and a refusal leaves
//!   the table as it was. By the code that is no allocation for a packet that is alone and one for a run where
//!   emptied outcomes were kept, and two more where none were.
//! - **Packets line up before they are taken**: a list gives its elements up from its end alone, and runs take theirs
//!   in another order. So each goes once to a place that may be empty, and from there to its run's item.
//! - **Where each head is a part no life begins** (`shared` of `HoldsAll`), and the account of an item is that of its
//!   packets; where some are Soles, a life begins at most with each of these (`account`).
//! - **A table serves one round after another**: `finish_into` and `clear` leave one that holds nothing, whose lists
//!   keep their memory, and `start` says how many packets the next round has. It takes memory only where no round
//!   before had as many. That there is room is so asked where memory may be refused, and no step has to say that
//!   capacities stay.
//! - **Emptied outcomes serve items to come** (`keep`), so that a packet that is alone takes no memory and a run has
//!   one list to make, its pieces', which stays with its buffer. The form for that one: a release of a buffer that
//!   hands its emptied list of pieces on. What is asked of places (`IsPlaceOf`) stays as it is, and so does every proof
//!   of the join.
//! - **That memory is refused only where it is wanted isn't said** of `finish`: a table doesn't say which of its lists
//!   are full. `receive` never refuses, though its answer could: a caller that was written for a table that may is
//!   served as before.
#![tactic(auto)]

mod build;
mod item;
mod packet;
mod packet_list;
mod places;
mod shelf;
mod table;
mod waiting;

pub use item::Item;
pub use packet::Packet;
pub use table::RoundTable;
