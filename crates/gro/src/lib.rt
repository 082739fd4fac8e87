//! Packets in buffers, which lie in one list while they are merged, written and compared, each in its [`Slot`].
//!
//! A slot is a frame as `frame_runs` wants it (`front`, `len` and `sum` of `Frame`): its first 200 bytes, or all of
//! fewer, lie in its buffer's head, and its payload is summed piece by piece, where it lies. So an engine merges a list
//! by index, and no packet moves.
//!
//! [`Packets`] is a list whose packets stay where they were read, without spares: a round of packets is one, is merged,
//! written and compared as it lies, and goes home from there. Proved:
//!
//! - `items` of `push` and `reverse`, `some` of `pop`: which packets it has, and in which order; `slots`: an engine
//!   reads just these; `room`: how many more it may take.
//! - `cloned` of `clone_at`: one packet's buffer is cloned as `Skb::clone` says, and all else stays as it was.
//! - `lent` of `share_heads`: each head that was a Sole is a part of all its block's weight, and all else stays as it
//!   was; `packets`: so no byte changes.
//! - `others` of `differ_from`: a Sole that stands beside packets is of no block of theirs.
//! - `alone`, `few` of `free`: how many blocks were freed, all where nobody else holds one, and never more than there
//!   are.
//!
//! ```
//! packets.push(first);
//! packets.push(next);
//! engine.merge(packets.slots(), Limits::up_to(4096));
//! let blocks = packets.free(); // 2: each packet's own, as no run has moved any
//! ```
//!
//! Its parts: `slot` (a packet in a list), `packets` (a list whose packets stay). `specs/Slots.antt` says what is known
//! of packets in a list and what they hold, `specs/Packets.antt` what a contract sees of a list. `proofs/Lying.antt`
//! has the laws of packets whose heads are shared or whose blocks nobody else holds, `proofs/Weights.antt` those of
//! what they weigh.
//!
//! Tests: `merge_tests`, modules `merging` and `home`.
//!
//! Why so:
//!
//! - **A list has no spares**: runs that are written as they lie want no blocks, and who joins some has spares of its
//!   own (`RoundTable` of `gro_table`). A head that is a Sole stays one: a part is given back by an atomic step and its
//!   block comes home by an outcome, so `share_heads` is a call of its own, for who clones.
#![tactic(auto)]

mod packets;
mod slot;

pub use packets::Packets;
pub use slot::Slot;
