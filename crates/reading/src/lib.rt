//! Records of a capture, read into blocks of a pool.
//!
//! A record is read by one call, [`read_record`]: its header, and its body straight into blocks, the first bytes behind
//! headroom. It is judged in this order: its header, whether its round then needs more blocks than there are, its body.
//! So a record that is too big takes no block, and one that is cut short or whose source fails leaves none out. Of a
//! record of link type 147 the first 12 bytes are read apart, as every offload header has them. Its packet is made
//! where it stays, behind the others of a list. Two blocks more, which its need counts and nothing reads, go to a list
//! of their own.
//!
//! Between its header and its body what a record needs is known, and its blocks come home where they are out: whoever
//! has a [`Supply`](block_supply::Supply) of them brings them then, and no sooner; who brings none is
//! [`AllHome`](block_supply::AllHome). Where as many are home as it needs nobody is asked. Where they don't come the
//! header is kept, by an argument so that no answer has to carry it, and the reader stands behind it: the next call
//! reads the body once they are home.
//!
//! Nobody else holds a block of a buffer that was read, and its blocks are marked in turn. Where that stays so they go
//! home by count alone ([`bring_blocks`]).
//!
//! Proved, by the clauses of [`read_record`]:
//!
//! - `given`: the packet is the next one of the capture, and a refusal is told by the capture's bytes alone;
//!   `PoolEmpty` exactly where the round's need exceeds the blocks, with that need, judged by the record's header.
//! - `kept`: where a record lacks blocks its header is kept, fewer are home than it needs, with it the round doesn't
//!   exceed the blocks, and none was taken; `unkept`: else nothing is kept. `stands`, `given`: with the bytes of its
//!   header, whatever they were, it is then read as any other. `tells`: a source that told what it has left tells it
//!   still. `refused`, `asked`: the supply counted that it found none.
//! - `home`, `spares`, `back`: what of the pool is out, beside what came home meanwhile, is what the packet and its
//!   spares have, and after a refusal nothing; `named`, `named_back`: these are just the same blocks, by their names;
//!   `taken`, `most`, `least`: by how much the count of takes rises.
//! - `one`, `none`: the list has the packet more, or is as it was.
//! - `laid`: the blocks are marked in turn, and held by nobody else; `captured`: the packet is such as a capture may
//!   hold.
//!
//! ```
//! let mut hold = VecDeque::with_capacity(alloc, RECORD_BLOCKS)?;
//! let mut packets = Packets::with_capacity(alloc, 1)?;
//! let mut kept = None;
//! let read = read_record(
//!     alloc,
//!     &mut pool,
//!     &mut hold,
//!     &mut spares,
//!     &mut reader,
//!     &mut AllHome::new(),
//!     &mut kept,
//!     &mut [],
//!     0,
//!     0,
//!     &mut packets,
//! );
//! ```
//!
//! Its parts: `record` (a record's header judged, and its body read), `body` (bytes into blocks), `blocks` (blocks
//! taken and marked, made a packet, and brought home). Who brings blocks home meanwhile is in `block_supply`.
//!
//! Tests: `engine_tests`, modules `rounds_in_turn::merging`, `rounds_in_turn::jumbo` and `rounds_in_turn::segments`, by
//! the crates that read rounds and segments.
#![tactic(auto)]

mod blocks;
mod body;
mod record;

pub use blocks::bring_blocks;
pub use record::{Stop, read_record};
