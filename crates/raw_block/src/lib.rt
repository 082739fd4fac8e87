//! Blocks of 2048 bytes that several holders share by weights, on one count word.
//!
//! A `Sole` is a block's only holder, and alone writes its bytes. `share` begins a *life* of the block: one `Part` with
//! the weight `FULL`, 2^62. Parts split and join without a step on the word, which is what all parts of the life weigh
//! together. A `release` takes a part's weight from the word: the part that finds just its own weight there is the last
//! and becomes the Sole, and any other leaves a `Receipt` of its weight. A `claim` asks for the Sole beside others, and
//! `reunite` has it from a part and the receipts of all the rest.
//!
//! Proved over all interleavings of threads, with no lock: a part reads the bytes that its life began with
//! (`Part::bytes`), and only a Sole lends them for writing (`Sole::bytes_mut`, `range_mut`). Receipts of one life weigh
//! less than `FULL` together (`Receipt::add`), so some release was the last, and the proof of `release` has no second
//! one (`IsReleased`). A failed claim tells a weight above the part's own (`IsClaimed`), so a part of weight `FULL`
//! is never refused (`whole`), nor is a reunion; that the word held it is what the sight owns. Holders of one life
//! agree on its bytes and its mark (`agree` of `join`, `add`, `reunite`). The rule of weights is that of
//! `block_weight`, and `specs/Shares.antt` says who owns what.
//!
//! A block has a name, which contracts alone see: a number that is chosen as the block is made. Its Soles, parts,
//! receipts and sights show it through all lives. Two Soles side by side have two (`Sole::differ`), and so have a Sole
//! and a part (`Sole::differ_from_part`).
//!
//! Not said: how many steps on the word a call takes. `Share::release`, `claim` and `reunite` are one each, in one
//! line.
//!
//! ```
//! let mut sole = Sole::new(alloc)?;
//! sole.bytes_mut()[0] = 1;
//! let mut part = sole.share();
//! let other = part.split(1 << 50); // another thread may read it
//! let byte = other.bytes()[0]; // 1
//! match other.release() {
//!     Released::Left(receipt) => alone = Some(part.reunite(receipt)),
//!     Released::Last(_) => match part.release() {
//!         Released::Left(receipt) => receipt.close(),
//!         Released::Last(sole) => alone = Some(sole),
//!     },
//! }
//! ```
//!
//! Its parts: `block` (layout), `name` (a ghost number that only one block owns), `heap` (a box as its address), `held`
//! (the core that is proved by hand), and on top of them, in safe code, `sole`, `part`, `receipt`.
//!
//! Tests: `buffer_tests`, modules `blocks` and `readers`.
//!
//! Why so:
//!
//! - **Blocks come from the C heap.** `Sole::new` takes the allocator `Global`: a part's last holder frees the block,
//!   so each part must have the allocator, and a clone of a general allocator may fail. `Global` has no bytes.
//! - **A block has a name**, a ghost number that its Sole owns, so that two blocks have two. A life takes it as it
//!   begins, and the step that ends the life gives it back: what a part holds can't be shown beside a Sole, since it is
//!   lent to all parts, but what the life owns can. Parts, receipts and sights tell the number, and the account counts
//!   by it: a Sole that merely has the same mark isn't its block's.
//! - **Agreement is a clause.** That two parts, or a part and a receipt, of one life have one mark (and parts the same
//!   bytes) is told where two of them meet: `join`, `add`, `reunite`.
//! - **The release and the claim don't answer the number that the word held**, but what follows from it. The number is
//!   in the contract of the private functions that step the word.
#![tactic(auto)]

mod block;
mod heap;
mod held;
mod name;
mod part;
mod receipt;
mod sole;

pub use block_weight::{BLOCK_SIZE, FULL};
pub use part::{Claimed, Part, Released};
pub use receipt::{Receipt, Sight};
pub use sole::Sole;
