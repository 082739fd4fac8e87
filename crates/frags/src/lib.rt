//! Lists of pieces of shared blocks, as the field knows them from the fragments of Linux's `struct sk_buff`, and what
//! is left of them when they are given back.
//!
//! `Pieces` is a list of parts of blocks, each with the range of its bytes that counts. Contracts see the list, and of
//! it the bytes (`bytes_of`), the number of pieces and the weights (`specs/PieceList.antt`). Each call is an operation
//! on that list: `append` and `join_back` put at the end, `cut_front` drops, `split_at` takes and drops, `share` gives
//! every part's `max(1, weight / 4096)` to a second list. No byte is copied but by `copy_out`, which fills the caller's
//! slice.
//!
//! `PieceBuilder` puts such a list together in places that `with_room` reserved, so that a caller has its memory before
//! it moves anything.
//!
//! `Outcomes` keeps what releases leave: a Sole or a receipt, in places that `reserve` made, so that giving back takes
//! no memory. They come in order of return, and the clause `grows` says how many (`specs/Growth.antt`).
//!
//! Nothing is lost: `specs/Account.antt` counts by blocks, lives and marks what an object holds, and the clauses `kept`
//! and `sums` say that it stays or that its own block's Sole is at home, `back` that a refused call hands it back, and
//! `marks` the same over all lives of a block, where a Sole is shared and a life begins. `Keeps` adds up over calls by
//! arithmetic alone. What follows over a round is in `specs/RoundAccount.antt`.
//!
//! `differ_from` is a law: a Sole that stands beside pieces is of no block of theirs (`others`). So who has let go of a
//! part while others of its block are there has no Sole of it.
//!
//! ```
//! let mut pieces = Pieces::new(alloc);
//! if let Err((part, _)) = pieces.append(sole.share(), 64, 1500) {
//!     outcomes.give_back(part);
//! }
//! if let Ok(mut clone) = pieces.share() {
//!     if clone.cut_front(14, &mut outcomes).is_ok() {
//!         len = clone.len(); // 1422
//!     }
//!     clone.release(&mut outcomes);
//! }
//! pieces.release(&mut outcomes);
//! ```
//!
//! Its parts: `Outcomes` keeps what was given back, in places that were reserved before, and grows at its end alone
//! (`specs/Growth.antt`; by what: `specs/Returns.antt`); `Pieces` is seen as a list of pieces
//! (`specs/PieceList.antt`; what a share gives away: `specs/Gifts.antt`); `PieceBuilder` puts one together in places
//! that were reserved before. The account (`specs/Account.antt`) says by blocks, lives and marks that no weight is made
//! up and that what was held is held or its own block's Sole is at home; `specs/RoundAccount.antt` has what follows
//! over a round.
//!
//! Tests: `buffer_tests`, modules `pieces` and `cuts`.
//!
//! Why so:
//!
//! - **Memory first**: a call that may be refused for memory has it before it moves anything, so that a refusal changes
//!   nothing. `Pieces::append_all` puts a holder's bytes and other pieces behind at once, and `PieceBuilder` reserves
//!   its places when it is made; `attach`, `split_at` and `copy` stand on them. `clone` alone leaves a Sole head a part
//!   of the whole weight when it is refused.
//! - **The invariant of pieces has each part's weight from 1 to FULL**, so that a part that isn't worn has something to
//!   give, and both results of a share add up.
//! - **What was given back stands behind what was there** (`Grows`): of a call's outcomes a caller knows the old ones
//!   and the number of new ones, and which they are by the account.
//! - **The account is two functions**, of tests on blocks and lives and of marks, and not a finite map: every sum of it
//!   is arithmetic. A Sole has no life and counts the whole weight at its block and mark. A call that begins a life
//!   says it over all lives of a block.
#![tactic(auto)]

mod builder;
mod cuts;
mod holder;
mod laws;
mod outcomes;
mod pieces;

pub use builder::PieceBuilder;
pub use holder::{Holder, give_share};
pub use laws::{block_is_home, keeps_is_settling, settling_adds_up};
pub use outcomes::Outcomes;
pub use pieces::{Piece, Pieces, ShareFault, Short};
