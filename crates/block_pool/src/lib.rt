//! Pools of blocks, whose memory is taken when they are made.
//!
//! `Pool` is one thread's. It holds Soles, so each block that is home or that `take` answers has no other holder.
//! `take` answers the one that came home last and is `Empty` exactly where none is home (clause `block`); `put` brings
//! one back into a place that `make` reserved, and takes no memory. `taken` counts the blocks that were taken.
//!
//! `SharedPool` is shared by threads, each with a `PoolPass` of its own. Nothing is lost: what is home and all that was
//! taken is what was made and all that was put, block by block (clauses `taken` of `take`, `put` of `put`, `blocks` of
//! `home`). A refusal is counted, and there is none where the pass that has all parts shows a block home, or fewer home
//! than were made (`sure`).
//!
//! `ListPool` is shared as well, and its blocks go list by list, each list by one step: `take_block` takes blocks one
//! by one from a list at hand, which comes whole, and `put_all` brings a list home. No block is lost (clauses `block`
//! of `take_block`, `put` of `put_all`), and no emptied list (`spent`).
//!
//! `Giver` is who brings lists there: it has a list of blocks that nobody wants any more, and a pass. `give` brings the
//! whole list to the pool by one step, and it stays where the pool is full (`once`); what was given and what lies there
//! is what it was, block by block, and nothing that was given comes back (`gave`). For another thread a part is split
//! off, which comes back with its pass (`split`, `count` of `split`; `joined` of `join`). Who takes lists may sleep by
//! a `Bell`, which `give` rings where it was told that somebody waits; of waking nothing is proved.
//!
//! ```text
//!   takes lists <── pool of lists <── give ── giver: pass, list ── split ──> giver: pass, list ── give ──> pool
//!                                                      ^                             │
//!                                                      └─────── join: pass, rest ────┘
//! ```
//!
//! ```
//! let mut pool = Pool::make(alloc, 64)?;
//! if let Ok(block) = pool.take() {
//!     pool.put(block);
//! }
//! ```
//!
//! Tests: `buffer_tests`, module `pools`.
//!
//! Why so:
//!
//! - **The shared pool's rule is over blocks, and not over their numbers alone.** Two lists that weigh the same under
//!   every weight of a block have the same blocks, so a sum says "block by block" and stays arithmetic. With numbers
//!   alone a `put` that writes on the block, or swaps it, would be let through.
//! - **The rule looks into no item**, so one rule serves blocks and lists of blocks: what a list weighs is what its
//!   blocks weigh together, and the sums say "block by block" of lists too. What is left of a list that was taken stays
//!   with whoever took it, above the pool, so each take and each put is still one step.
//! - **Seven kinds of step and no others.** A look at the queue that changes nothing (`home`, and `gather`'s check that
//!   parts stay below 65,536) is none.
//! - **A pass is a `requires`**: each call wants a pass of its own pool, by the queue's name and the number of blocks.
//!   A pass that is dropped takes its parts with it.
//! - **A giver holds its pool by a count** (`Arc`), and not by a loan, since it goes along with tasks that outlive a
//!   call.
//! - **What a giver has taken is nothing**, by its invariant: so a pass that comes back changes what was put alone.
//! - **`fork` takes no handle** and returns always. `gather`, `take` and `put` wait for ever where a count of 64 bits
//!   would wrap, as the queue itself does after 2^62 pushes; so no caller carries a bound.
#![tactic(auto)]

mod bell;
mod giver;
pub mod lists;
mod pool;
pub mod shared;

pub use bell::Bell;
pub use giver::Giver;
pub use lists::{BlockList, ListPass, ListPool};
pub use pool::{Empty, Pool};
pub use shared::{PoolPass, SharedPool};
