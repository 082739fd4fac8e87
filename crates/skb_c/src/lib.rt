//! Packet buffers for C, as `struct sk_buff`: a pool of blocks, and buffers over them. `contrib/c/offload.h` declares
//! what is exported.
//!
//! No export has a `requires`: each number is tested and answered, and so is a struct of zeros, which is a place
//! without a pool or a buffer. A C caller owes what the header says, and nothing checks that it keeps it.
//!
//! Proved, each clause over what the structs of C hold before and after (`specs/Held.antt`), by the relations of `skb`:
//!
//! - `made`, `few`, `alone` of [`offload_pool_new`]: a pool has so many blocks, all home. `home`, `same` of
//!   [`offload_pool_home`], `none` of [`offload_pool_free`].
//! - `made` of [`offload_skb_new`]: the buffer is empty, with its headroom, in the block that came home last.
//! - `push` of [`offload_skb_push`], `put` of [`offload_skb_put_tail`], `cloned` of [`offload_skb_clone`], `unshared`
//!   of [`offload_skb_unshare`], `split` of [`offload_skb_split_at`], `copied` of [`offload_skb_copy`], `attached` of
//!   [`offload_skb_attach`]: the buffers afterwards, the pool's blocks, and the cause of each answer but 0. A head that
//!   others hold isn't written.
//! - `pulled` of [`offload_skb_pull`], `trimmed` of [`offload_skb_trim`]: the bytes, and that by the account nothing is
//!   lost: what the buffer has no more is home, or others hold it.
//! - `released` of [`offload_skb_release`]: each block that the buffer holds alone is home, and each other one is home
//!   or held by others, as far as the pool has places (`home` of `bring_home`).
//! - `read`, `same` of [`offload_skb_read`], `size`, `same` of [`offload_skb_length`].
//! - A pool and a buffer may go to other threads, a clone beside its buffer too (`Send` of both handles).
//!
//! Not said: when there is no memory; which of several holders is the last one, and so when a block that they share
//! comes home; where the bytes lie.
//!
//! Its parts: `pools` and `exports` (what C calls), `depot` (a pool, and the room that what is given back goes
//! through), `buffer`, `kept` (both in the structs of C), `handle` (both by their addresses), `codes`.
//! `specs/Does.antt` and `specs/Home.antt` say what calls answer without and with a pool, `specs/Held.antt` the same
//! where there may be none, `specs/Codes.antt` the numbers.
//!
//! Tests: `contrib/c/skb_test.c`, by `contrib/c/check`.
//!
//! Why so:
//!
//! - **Calls that give blocks back are told the pool**, so that its contract says what comes home, and a buffer needs
//!   no list for it. That list is the pool's, and as long as its blocks are many.
//! - **Receipts are closed.** A pool that kept them, to count what others hold, would grow with each clone.
//! - **A pool or a buffer is in its place or out of it**, as an engine of `burst_c`: so each call is one of `Skb` or
//!   `Pool`, and only the two steps between are proved by hand.
//! - **Where a buffer leaves its box for a while**, as the second one of `offload_skb_attach`, the box has a block of
//!   its own meanwhile, so that a refusal for memory brings the buffer back.
#![tactic(auto)]

mod buffer;
mod codes;
mod depot;
mod exports;
mod handle;
mod kept;
mod pools;

pub use exports::{
    offload_skb_attach, offload_skb_clone, offload_skb_copy, offload_skb_length, offload_skb_new,
    offload_skb_pull, offload_skb_push, offload_skb_put_tail, offload_skb_read,
    offload_skb_release, offload_skb_split_at, offload_skb_trim, offload_skb_unshare,
};
pub use pools::{offload_pool_free, offload_pool_home, offload_pool_new};
