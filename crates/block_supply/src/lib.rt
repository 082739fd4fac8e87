//! Where blocks come from while records are read into others.
//!
//! [`Supply`] is whoever brings blocks home between a record's header and its body, and before a round. It tells what
//! these weigh, each by its name, how often it found none, and whether whoever has the others keeps them. Who brings
//! none is [`AllHome`].
//!
//! [`Taker`] is the end of a pool of lists at which blocks come back that another thread gives. Each list comes by one
//! step and is taken from at hand, block by block; its memory is there again once its blocks are home
//! ([`Taker::take_spent`]). The other end is a [`Giver`](block_pool::Giver), and [`open_lists`] makes both: the giver
//! has all parts of the pool's passes but one.
//!
//! Proved, of each supply: `named` of `bring` and `look`: what came home is what it brought, just these blocks by their
//! names, so by weights of 1 it is counted too; `same`: none was taken; `enough`: it says yes only where as many are
//! home as are needed; `refused`, `looked`, `asked`: it counts how often it found none. Of a taker: `named` of
//! [`Taker::bring`]: what came home is what was taken and isn't left of a list; `refused`: where none came a take found
//! no list, or all places are taken.
//!
//! ```
//! let (mut taker, giver) = open_lists(alloc)?;
//! let came = taker.bring(&rt, &mut pool);
//! ```
//!
//! Tests: `engine_tests`, modules `rounds_in_turn::sides` and `reading_beside::pausing`, and `buffer_tests`, module
//! `examples`.
#![tactic(auto)]

mod supply;
mod taker;

pub use supply::{AllHome, RECORD_BLOCKS, Supply, has_blocks};
pub use taker::{Taker, open_lists};
