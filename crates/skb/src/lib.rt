//! Packet buffers, in the manner of Linux's `struct sk_buff`: headroom, clones, and fragments over shared blocks.
//!
//! ```text
//!   head block, 2048 bytes: a Sole, or a Part beside others       pieces of other blocks, each a Part
//! +----------+---------------------------+----------+          +---------+   +---------+
//! | headroom | head: the bytes from..to  | tailroom |  ----->  | piece 0 |-->| piece 1 |--> ..
//! +----------+---------------------------+----------+          +---------+   +---------+
//! 0         from                         to       2048
//! ```
//!
//! Contracts see the head with its range and the list of pieces (`SkbState`), and of it the bytes (`buffer_bytes`).
//! `push` and `pull` move `from`, `put_tail` and `trim` move `to`, and a head left empty stays. There is tailroom only
//! where no piece follows the head.
//!
//! Sharing: a head that is a Sole is the only one that is written, so `push` and `put_tail` of a shared one are
//! refused, and `head_mut` has none. `clone` makes the head a Part and gives `max(1, weight / 4096)` of each part away;
//! no byte is copied. `unshare` asks for the head's block back, and copies it into a spare where others hold it.
//! `attach` puts another buffer behind, uncopied, and `move_into` puts a buffer behind the pieces of a list whose
//! memory was taken before. `split_at` cuts one in two, uncopied: of the part that is cut the front keeps what `clone`
//! would give. `pull_up` copies the first bytes into a spare, which becomes the head, and `copy` copies all into
//! spares, which share nothing. `share_head` makes a Sole head a Part at once, so that no later call does. `sum_from`
//! is the Internet sum of the bytes, where they lie. Blocks come from the caller; memory is taken for lists of pieces
//! alone.
//!
//! Proved, by the names of the clauses:
//!
//! - `bytes`: each call is that operation on the list of bytes, and so are `copy_out` and `byte_at`.
//! - `push`, `put`, `clone`, `attached`, `split`, `pull_up`, `copy`: the exact buffer afterwards, and each refusal
//!   exactly where its definition says (`IsPush`, `IsPut`, `IsClone`, `Attaches`, `IsCut`, `IsPullUp`, `IsCopy`). It
//!   leaves the buffer as it was, but that a clone refused for memory has made a Sole head a part. `pull` and `trim`
//!   say the same by `bytes`, `head`, `room` and `rest`, and `unshare` by `head` and `room`.
//! - `account`, `kept`, `sums`, `marks`: nothing is lost (see `frags`). A call that begins a life, since it shares a
//!   Sole, says it by marks; where the head is a Part, none begins.
//! - `sum`, `in_bytes`: the sum stands for the bytes from that place on, and each is below 256.
//! - `returned`: what `release` leaves, outcome by outcome.
//! - `others`: a Sole that stands beside a buffer is of no block of it (`differ_from`).
//! - `grows`, `fewer`, `places`: outcomes grow only at their end, by how many, and what room is left in them.
//! - `writes_back`: after `head_mut` the head's bytes are what was written, and all else is as it was; at None nothing
//!   has changed.
//!
//! ```
//! let mut skb = Skb::new(block, 64, 64, Pieces::new(alloc));
//! let put = skb.put_tail(payload);
//! let pushed = skb.push(header);
//! if let Ok(mut clone) = skb.clone() {
//!     if clone.pull(14, &mut outcomes).is_ok()
//!         && let Ok(second) = clone.split_at(1460)
//!     {
//!         lengths = (clone.len(), second.len()); // 1460 and 440
//!         second.release(&mut outcomes);
//!     }
//!     clone.release(&mut outcomes);
//! }
//! skb.release(&mut outcomes);
//! ```
//!
//! Its parts: a buffer is seen as its head, its range and the list of its pieces; bytes, sizes, weights and the account
//! follow from one equation of lists. `skb` (the type, and what is read of it), `ends` (`push`, `put_tail`, `pull`,
//! `trim`), `sharing` (`clone`, `unshare`), `attach`, `heads` and `lend` (what becomes of a head), `pull_up`, `cut`
//! (`split_at`), `moving` (`move_into`), `copy`, `checksum` (`sum_from`). `specs/Fronts.antt` says what merging and
//! segmenting ask of first bytes and write as such.
//!
//! Tests: `buffer_tests`, modules `buffers` and `readers`.
//!
//! Why so:
//!
//! - **A buffer's value is its head, its range and the list of its pieces**, and not its bytes alone: one equation of
//!   lists gives bytes, sizes, weights and the account.
//! - **`copy` takes the last spares in turn**: the last one is the head, with 64 bytes of headroom and up to 1984 of
//!   the bytes, and each further block has up to 2048.
//! - **`pull_up` judges by the head alone**: where the first n bytes lie there already the spare comes back, and the
//!   head may be shared.
//! - **What drops a buffer may have no outcomes and no memory**: `Skb::free`, `Pieces::free`, `Packets::free` and
//!   `Round::discard` release part by part, free each block whose last holder they were, and answer how many these
//!   were: of a buffer that is alone, and of a round that was read, all. A round that is given up among its rounds goes
//!   home instead.
#![tactic(auto)]

mod attach;
mod checksum;
mod copy;
mod cut;
mod ends;
mod heads;
mod lend;
mod moving;
mod pull_up;
mod sharing;
mod skb;

pub use crate::copy::CopyFault;
pub use crate::ends::RoomFault;
pub use crate::heads::write_at;
pub use crate::pull_up::{FRONT, HEADROOM, PullFault, Returned};
pub use crate::sharing::Unshared;
pub use crate::skb::Skb;
