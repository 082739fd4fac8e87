//! A burst of frames, merged where they lie: no frame moves, and no payload is copied.
//!
//! [`merge_burst`] takes frames in slices that somebody lends ([`Lent`] of `frame_runs`), and says of each run of them
//! what the merged frame is: its headers, written out, and behind them the payloads of the run's frames, as they lie.
//! `next` leads from each frame of a run to the one behind it.
//!
//! ```text
//!   frames   0   1   2   3   4   5        runs     first 0, n 3:   0 -> 2 -> 5
//!   next     2   4   5   .   .   .                 first 1, n 2:   1 -> 4
//!                                                  first 3, n 1:   3
//! ```
//!
//! Proved, of [`merge_burst`], where it answers how many runs there are:
//!
//! - `merges`: the runs are the maximal mergeable runs of each flow, in the order of their first frames, as the model
//!   of merging has them; what is said of each run is so; and each frame is in one run, once.
//! - `back`: the segments of each run's merged frame are its frames, byte for byte and in order.
//! - `refused`, `lawful`: which answer comes when. A number, a length or an order that isn't lawful is answered
//!   [`Refused::Usage`], and exactly that is; too little room [`Refused::NoRoom`], and exactly that.
//! - `untouched`: where it refuses, nothing was written. `sizes`: the caller's lists stay as long as they are.
//!
//! Packets that begin with their IP header ([`Link::RawIp`]) are merged as the frames that they are with an Ethernet
//! header in front (`framed`), and what is told of a run hasn't that header (`SaysRaw`): a run's headers begin with IP,
//! and places count from there. Their first 200 bytes are copied, and no others ([`RawFrame`]).
//!
//! A [`BurstEngine`] is the same with memory that is kept: it merges burst after burst, or receives frames as they
//! come. What it has received is said by the list of these frames (`Holds`), which is the caller's and is passed at
//! each call. Proved:
//!
//! - `merges`, `back` of `merge`: as of [`merge_burst`].
//! - `received` of `receive`: it has all frames of the list then. `merges`, `back` of `flush`: the runs are those of
//!   all frames that it has received since the last flush, in however many calls; `none`: then it has received none.
//! - `refused`: which answer comes when; `stays`, `untouched`: then it has what it had, and nothing was written.
//!
//! Not said: when there is no memory.
//!
//! ```
//! let frames = [
//!     Lent {
//!         bytes: first,
//!         original: 58,
//!         number: 0,
//!     },
//!     Lent {
//!         bytes: second,
//!         original: 56,
//!         number: 1,
//!     },
//! ];
//! let limits = Limits::up_to(64);
//! let merged = merge_burst(alloc, Link::Ethernet, limits, &frames, &mut next, &mut runs); // Ok(1)
//! ```
//!
//! Its parts: `link` (what packets begin with), `raw_frame` (a packet without an Ethernet header as a frame with one),
//! `ghost_bytes` (bytes that contracts alone have), `linked` (frames merged by what they begin with), `lawful` (what a
//! caller may pass), `places` (where a merged frame's last headers stand, and the sum of
//! their pseudo header), `told` (what is said of a run), `burst` (the call), `kept` (an engine that is kept).
//! `specs/Links.antt` says which frame a packet is merged as, `specs/Without.antt` what is said without an Ethernet
//! header, `specs/Burst.antt` what a lawful burst is, what is said of a run, and what merging comes to;
//! `specs/Places.antt` what is said of its last headers, `specs/Kept.antt` what an engine has received.
//!
//! Tests: `merge_tests`, module `examples`; `contrib/c/burst_check`.
//!
//! Why so:
//!
//! - **Frames are lent, and none is kept**: a burst makes an engine of its own and drops it, so that two bursts have
//!   nothing in common, and threads need no lock. An engine that is kept has indices into a list that is passed again.
//! - **An engine begins anew with the first frame behind a flush**, so that nothing has to be known of its runs while
//!   it has received none, and a flush needs no memory.
//! - **A run has its headers and indices, and no slices**: what a caller writes out are the headers and then parts of
//!   its own frames, for which it has the pointers.
//! - **Where the last headers stand is told with each run**, and so is the sum of their pseudo header: a device that
//!   cuts a merged frame itself asks for both, and who read them again would have to walk the headers.
//! - **A packet without an Ethernet header gets one in a copy of its headers**: what merges is said of frames once, and
//!   no crate below knows of packets without. Of the bytes behind the copy their sum is kept, and as a ghost the packet
//!   (`GhostBytes`), so that an engine borrows nothing of what it has received.
//! - **What a burst has to be is what the model asks of a capture** (`AreCaptured`): so that a run's segments come back
//!   needs no premise, and all of it is tested.
#![tactic(auto)]

mod burst;
mod ghost_bytes;
mod kept;
mod lawful;
mod link;
mod linked;
mod places;
mod raw_frame;
mod told;

pub use burst::{Refused, merge_burst};
pub use kept::BurstEngine;
pub use link::Link;
pub use raw_frame::RawFrame;
pub use told::BurstRun;
