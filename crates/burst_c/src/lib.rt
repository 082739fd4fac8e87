//! Frames for C, merged where they lie, a burst at once or by an engine that C keeps, and cut again.
//! `contrib/c/offload_burst.h` declares what is exported.
//!
//! But for one rule the exports have no `requires`: each number is tested and answered. The rule is of engines, that
//! the frames they have received stand in the list as they were (`holds`). A C caller owes what the header says, and
//! nothing checks that it keeps it.
//!
//! Proved, of [`offload_gro_burst`]:
//!
//! - `merges`, `back`: on 0 the first `count` of `runs` are what the frames come to, each frame is in one run, once,
//!   and the segments of each run's merged frame are its frames, byte for byte.
//! - `usage`, `room`: the answer is 2 exactly where a number or a frame isn't lawful, and 9 exactly where all is lawful
//!   and a list too short. `codes`: else it is 0 or 7.
//! - `untouched`: but on 0 nothing is written, and `count` is 0. `sizes`: the lists stay as long as they are.
//!
//! The same of [`offload_gro_burst_link`], for packets that begin as a number of link types says: with Ethernet (1) or
//! with IP (101), which are merged as with an Ethernet header in front and told without it. Another number is answered
//! 2.
//!
//! Of engines, which [`offload_gro_new`] and [`offload_gro_new_link`] make and [`offload_gro_free`] ends:
//!
//! - `made`: an engine that is made is for so many frames, in runs of so many and of so many bytes, and has received
//!   none.
//! - `merges`, `back` of [`offload_gro_merge`]: what a burst comes to, as of `offload_gro_burst`.
//! - `received` of [`offload_gro_receive`], `merges`, `back` of [`offload_gro_flush`]: what a flush tells is what all
//!   frames come to that were received since the last one, in however many calls. `none`: then it has received none.
//! - `refused`: each answer but 0 has its cause; `stays`, `untouched`: then the engine has what it had, and nothing is
//!   written. An engine may go to another thread (`Send` of its handle).
//!
//! Of the inverse:
//!
//! - `cut` of [`offload_gso_burst`]: what is told are the segments that the definition cuts the frame into; `refused`,
//!   `untouched`: each answer but 0 has its cause, and then nothing is written.
//! - `filled` of [`offload_fill_sums`]: sums that hold that of the pseudo header alone are filled in, and nothing else
//!   changes; `right`, `wrong`, `usage`: on 0 each sum is right, and each other answer has its cause.
//! - `law` of [`merged_comes_apart`]: a merged frame of a burst is never refused by `offload_gso_burst` where it is cut
//!   by the numbers of its run, and is cut into just the frames of the run, byte for byte and in order.
//! - `cause`, `candidate` of [`offload_why`]: the number of the definition's cause, 0 exactly where a frame may be
//!   merged.
//! - `cause`, `mergeable` of [`offload_why_apart`]: the same of two frames, 0 exactly where they are a mergeable run.
//!
//! - `front`, `told`, `untouched` of [`offload_put_ethernet`]: an Ethernet header of the type of the IP packet behind
//!   14 bytes stands in these, and no other byte changes; without such a packet nothing is written, and the answer is
//!   2. `law` of [`ethernet_stays`]: a merged frame begins with the 14 bytes of the first frame of its run.
//!
//! Not said: when there is no memory; that an engine takes none after it is made (`contrib/c/burst_check` refuses it
//! all).
//!
//! Its parts: `exports` (a burst), `kept` (engines), `handle` (an engine by its address), `cuts` (the inverse), `laws`
//! (both together), `causes`, `front` (an Ethernet header in front of a packet), `limits` (two numbers), `links` and
//! `linked` (bursts by link), `codes`. `specs/Bounds.antt` says which limits two numbers are, `specs/LinkNumbers.antt`
//! which link one is, `specs/Made.antt` what holds of an engine where there is one, `specs/Cutting.antt` what cutting
//! answers, `specs/Inverse.antt` what comes of a merged frame that is cut, `specs/Causes.antt` the numbers of causes,
//! `specs/Front.antt` the Ethernet headers that are written; what its address owns is `heap_owns_any` of `on_heap`.
//!
//! Tests: `contrib/c/burst_check`.
//!
//! Why so:
//!
//! - **It is an archive of its own**, besides `offload_c`: who merges frames alone needs neither rounds nor buffers,
//!   and builds and links 23 crates instead of those of the whole library.
//! - **An engine is in its place or out of it**: a call takes it out, works on it and puts it back, so that each call
//!   is one of `frame_bursts`, and only these two steps are proved by hand. A struct of zeros is a place without an
//!   engine, so that what `offload_gro_new` makes can be said in its contract.
//! - **A packet without an Ethernet header that is to be cut gets one in front of it**, in room that its reader leaves,
//!   and what cuts knows of no packets without. No byte of a packet is moved. Merging needs no room: it copies headers.
//! - **An engine has no frame, and no address of one**: nothing that C lends may be kept in what it owns. So the list
//!   is passed at each call.
#![tactic(auto)]

mod causes;
mod codes;
mod cuts;
mod exports;
mod front;
mod handle;
mod kept;
mod laws;
mod limits;
mod linked;
mod links;

pub use causes::{offload_why, offload_why_apart};
pub use cuts::{offload_fill_sums, offload_gso_burst};
pub use exports::offload_gro_burst;
pub use front::offload_put_ethernet;
pub use kept::{
    offload_gro_flush, offload_gro_free, offload_gro_merge, offload_gro_new, offload_gro_new_link,
    offload_gro_receive,
};
pub use laws::{ethernet_stays, merged_comes_apart};
pub use linked::offload_gro_burst_link;
