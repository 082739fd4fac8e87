//! Merges packets by index, as Linux's generic receive offload does, wherever their bytes lie: no packet moves, and no
//! payload is copied.
//!
//! What it asks of a packet is a [`Frame`]: its first bytes in one slice, its length, the sum of what is behind a
//! place, its original length and its number. [`Lent`] is one in a slice that somebody lends; a packet in a buffer is
//! one of `gro`. The packets stand in somebody's list, which is only read, and a run is a chain of indices into it: of
//! its first packet, of its last one, and for each packet that of the next ([`Run`], `next` of the [`Engine`]).
//!
//! ```text
//!   packets  0   1   2   3   4   5        runs     first 0, last 5, two behind it:   0 -> 2 -> 5
//!   next     2   4   5   .   .   .                 first 1, last 4, one behind it:   1 -> 4
//!                                                  first 3, last 3:                  3
//! ```
//!
//! Proved of an [`Engine`], over whatever gives frames:
//!
//! - `runs` of `merge`: its runs, as packets of the list, are the maximal mergeable runs of each flow within limits: at
//!   most so many packets, whose merged frame has at most so many bytes. It takes no memory and can't fail.
//! - `takes` of `receive`: so it goes packet by packet, and `are`: each index stands in one chain, once.
//! - `ready` of `make` and `start`: there is room for so many packets, whatever was merged before.
//!
//! What a run comes to is read from the [`Run`] and its first packet, and nothing is joined. Proved, of any run that an
//! engine has:
//!
//! - `head` of `head`: the offload header of its record; `len` of `frame_len` and `original`: its frame's length, and
//!   its original length.
//! - `frame` of `put_headers`: the headers of the merged frame, behind which come the payloads of all, as they lie;
//!   `merged` of [`fill_headers`]: the same for who joins them.
//!
//! Memory is taken in `make` and `start`, for all packets, runs and flows that may come. When it is refused no clause
//! says.
//!
//! ```
//! let frames = [
//!     Lent {
//!         bytes: first,
//!         original: 58,
//!         number: 0,
//!     },
//!     Lent {
//!         bytes: next,
//!         original: 56,
//!         number: 1,
//!     },
//! ];
//! engine.merge(&frames, Limits::up_to(4096));
//! let runs = engine.runs.len(); // 1: the second frame follows the first one in its flow
//! ```
//!
//! Its parts: `frame` (the trait), `lent` (a frame in one slice), `candidacy` (a packet judged by its head and its
//! payload's sum, its key, and whether two are of one flow), `flow_hash` (a hash of a packet's flow), `flows` (the open
//! group of each flow), `run` (a run by index, and whether it takes one more packet), `engine` (the runs of a list, in
//! the order of their first packets, and how they are linked), `merged_run` (what a run comes to, as its packets lie).
//! `specs/Frames.antt` says what the front of a frame is, `specs/Chains.antt` what a chain of indices is,
//! `specs/Engine.antt` what is known of an engine and what one more packet does, `specs/OpenGroups.antt` and
//! `specs/Flows.antt` what open groups are and how each is found, `specs/Index.antt` what is found of a flow,
//! `specs/MergedRun.antt` where a run's headers end. `proofs/Payloads.antt` has the laws that a reader of a run's
//! payloads needs, `proofs/Chains.antt`, `proofs/Merging.antt` and `proofs/Growing.antt` those of who keeps packets
//! beside an engine.
//!
//! Tests: `merge_tests`, modules `merging` and `examples`.
//!
//! Why so:
//!
//! - **A judged segment keeps what is read of it**: its layout, the length of its payload, whether TCP or UDP carries
//!   that, whether a datagram has a sum of its own, and the control bits, 0 of a datagram. Sequence numbers,
//!   identifications and sums are compared in the first bytes of two frames, where both have them, so an open run keeps
//!   its first packet's bytes and no copy of their fields.
//! - **A chain is computed from its count**: a run says how many packets follow its first one, and so many steps
//!   through `next` are its chain. What `next` has behind a run's end doesn't matter, so it is made once and never
//!   cleared, and a packet that a run takes costs one write.
//! - **Chains share the indices out** (`AreSharedOut`): whatever is summed over all of them is summed over 0, 1, .. So
//!   one chain has a run's last index, once, and `next` of that may be written with no other run changed.
//! - **The list is an argument of the engine's calls**, and what is known of an engine names it (`AreRuns`): a packet
//!   is read where it lies, by whoever owns it. In a list that grows by one packet the others are read as before
//!   (`are_more`).
//! - **A packet that a run takes is of the run's flow** (`flow` of `takes`), by the law that headers alike make keys
//!   equal (`alike_keeps_key`): the last packet's run may be asked before anything is known of the packet.
//! - **Open groups stand in a slab, each of a flow of its own**, and only these are found: a group that closes leaves
//!   it. What a flow finds is told by the slab alone (`place_of`), in whatever order that has them; how each is found
//!   is known beside it (`AreFlows`). A packet that can't be merged asks only where a group is open, since it may end a
//!   flow's run.
//! - **A table of 256 places stands in front of std's map**, a place by a hash of the key's last words, read where they
//!   lie in plain headers. What stands there is believed only where the packet is of its flow (`is_same_flow`), so
//!   there is no chain, and what a closed group left there does no harm. Nothing is asked of the hash but that it is a
//!   function of the key (`IsHashed`).
//! - **The map has the groups whose place another open group has**, from the flow's key to the slab's. Where a place
//!   was empty ever since the last `clear`, no open group has its hash, and the map isn't asked (`taken` of
//!   `AreFlows`). So a key of 120 bytes is put together only where flows meet at a place: to enter each group in the
//!   map would cost every flow's first packet that, a hash and some moves of the key. Flows that are chosen to meet at
//!   one place all go to the map, whose own hash is of all bytes of the key, with a seed that is fixed.
//! - **A group has the index of its run and of a packet of its flow**, the hash, and no key: the key is that of the
//!   packet's frame, and two packets are compared where their headers lie (`is_flow_of`). What the run has come to
//!   (`Progress`) stays in the run, where it is read with the layout and the sum, and where a closed run's still has to
//!   be known. All memory for groups, table and map is taken in `make` and `start`.
//! - **`Flows` has private fields and a view** (`OpenGroups`): the slab, the map's entries, how many more fit, and the
//!   table. The map's hasher isn't in it, so each type that holds an engine has a code.
//! - **The last packet's run is asked first, by its layout.** The headers are compared before they are read: where they
//!   are alike, the packet has the run's layout (`alike_keeps_shape`), which isn't looked for again, and only its
//!   lengths and sums are judged (`addition` of `Run`). Where another flow's packet comes the first comparison ends it.
//!   The run's place is kept only while the run is open.
//! - **A packet that was cut short is alone** where no flow has a run: its headers aren't read.
#![tactic(auto)]

mod candidacy;
mod engine;
mod flow_hash;
mod flows;
mod frame;
mod lent;
mod merged_run;
mod run;

pub use engine::Engine;
pub use frame::Frame;
pub use lent::Lent;
pub use merged_run::fill_headers;
pub use run::Run;
