//! Handles the rounds of a capture by two sides: one reads the next rounds while the other works, with all who run
//! lanes beside it. What is done with a round that was worked a [`RoundHandler`] says: [`merge_beside`] writes it.
//!
//! ```text
//!   reads ── Parcel: a round, and an emptied list ──> works, handles ─ lanes, as tasks ──> whoever is free
//!    ^  ^                                                  │    ^                                │   │
//!    │  │                                                  │    └───────── lanes, done ──────────┘   │
//!    │  └─── a list: its blocks, as soon as it is written ─┘                                         │
//!    └────── lists: a lane's part of the spare blocks, as soon as it has been worked ────────────────┘
//! ```
//!
//! All threads are started once, as the leaves of one tree of joins for the whole run, and none in a round. Where
//! queues and taps are two or more a desk is opened for their lanes (`lane_crew::LaneCrew`): as many run them as there
//! are lanes and processors for, and two at least, so that two lanes may wait for each other. The side that works does
//! lanes itself while it waits, so a thread that can't be made for another costs nothing. Where there is no memory for
//! a desk it does all of them.
//!
//! The first round is read before there are two sides. Where it is full it is the first parcel in the ring as they
//! begin, so what is behind it is read while it is worked. Where it isn't, or where there is no memory or no thread for
//! a second side, it is worked by the thread that read it; so a capture of one round costs no thread for reading.
//!
//! The side that reads has the rounds' intake, whose pool it alone takes from; the side that works has their bench.
//! Blocks come home to that pool by one way, a pool of lists that threads share (`block_pool::ListPool`), each list by
//! one step. Who gives them is one `block_pool::Giver`, which stays with the side that works and is lent for each
//! round:
//!
//! - The spare blocks of a round go lane by lane, each lane's part as soon as it has been worked, while the packets are
//!   still to be written. Where all places are taken a list stays with its round.
//! - All others that a round's work leaves go once it was written, as the list that they lie on then
//!   (`rounds::give_list`). Where all places are taken it stays with the side that works, which gives it again before
//!   it sleeps for want of a round; so do those of the last round, until both sides have ended: blocks are handed over
//!   where there is room for all that they may leave again. An emptied list goes back with a round, so that its memory
//!   serves again.
//!
//! So between both sides a block lies in one of five places: the intake's pool; what is left of a list that came; the
//! pool of lists; the list of the side that works; a round in the ring.
//!
//! The ring has two places, and before a round is read one of them is free (`Arrivals::await_place`): with the one that
//! is worked three rounds are on their way at most (`crossing::ROUNDS`). Behind a record's header, where fewer blocks
//! are home than the record needs, the side that reads takes lists that have come (`crossing::Arrivals`), and where
//! there is none it waits for one as long as one may come before the last round is written. Where the blocks are those
//! of that round the one that is read is paused: its header is kept, and once all blocks but its own are home it is
//! read to its end (`rounds::Intake::read_beside`). So a record is left half read for want of blocks only where the
//! other side has stopped, which says so by a flag (`crossing::Handshake::end`), and a round exceeds the blocks just
//! where it does in one thread.
//!
//! Proved of [`handle_beside`], whatever both threads do at the same time, is the clause of `rounds::handle_from`,
//! which does the same in one thread: the rounds that were read stand one behind another in the capture, each of the
//! first of them was handled in turn up to the one that ended it, and nothing was done with those behind. What was sent
//! by the ring and what was received are known once the threads have joined. All blocks are home whatever the ending,
//! also those of rounds that were read and that nobody worked. What the side that works has left as it ends is no more
//! than its last round had, unless a put found no place (`worked` of `run_sides`). The spares of all rounds but the
//! last one are counted, and as many blocks went back while these were worked, unless a put found no place, which is
//! counted too (`gives`, by `Rounds::spares`). [`merge_beside`] has the clause of `Rounds::merge_all`, word for word. A
//! round is paused only where a take found no list: of a run there are no more pauses than such takes (its `pauses`).
//! One that is paused is given up only where the other side has stopped (`given_up` of `read_beside` in `rounds`): so
//! no round ends for want of blocks while the other side goes on.
//!
//! Not proved: that waiting ends. The side that works waits only for a round, and has given all blocks of those before,
//! or gives them again each time that it wakes. The side that reads waits for a place in the ring, and each round that
//! is received rings its bell; or for blocks while some are away and the other side hasn't stopped, and wakes that side
//! as it begins to. So never both. Whoever wakes tries again, and a ring isn't lost while nobody sleeps. Where no
//! thread can be made for the side that reads, the other one gives up after a third of a second, and does all alone.
//! Nor is it proved in the reading thread that all blocks are in its pool once all lists are back, nor in the other one
//! that what found no place and the next round are no more than all. If they weren't, the one would wait on, and in the
//! other merging would end as for want of memory.
//!
//! ```
//! let end = merge_beside(
//!     &rt,
//!     alloc,
//!     &mut rounds,
//!     &mut reader,
//!     &file,
//!     &mut sink,
//!     &NoGate,
//! );
//! ```
//!
//! Its parts: `parcel` (what goes to the side that works), `returning` (how blocks go back, and the next round comes),
//! `sides` (the loop of each side, and both at once), `gather` (what lies between the sides comes home once both have
//! ended), `here` (the first round and what is left, in one thread), `drive` (the first round, the two sides, and one
//! thread where there can't be two), `crewed` (all of that with who run lanes beside it) and `merging` (where each
//! round is written).
//!
//! Tests: `engine_tests`, modules `reading_beside::driven`, `reading_beside::pausing` and `rounds_in_turn::lane_rows`.
//!
//! Why so:
//!
//! - **One giver for the whole run, with all parts of its pool's passes but one.** A round's lanes split it and join it
//!   again, so between two rounds it is whole, and nothing is forked or gathered for a round beside that. The side that
//!   reads has the one part that is left, and its pass says what it took (`brought`). What was put is known where the
//!   giver is; that all of it was taken, or is home, only where both are in one hand.
//! - **That all blocks are there once all lists are back isn't proved in the reading thread**, since it knows nothing
//!   of the other one but what the pool says of a list. So behind a pause it counts the blocks that are home, and waits
//!   until those are all but the paused round's own: where it says no the other side has stopped, and the round that is
//!   cut short is never worked. After the join both lists are known, and `home` is proved.
//! - **A put that finds no place doesn't wait**: the reader may have ended, and then nobody takes lists any more. The
//!   pool has places for the lists of all rounds in flight, so it is refused only in what proofs can't rule out.
#![tactic(auto)]

mod crewed;
mod drive;
mod gather;
mod here;
mod merging;
mod parcel;
mod returning;
mod sides;

pub use crewed::handle_beside;
pub use merging::merge_beside;
pub use rounds::RoundHandler;
