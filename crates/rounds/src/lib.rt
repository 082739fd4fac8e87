//! Rounds of records, read straight into the blocks of one pool, and every block home again after each round.
//!
//! ```text
//!   pool ── taken, marked 0, 1, .. ──> |64|first bytes | more .. |     one record's blocks, and two spares beside
//!    ^
//!    ├── nobody else holds one: each goes home by itself
//!    └── clones for taps, or that are kept: a place for each mark, where the Sole that comes back goes home and a
//!        receipt waits for its Sole or is closed
//! ```
//!
//! A record is judged in this order: its header, whether the round then needs more blocks than there are, its body. So
//! a record that is too big for the pool takes no block, and one that is cut short or whose source fails leaves none
//! out. Blocks that it needs and that are out are brought once its header is read, by whoever has a
//! [`Supply`](block_supply::Supply) of them.
//!
//! The spares of a round nobody reads, so they may go to others before the round ends: whoever has a
//! [`Giver`](block_pool::Giver) lends it to [`Bench::work_round`], and as soon as a lane is worked its part goes by it.
//! The round is as many blocks smaller. Without a giver they come home with the others.
//!
//! Who works the lanes of a round, the thread that calls or others with it, is told by [`Works`](lanes::Works):
//! each call that works a round is one over whoever works.
//!
//! Proved, by the names of the clauses of [`Rounds`]:
//!
//! - `read` of `read_round` (`ReadRound` of `specs/Reads.antt`), its given: the packets are the next ones of the
//!   capture, and the end is told by its bytes alone; `PoolEmpty` exactly where the round's need first exceeds the
//!   blocks, with that need, judged by the record's header.
//! - `records` of `work_round`: the records that are written of the round are those of the model, queue by queue what
//!   the maximal runs of each flow come to, in the order of their first packets, and then tap by tap its windows of
//!   what is shown of the packets as they were read, whoever works the lanes and whatever the order in which they run.
//!   `checked`: where clones are kept, all that a comparison of the runs with the packets wants to know. `merged`: each
//!   packet of a queue stands in a run, once.
//! - `lanes`, `clones` of [`Worked`]: whoever compares a round with its packets sees its lanes and the clones that were
//!   kept (`checking` does, above the engine); and `plan`, `lawful` of `Rounds::plan`: by which plan it was worked.
//! - `ok`, `err` of `write_round`: byte for byte what is written of a round that was worked.
//! - `home`: how many blocks are home after each call, as an equation; after `drop_round` and `end_round`, and where
//!   `work_round` wants memory, all of the round.
//! - `freed` of `discard` of [`Round`]: a round that is given up outside its rounds frees just the blocks that it has,
//!   and tells how many these are.
//! - `need`, `taken`, `most`: the blocks that are out are what the packets need, and `taken` rises by at least as many;
//!   it never falls, however merging ends (`least`).
//! - `handled` of [`handle_from`]: the rounds that were read stand one behind another in the capture
//!   (`specs/Reads.antt`), and each was handled in turn up to the one that ended it (`Ran` of `specs/Handled.antt`); so
//!   whoever says what one round does has it for all. All blocks are home.
//! - `merged` of `merge_all`, one record of all that merging a capture says (`Merged` of `specs/Merged.antt`). Its
//!   `given`: what is written, and where it stops, is what the model makes of the capture's bytes (`merging` of
//!   `offload_model`) with all options, whole rounds alone; a round that exceeds the blocks is told by its number and
//!   its need. After a fault, or want of memory, it is that of the bytes that are gone, or a prefix of it. All blocks
//!   are home whatever the ending (`home`).
//! - `taken` is the count of [`Intake`]'s own takes: `read` and what goes by it raise it, and no other call changes it
//!   (`home`, `same`), also where blocks come home on a list (`bring_in`).
//! - `named`, `home` of [`Intake`], `brings` of [`Bench`]: where one side reads and the other works no block is lost
//!   between them, by names, and so by number (`weighs` of [`Round::blocks`]); and `given`, `puts` and `gives` say of a
//!   round on its way what `merge_all` says of it.
//! - `worked`, `brings` and `gave` where a giver is lent: what it gave and what comes home are together the round's
//!   blocks, each counted once, and the giver comes back with an empty list and as many parts of its pass. By who gives
//!   no spare stays with the round, unless a put found no place (`none_left`, `gives_spares`); what became of the
//!   spares of rounds that were worked beside a reader [`Rounds::spares`] tells.
//! - `alone` of [`Bench`]: where there are no taps and no clones are kept, nobody but a round's packets holds a block
//!   of them once it was worked.
//! - `read` of `read_beside` of [`Intake`]: of a round that is read while another thread works, whose blocks are
//!   waited for, what `read_round` says. It pauses only behind the header of a record that needs more blocks than are
//!   home, which is kept, and `pauses` counts that (`paused`): only where who brings blocks counts that it found none.
//!   `given_up`: a paused round is given up, an end of its own, only where that thread keeps the blocks. `whole`: for
//!   want of memory a round ends between two records alone, so a paused one goes on first.
//! - `fills`, `grows`, `refused` of `read` of [`Intake`], `works` of `work_lent` of [`Bench`]: the same by its
//!   parts, for whoever drives rounds one by one (the crate `ahead`).
//! - `captured` of `Merged`: the packets that are merged are such as a capture may hold, since each was read into
//!   fields of 32 bits and into bytes.
//!
//! That they are home is told in two ways (`specs/Out.antt`). Where taps get no clones and none are kept, each
//! packet alone holds its blocks from when it is read, so that as many go home as there are. Where others hold some it
//! follows from the account alone (`specs/Marks.antt`): the blocks of a round are marked 0, 1, ..; of each mark one
//! life is held, with all of its weight (`specs/Fresh.antt`), and no call makes weight up or loses it. All receipts of
//! a life weigh less than the whole. So where a mark's Sole isn't home something would still be held, and nothing is.
//! Spares are held by nobody but the round, and are counted home.
//!
//! Memory is taken in [`Rounds::make`], and for the list of pieces of a record of more than 1,984 bytes. The first
//! round takes that of its lanes, and a later one only where it has more for a lane; each round takes memory for the
//! clones that are kept. Of two rounds that are out at once each has lists of its own, and the rest of one that was
//! paused takes a list for its spares.
//!
//! ```
//! let plan = LanePlan {
//!     queues: 4,
//!     taps: 1,
//!     snap: 64,
//!     choice: Choice::Fold,
//!     segs: 4096,
//!     filter: None,
//! };
//! let mut rounds = Rounds::make(alloc, blocks, 64, plan, false)?;
//! let end = rounds.merge_all(&mut Alone { gate: &NoGate }, &mut reader, &file, &mut sink);
//! ```
//!
//! A round that is read is a value, a [`Reading`]: [`Intake::read`] goes on in it until it has an end, or lacks blocks.
//! What it comes to is said of wherever it began (`specs/Filling.antt`), so one call after another says what one does.
//!
//! Its parts: `round_stages` (a round being read, read, worked, and what is left of it); `round_reading` (a round of
//! records, each read by the crate `reading`); `mark_table` and `round_home` (what comes back, by marks or by number,
//! and all of a round given up at whichever point); `lane_work` (a round over lanes, by `lanes::work_packets`, with its
//! heads shared where others hold blocks), `lane_home` (what lanes hold, home); `writing` (what they come to); `intake`
//! (the side that reads: pool and budget); `bench` (the side that works: places, memory and lanes) and `giving_back`
//! (spares that go to others); `list_home` (lists of spares come home that another thread gave or took); `rounds`
//! (both, in turn) and `beside` (a round read while another thread works: paused, and read on once the other rounds
//! have ended); `handler` (what is done with a round, for whoever drives them) and `turns` (rounds one after another,
//! each read and handled); `round_writer` (the handler that writes a round, and all rounds of a capture with it);
//! `memory` (what is kept from round to round). `specs/Out.antt` says what is out with a round,
//! `specs/Marks.antt` what is its account where others hold blocks of it, `specs/Fresh.antt` what that is once heads
//! are shared, `specs/Reading.antt` what each end of a round says of the capture's bytes, `specs/Benches.antt` when
//! blocks may come home, and what is so once they have.
//!
//! Tests: `engine_tests`, modules `rounds_in_turn::frames`, `rounds_in_turn::jumbo`, `rounds_in_turn::lane_rows`,
//! `rounds_in_turn::long_runs`, `rounds_in_turn::merging`, `rounds_in_turn::sides` and `reading_beside::pausing`.
//!
//! Why so:
//!
//! - **A head is a Sole as it is read, and stays one where nobody else is to hold its block.** Packets that are merged
//!   and written where they lie need no life: neither sharing nor giving back a head takes a locked step then, and no
//!   outcome, mark or place is looked at as blocks go home. Pieces behind a head are parts by their type; each has all
//!   the weight of its block, so its release ends the life.
//! - **Where others are to hold blocks every head is shared at once**, before the first clone (`Packets::share_heads`):
//!   where taps get clones, and where clones are kept. So no later call of the round begins a life, and what gro, taps
//!   and rounds keep is kept for every test of lives. Else only all lives of a block together are told of, and receipts
//!   of one mark couldn't be added. It costs one fetch-sub a block.
//! - **What came back of such a round is kept by marks**, a place for each block of the pool: open, home, or what is
//!   owed. A round whose Soles aren't home would owe all of some block's weight, and receipts of a life never weigh
//!   that much, so nothing has to be reunited. In fact a receipt meets a place that is home already, and is closed.
//! - **Spares lie in a list of the round's own**, two for each packet, which its need counts. Nobody reads or shares
//!   them, so they come and go many at once, and have no part in the account.
//! - **Spares alone go to others while a round is worked**: the packets lie in their blocks until it is written. Their
//!   list is swapped against the giver's empty one, and what wasn't given is swapped back, so neither is a block moved
//!   nor is memory taken.
//! - **A second Sole of a mark is dropped.** The account says what is held at most and what is home at least, so it
//!   doesn't exclude one; that two Soles never are of one block is known only where both are in hand.
//! - **The bench keeps the memory of a round's packets, spares and lanes** while no round has it: the lanes are idle,
//!   and the table of places is open between the calls. These hold parts or receipts by their types, so it is dropped
//!   by an `impl Drop` of its own, which spends them: its invariant says that they hold nothing.
//! - **A round is always worked in lanes**, and one queue without taps is one lane: whoever asks works it. Its lanes
//!   are away until it ends, and come home with their memory (`end_round`). A round that is worked before another has
//!   ended makes lanes of its own.
//! - **One function gives up a round** at whichever point (`Bench::bring`): what is left of it is a `Rest`, the packets
//!   that are in no lane, what the lanes hold, the clones that were kept and the spares, and whether heads were shared.
//!   So working needs no pool: for want of memory it gives back the rest, which whoever called brings home.
//! - **What a round is told is one argument**, a `LanePlan`: queues and how flows go to them, taps, their window and
//!   their filter, and how many packets a run may have. The model's options follow from it (`options_by`), so a further
//!   option is a field there and a body. It isn't copied: a hash key has tables of 4.6 KB, and a filter its program.
//! - **A packet lies where it was read until it goes home**, in one list, and is merged, written and compared there, by
//!   its index. Where there is one queue the list becomes its lane's; where there are several the list is turned in
//!   place, and then each packet moves once, from its end to the list of its lane.
//! - **Packets go home from the end of their list**, one by one: what each gave back is swept at once, while the counts
//!   and marks of its blocks are at hand.
//! - **A round is ended before a fault of its writing is answered**, so its blocks are home whatever the ending.
//! - **There is one loop over rounds in turn** (`handle_from`), over whatever is done with each. Merging is a handler
//!   that writes a round (`RoundWriter`), and what it comes to is one lemma over the rounds that were read, whoever
//!   read them (`all_merged`): so the loop knows of no bytes, and a driver with threads has the clause of `merge_all`
//!   too.
//! - **`Rounds` are two sides**, an intake that reads and has the pool, and a bench that works and has none. Where
//!   blocks come home is told at each call: in turn it is the intake's pool, beside a list that goes back to it. So
//!   both are lent side by side, as two fields, with no memory and no way back; and a call that takes no pool can't set
//!   the count of what was taken.
//! - **The fields are public**, since two parts of one value can't be lent by a call whose invariant speaks of both
//!   (`AreOne`): that what is out has its places at the bench. Whoever lends them owes it when both are back.
//! - **Outcomes have room for each block twice** (`Rounds`): once for its packet, and once for the clone that is kept
//!   of it.
#![tactic(auto)]

mod bench;
mod beside;
mod giving_back;
mod handler;
mod intake;
mod lane_home;
mod lane_work;
mod list_home;
mod mark_table;
mod memory;
mod round_home;
mod round_reading;
mod round_stages;
mod round_writer;
mod rounds;
mod spares;
mod turns;
mod worked_parts;
mod writing;

pub use bench::Bench;
pub use giving_back::give_list;
pub use handler::RoundHandler;
pub use intake::Intake;
pub use list_home::bring_lists;
pub use round_stages::{Halt, Reading, Rest, Round, RoundEnd, RoundRead, Worked};
pub use round_writer::{MergeEnd, RoundWriter, Step};
pub use rounds::Rounds;
pub use spares::Spares;
pub use turns::handle_from;
