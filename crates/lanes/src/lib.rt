//! The work of one round: its packets spread over receive queues and merged there, and what taps read of them, lane by
//! lane.
//!
//! ```text
//!   packets ── a clone of each ──> tap 0 ─┐
//!      │    ── a clone of each ──> tap 1 ─┤ windows, as the packets arrived
//!      │
//!      └── by flow ──> queue 0 ───────────┤ runs of packets, which lie where they lay
//!                      queue 1 ───────────┘
//! ```
//!
//! A lane is a queue or a tap, with what it has to do and then what it has done ([`QueueLane`], [`TapLane`]). Between
//! two rounds lanes are idle ([`Lanes`], `AreIdle` in `specs/Lanes`): they hold nothing, and keep their lists, engines
//! and outcomes as memory for the next round.
//!
//! ```text
//!   queue 0:   packets  [ p0 | p1 | p2 | p3 | p4 ]     each in its slot, where it stays until it is brought home
//!              runs       p0 -> p2 -> p3,  p1,  p4     by index, by first packets (`frame_runs::Engine`)
//! ```
//!
//! [`work_packets`] fills idle lanes: it clones each packet for each tap, or has each tap read the packets where they
//! lie, and spreads the packets over the queues by their flows. With one queue the list of packets becomes the lane's
//! as it stands, and no packet moves; with several the list is turned in place, and then each packet moves once. Then
//! each queue's engine takes the memory for as many packets as the queue has. Then all lanes are worked by a [`Works`]:
//! by the thread that calls, one after another ([`Alone`], [`Beside`]), or by all who run tasks beside it
//! (`lane_crew::LaneCrew`). A queue's work takes no memory and can't be refused. A tap's lane holds room for all that
//! its clones may leave before it gets them, so giving back wants no memory.
//!
//! Only what is cloned is shared. Where taps get clones, whoever has the packets shares their heads first
//! (`gro::Packets::share_heads`), and each clone takes of a block's weight. A tap that the thread that calls reads for
//! wants no clone: it reads the packets before any goes to its queue, and no count word is stepped for it. So taps read
//! where others would be of no use (`reads_here` of [`Works`]). Then, and without taps, nothing is asked of the heads,
//! nothing is counted, and packets of which nobody shares a block come out of the work as such.
//!
//! Blocks that a round has and that no packet holds, its spares, lie in no lane. Where others read the next round
//! beside the work they are lent with a `block_pool::Giver`, and go to the pool that these take lists from as soon as a
//! lane is worked: by the thread that does all lanes, behind the first queue that had packets ([`Beside`]); by a crew
//! (`lane_crew`) each lane's part behind its work. What finds the pool full stays with who lent it. Of its clones a tap
//! has nothing to give: the packets lie in the queues' lanes until a round is written, so it is never the last who
//! holds one.
//!
//! [`keep_packets`] takes a clone of each packet before that, so that what comes out can be compared with what went in.
//! With eight taps a packet is cloned nine times, and what each clone takes of a block's weight leaves enough for the
//! next.
//!
//! Proved, by the names of the clauses of `work_packets`, whoever works the lanes and whatever the order in which they
//! run:
//!
//! - `lanes`: queue by queue, what its runs come to is what the maximal runs of its flows come to, in the order of
//!   their first packets; `windows`: tap by tap, the texts are its windows of the packets as they arrived.
//! - `records`: the records that are written of these, queue by queue and then tap by tap, are those of the round in
//!   what merging writes.
//! - `kept`: nothing is lost, whether all work was done or memory was refused; `count`: what the queues hold and what
//!   stays are as many blocks and parts as the packets had; `clones`: no clone is left.
//! - `no_soles`: no tap has a Sole, also where memory is refused: what taps gave back left receipts alone. A Sole that
//!   one had would be of a block that a packet still holds, and no Sole of that stands beside it.
//! - `alone` and `idle`: where taps get no clones, and nobody else held a block of the packets, nobody does of those in
//!   the lanes and of those that stay, and the lanes of taps have nothing that is to be brought home.
//! - `gave`: of the blocks that were lent some went to the pool, or none, whoever works and also where memory is
//!   refused: by any weight of blocks what was given and what still lies there is what did before, and the pass has all
//!   its parts again. So between two rounds nothing that was lent is in a lane or with a crew.
//! - `none_left`: by who gives (`gives` of [`Works`]) all that was lent went as the work ends, unless a put found no
//!   place.
//! - `packets`: each queue has the packets of its flows, in their order; `merged`: each of them is in one of the
//!   queue's runs, once, by its index, so that what a run comes to can be read and written from where its packets lie.
//!
//! And of `keep_packets`: `all`, the clones are those of the packets, in their order; `after`, the packets are the same
//! and may still be worked; `kept` and `fewer`, nothing is lost.
//!
//! `did` of `Works::run_lanes` is what `work_packets` stands on: each lane is worked, and stands at its place again.
//!
//! Only tested: that lanes run at the same time, that each passes the gate before its work and after it, and that
//! memory suffices where there is some. Not said: that a thread runs or is woken.
//!
//! ```
//! let plan = LanePlan {
//!     queues: 4,
//!     taps: 1,
//!     snap: 64,
//!     choice: Choice::Fold,
//!     segs: 4096,
//!     filter: None,
//! };
//! let mut works = Alone { gate: &NoGate };
//! let mut lanes = Lanes::new(alloc);
//! let blocks = match work_packets(
//!     &mut works,
//!     alloc,
//!     &mut packets,
//!     &plan,
//!     true, // heads are shared, so the tap gets clones
//!     &mut lanes,
//!     &mut None,
//! ) {
//!     Ok(()) => {
//!         packets.discard();
//!         all_home(&rt, lanes) // once what they came to is written
//!     }
//!     Err(_) => rest_home(&rt, packets, lanes),
//! };
//! ```
//!
//! Its parts: `plan` (how many lanes), `lane` (what each has to do, and what it has done), `flow_queue` (the queue of a
//! packet's flow, folded where plain headers lie), `share` (packets to their queues, and memory for their runs),
//! `clones` and `fill` (what taps get, where there are any), `read` (packets that taps read where they lie), `keep` (a
//! clone of each packet beside the work), `working` (one lane's work), `works` (who does it) and `frame_lengths` (by
//! which that is chosen); `giving` (a list that is lent goes back), `shared` (the filter that taps share), `soles` (why
//! taps have none) and `free`; and on these `round`.
//!
//! Tests: `engine_tests`, module `rounds_in_turn::working`.
//!
//! Why so:
//!
//! - **The lanes of a round are two lists of one type each**, the same before the work and after it: a worker or a tap
//!   changes its lane in place.
//! - **Idle lanes are of no plan**: whoever ends a round may have lanes of other rounds in hand. So each round numbers
//!   its lanes, and makes them anew only where they are fewer or more than its plan has. How long runs may be an engine
//!   is told as it merges, so it serves any plan. It is started anew for each round, and takes memory only where it had
//!   fewer packets before: so a lane that is away leaves one without memory at its place, and none is taken for that.
//! - **A queue's packets lie still, and its runs are indices**: no packet is in an engine, so an idle lane may keep the
//!   runs of its last round, and nothing that says what lanes hold has to speak of engines.
//! - **The list is turned before packets are spread**: they leave it by its end, where none of the others has to move,
//!   and are to come to their lanes in order. Where memory is refused it is turned again.
//! - **A tap that reads where packets lie reads before they part**: then they stand in their order in one list, over
//!   however many queues. Its lane has its windows from then on, and who works lanes leaves it as it is (`DidTap` in
//!   `specs/Lanes`), so that some taps may have read and others have clones.
//! - **Only memory stops lanes from being filled**: first there are as many as the plan has, then come each tap's
//!   clones of all packets, or its windows, then the packets go to their queues, and at last each queue's engine takes
//!   its memory. So clones are of packets in their order, and a packet that there is no memory for stands in front of
//!   the others again. Where a tap isn't run its clones are given back at once.
//! - **Memory is taken before the work and not in it**, so a queue's worker has no answer but its runs, and all that a
//!   worked round can be refused is a tap's windows.
//! - **Each tap's lane has outcomes of its own**, since it is a thread's. For want of memory the lanes come back as far
//!   as they got, and who brings a worked round home brings home these. A queue leaves none: its packets are as they
//!   were.
//! - **A queue's numbers rise and aren't in turn** (`RiseFrom`), and that is all that merging asks of them.
//! - **A packet may be cloned for 8 taps, and once more to be kept, without a part ever worn**: each clone takes a
//!   4096th at most of the whole weight 2^62, so at least 2^62 - 9 * 2^50 stays.
#![tactic(auto)]

mod clones;
mod fill;
mod flow_queue;
mod frame_lengths;
mod free;
mod giving;
mod keep;
mod lane;
mod plan;
mod read;
mod round;
mod share;
mod shared;
mod soles;
mod working;
mod works;

pub use frame_lengths::{FrameLengths, SOME_PACKETS, have_short_frames};
pub use free::{free_queue, free_tap};
pub use giving::give_back;
pub use keep::keep_packets;
pub use lane::{Lanes, QueueLane, TapLane};
pub use plan::LanePlan;
pub use round::work_packets;
pub use shared::{SharedProgram, program_in, share_in};
pub use working::{run_and_give, watch, work};
pub use works::{Alone, Beside, Works};
