//! The merge model: what merging and segmenting captured packets means, and the laws that this meaning keeps.
//!
//! Receive offload merges TCP segments of one flow that follow one another into one packet, and segmentation offload
//! cuts such a packet again (RFC 9293, section 3.1; RFC 791, section 3.1; RFC 8200; RFC 768; RFC 7348). The definitions
//! stand in `specs/`: mergeable packets (`Mergeable`), the merged frame and its segments (`Edits`, `Frames`, `Merged`),
//! records of link type 147 and which of them are lawful (`Segments`, `Tests`), rounds and their items (`Rounds`), the
//! capture that is written (`Written`), and what an offload capture reads as (`Tested`). They speak of all packets of a
//! run at once, and of a sum by one division; the code that merges makes one pass and is proved against them.
//!
//! Of code that runs there is a type alone: the bounds of what packets are merged into ([`Limits`]).
//!
//! ```
//! let limits = Limits::up_to(64);
//! let bytes = limits.bytes; // 262144: as many as a frame of a capture may have
//! ```
//!
//! Each other public function has an empty body, and its clause `law` is proved: a flow's packets have one cut
//! (`has_one_cut`), a run's segments are its packets (`runs_come_back`), its record is lawful (`runs_are_lawful`), over
//! a whole capture every flow comes back (`flows_come_back`), the bytes that are written read as the records that they
//! were written from (`reads_back`), and segmenting what merging wrote gives a capture that holds each flow's packets
//! again (`captures_come_back`).
//!
//! Example: two packets with payloads `abcd` and `ef`, sequence numbers 1000 and 1004 and identifications 100 and 101
//! become one record of n 2, m 4 and modes 0, whose frame carries `abcdef` (`rows_hold`).
//!
//! Tests: rows by computation in `specs/Rows`; `merge_tests` and `engine_tests` compare the calls with it.
//!
//! Why so:
//!
//! - **A write fault and want of memory name the bytes that are gone from the source**: what is written is a prefix of
//!   what the command writes of just these bytes.
//! - **The test of a whole offload record stands above the capture crate.** It needs shapes and sums. `reads_tested` in
//!   `offload_model` is what a capture of link type 147 reads as with that test among its refusals, and the reader of
//!   `segment` is proved against it.
//! - **The model takes any spread of flows over queues**, a function of the key, and not a choice: so the laws hold for
//!   each choice there may be, and one says that the runs of a round are the same whatever the queues
//!   (`queues_keep_runs`, `choices_keep_items`).
//! - **The items of a queue are defined without a loop**: each packet in turn gives the run of its flow's cut that it
//!   begins, if it does.
//! - **A run's limits are a condition of their own** (`IsMergeableWithin limits`), beside those on all members
//!   (`IsMergeable`): how many packets it has at most, and how many bytes their merged frame has ([`Limits`]). The tool
//!   bounds packets alone (`up_to`), and then no bound on bytes is felt (`limits_bound_frames`). What is said of one run
//!   (it comes back, it is lawful, its boundaries are kept, it goes through one tunnel) needs none. A run that a limit
//!   has filled stays the flow's last one in the table, refuses the next packet, and that opens the next run.
//! - **Definitions that must not pass**: `must-fail/` of `maximal_runs` and `offload_model` edits definitions, since
//!   there is no code in them.
//! - **One table for all commands**: `Passes` has a row for each of four endings (stopped, read fault, write fault,
//!   want of memory), over what the command makes of some bytes. A command says that alone (`merging`, `segmenting`);
//!   the file headers before it are put in front by one law, `records_to_whole`.
//! - **What is still to come, with the rounds counted on**: `GoesOn from to k gone done` says that the bytes that are
//!   gone are k rounds, whatever follows. A loop over rounds keeps that and nothing else of the definitions.
#![tactic(auto)]

mod captures;
mod frames;
mod limits;
mod need;
mod passing;
mod rows;
mod runs;

pub use captures::{
    boundaries_are_kept, captures_are_captured, captures_come_back, choices_keep_items,
    flows_come_back, head_reads_back, items_are_runs, one_queue_has_all, queues_keep_runs,
    reads_back, records_are_few, runs_are_lawful, runs_come_back, written_comes_back,
};
pub use frames::{
    merged_frames_are_merged, merged_is_lawful, segment_frames_are_segments,
    segments_are_the_packets, segments_give_the_packets,
};
pub use limits::Limits;
pub use need::{defaults_suffice, needs_add, needs_exceed, rounds_exceed};
pub use passing::{
    blocks_suffice, commands_pass_on, commands_stop, merging_goes_by_round, prefixes_are_written,
    prefixes_pass_on, prefixes_to_whole, records_to_whole, segmenting_goes_by_record,
    segments_grow, stops_are_one, stops_write_prefixes,
};
pub use rows::{need_rows_hold, rows_hold};
pub use runs::{
    fronts_are_mergeable, grows_by_one, has_one_cut, limits_bound_frames, tests_decide,
    tunnels_are_one,
};
