//! What C calls.
ghost use Rattle.std.specs.Prelude.{◌≡◌, ◌≢◌, ℕ, ◌≤◌, ◌<◌, ◌⊎◌, ◌↔◌, length, take};
ghost use Rattle.offload_model.specs.Passing.{Nowhere, merging_whole, segmenting_whole};
ghost use Rattle.offload_c.specs.Bounds.{packets_read, packets_cut, merge_bound, segment_bound};
ghost use Rattle.offload_c.specs.Answers.{Fills, IsShort, IsAtFault, IsAtRound, FlowsBack};
ghost use Rattle.offload_c.specs.Options.{AreLawful, AreAllButFilter, model_of};

use crate::memory::Outcome;
use crate::merging::merge_by;
use crate::options::{MergeOptions, Refused};
use crate::segment_call::segment_bytes;
use std::alloc::Global;

const OK: u32 = 0;

const USAGE: u32 = 2;

const MALFORMED: u32 = 3;

const POOL_EMPTY: u32 = 4;

const NO_MEMORY: u32 = 7;

const NO_ROOM: u32 = 9;

// Copies an output to where it goes, or says how long it is.
fn deliver(bytes: &[u8], code: u32, output: &mut [u8], count: &mut usize) -> u32
    requires code { code < 9 }
    ensures answer { (result ≡ code) ⊎ (result ≡ 9) }
    ensures fills { result ≡ code → Fills output.old output.new count.new bytes.now }
    ensures short { result ≡ 9 → IsShort output.old output.new count.new bytes.now }
{
    *count = bytes.len();
    if output.len() < bytes.len() {
        return NO_ROOM;
    }
    output[..bytes.len()].copy_from_slice(bytes);
    code
}

/// Merges a capture of Ethernet frames (classic pcap) in memory. A frame of n bytes needs (n + 2111) / 2048 + 2 of the
/// blocks while its round lasts. All queues and taps are worked in the thread that calls.
///
/// `*count` is the length of the output, which stands at the front of `output` where it has room. 0: the capture was
/// read to its end. 2: the options aren't lawful. 3: the capture is refused; the output of the records before stands
/// there. 4: a round needs more blocks than there are; the output of the rounds before stands there. 7: there was no
/// memory. 9: the output is longer than `output`, which can't be where that has [`crate::offload_merge_bound`] bytes.
#[unsafe(no_mangle)]
pub extern "C" fn offload_merge(
    alloc: Global,
    options: &MergeOptions,
    capture: &[u8],
    output: &mut [u8],
    count: &mut usize,
) -> u32
    ensures usage { result ≡ 2 → AreLawful options.now → ⊥ }
    ensures refused { (AreLawful options.now → ⊥) → (result ≡ 2) ⊎ ((result ≡ 7) × AreAllButFilter options.now) }
    ensures ok { result ≡ 0 → ((merging_whole options.now.blocks (model_of options.now) capture.now).stop ≡ Nowhere)
        × Fills output.old output.new count.new (merging_whole options.now.blocks
        (model_of options.now) capture.now).output }
    ensures malformed { result ≡ 3 → IsAtFault (merging_whole options.now.blocks
        (model_of options.now) capture.now).stop × Fills output.old output.new count.new
        (merging_whole options.now.blocks (model_of options.now) capture.now).output }
    ensures empty { result ≡ 4 → IsAtRound (merging_whole options.now.blocks (model_of options.now) capture.now).stop
        × Fills output.old output.new count.new (merging_whole options.now.blocks
        (model_of options.now) capture.now).output }
    ensures flows { result ≡ 0 → FlowsBack options.now.taps capture.now (take count.new output.new) }
    ensures short { result ≡ 9 → IsShort output.old output.new count.new
        (merging_whole options.now.blocks (model_of options.now) capture.now).output }
    ensures room { (records : ℕ) → length (packets_read capture.now) ≤ records
        → merge_bound (length capture.now) records options.now.taps options.now.snap ≤ length output.old → result ≢ 9 }
    ensures codes { (result ≡ 0) ⊎ ((result ≡ 2) ⊎ ((result ≡ 3) ⊎ ((result ≡ 4) ⊎ ((result ≡ 7) ⊎ (result ≡ 9))))) }
    ensures untouched { (result ≡ 2) ⊎ (result ≡ 7) → (output.new ≡ output.old) × (count.new ≡ 0) }
{
    *count = 0;
    let outcome = match merge_by(alloc, options, capture) {
        Ok(outcome) => outcome,
        Err(Refused::Usage) => return USAGE,
        Err(Refused::NoMemory) => return NO_MEMORY,
    };
    match outcome {
        Outcome::Whole(bytes) => deliver(&bytes, OK, output, count),
        Outcome::Refused(bytes) => deliver(&bytes, MALFORMED, output, count),
        Outcome::Empty(bytes) => deliver(&bytes, POOL_EMPTY, output, count),
        Outcome::NoMemory => NO_MEMORY,
    }
}

/// Cuts an offload capture in memory, as [`offload_merge`] makes it, back into the packets that its records stand for,
/// each record in a pool of `blocks` blocks of 2048 bytes (1 to 65536). A record of n bytes with its offload header
/// needs (n + 2099) / 2048 + 2 of them: of a header of version 2 the last four bytes are counted with the frame.
///
/// The answers are those of [`offload_merge`], where `blocks` is the only option; a record that isn't lawful ends the
/// capture too. [`crate::offload_segment_bound`] bytes suffice.
#[unsafe(no_mangle)]
pub extern "C" fn offload_segment(
    alloc: Global,
    blocks: u32,
    capture: &[u8],
    output: &mut [u8],
    count: &mut usize,
) -> u32
    ensures usage { result ≡ 2 ↔ ((blocks ≡ 0) ⊎ (65536 < blocks)) }
    ensures ok { result ≡ 0 → ((segmenting_whole blocks capture.now).stop ≡ Nowhere)
        × Fills output.old output.new count.new (segmenting_whole blocks capture.now).output }
    ensures malformed { result ≡ 3 → IsAtFault (segmenting_whole blocks capture.now).stop
        × Fills output.old output.new count.new (segmenting_whole blocks capture.now).output }
    ensures empty { result ≡ 4 → IsAtRound (segmenting_whole blocks capture.now).stop
        × Fills output.old output.new count.new (segmenting_whole blocks capture.now).output }
    ensures short { result ≡ 9 → IsShort output.old output.new count.new (segmenting_whole blocks capture.now).output }
    ensures room { (packets : ℕ) → length (packets_cut capture.now) ≤ packets
        → segment_bound (length capture.now) packets ≤ length output.old → result ≢ 9 }
    ensures codes { (result ≡ 0) ⊎ ((result ≡ 2) ⊎ ((result ≡ 3) ⊎ ((result ≡ 4) ⊎ ((result ≡ 7) ⊎ (result ≡ 9))))) }
    ensures untouched { (result ≡ 2) ⊎ (result ≡ 7) → (output.new ≡ output.old) × (count.new ≡ 0) }
{
    *count = 0;
    if blocks == 0 || blocks > 65536 {
        return USAGE;
    }
    match segment_bytes(alloc, blocks, capture) {
        Outcome::Whole(bytes) => deliver(&bytes, OK, output, count),
        Outcome::Refused(bytes) => deliver(&bytes, MALFORMED, output, count),
        Outcome::Empty(bytes) => deliver(&bytes, POOL_EMPTY, output, count),
        Outcome::NoMemory => NO_MEMORY,
    }
}
