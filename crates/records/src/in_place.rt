//! Writes what runs of packets come to, from the packets where they lie.
ghost use Rattle.std.specs.Prelude.{◌≡◌, ◌+◌, ◌<◌, ◌≤◌, ◌^◌, ◌++◌, ◌∷◌, [], List, OnOk, OnErr, length, map};
ghost use Rattle.std.specs.List.{AllByRecursion, flat_map};
ghost use Rattle.std.specs.Io.KnownBytes.{Appends};
ghost use Rattle.off_io.specs.Faults.{HasCause};
ghost use Rattle.off_io.specs.Content.{AppendsPrefix};
ghost use Rattle.pcap_io.specs.Capture.{Packet};
ghost use Rattle.pcap_io.specs.Limits.{off_head2_size};
ghost use Rattle.offload_model.specs.Merged.{merged_of};
ghost use Rattle.gro.specs.Slots.{packet_of, IsHeld, AreHeld};
ghost use Rattle.frame_runs.specs.Chains.{chain_of, packet_at, run_of};
ghost use Rattle.frame_runs.specs.Engine.{Knows, KnowsSome, IsChain, AreRuns, runs_of};
ghost use Rattle.frame_runs.specs.MergedRun.{headers_size, payloads_behind};
ghost use Rattle.records.specs.Records.{item_bytes, Writes};

use crate::buffer::write_from;
use crate::record::{Time, both_heads, write_record};
use frame_runs::{Engine, Run};
use gro::Slot;
use off_io::{Sink, WriteFault, write_all};
use pcap_io::{FileHead, OFF_HEAD2_LEN, record_header};
use skb::FRONT;

// The length of a record's header and the offload header behind it.
const HEADS: usize = 16 + OFF_HEAD2_LEN;

// Puts all headers together whose record is a run of several packets: the record's two, and those of the merged frame.
fn put_row(row: &mut [u8], file: &FileHead, lane: u8, run: &Run, first: &Slot)
    requires slot { IsHeld first.now }
    requires run { KnowsSome run.now (packet_of first.now) }
    requires several { 1 ≤ run.now.more }
    requires size { length row.old ≡ 32 + headers_size run.now }
    ensures row { (rest : List Packet) → Knows run.now (packet_of first.now) rest
        → row.new ++ payloads_behind (headers_size run.now) (packet_of first.now ∷ rest)
        ≡ item_bytes file.now.order lane (merged_of (packet_of first.now ∷ rest)) }
    ensures size { length row.new ≡ 32 + headers_size run.now }
{
    let len = run.frame_len(first) + OFF_HEAD2_LEN as u32;
    let header = record_header(file.order, first.sec, first.frac, len, len);
    let offload = run.head(lane, first);
    let (heads, headers) = row.split_at_mut(HEADS);
    heads.copy_from_slice(&both_heads(&header, &offload.bytes()));
    run.put_headers(first, headers);
}

// Writes what is behind `at` of `count` packets, from index `first` on.
fn write_payloads<K: Sink>(
    sink: &mut K,
    packets: &[Slot],
    next: &[u32],
    first: u32,
    count: u32,
    at: usize,
) -> Result<(), WriteFault>
    requires slots { AreHeld packets.now }
    requires linked { length packets.now ≤ length next.now }
    requires inside { AllByRecursion (λ k. k < length packets.now) (chain_of next.now count first) }
    requires low { at ≤ 200 }
    requires there { AllByRecursion (λ (p : Packet). at ≤ length p.frame)
        (map (packet_at (map packet_of packets.now)) (chain_of next.now count first)) }
    ensures writes { Writes (K.held sink.old) (K.held sink.new) (K.faults sink.old) (K.faults sink.new)
        (payloads_behind at (map (packet_at (map packet_of packets.now)) (chain_of next.now count first))) result }
{
    let mut k = first;
    let mut left = count;
    while left > 0 {
        write_from(sink, &packets[k as usize].skb, at)?;
        k = next[k as usize];
        left -= 1;
    }
    Ok(())
}

// Writes a packet that is alone, as it lies.
fn write_alone<K: Sink>(
    sink: &mut K,
    file: &FileHead,
    lane: u8,
    run: &Run,
    slot: &Slot,
) -> Result<(), WriteFault>
    requires slot { IsHeld slot.now }
    requires run { Knows run.now (packet_of slot.now) [] }
    requires fits { slot.now.original + off_head2_size < 2 ^ 32 }
    ensures writes { Writes (K.held sink.old) (K.held sink.new) (K.faults sink.old) (K.faults sink.new)
        (item_bytes file.now.order lane (merged_of (packet_of slot.now ∷ []))) result }
{
    let head = run.head(lane, slot);
    let time = Time {
        sec: slot.sec,
        frac: slot.frac,
    };
    write_record(sink, file, time, slot.original, Some(head), &slot.skb)
}

// Writes what several packets come to: all headers by one call, and then the payloads.
fn write_merged<K: Sink>(
    sink: &mut K,
    file: &FileHead,
    lane: u8,
    packets: &[Slot],
    next: &[u32],
    run: &Run,
) -> Result<(), WriteFault>
    requires slots { AreHeld packets.now }
    requires linked { length packets.now ≤ length next.now }
    requires run { IsChain (map packet_of packets.now) next.now run.now }
    requires several { 1 ≤ run.now.more }
    ensures writes { Writes (K.held sink.old) (K.held sink.new) (K.faults sink.old) (K.faults sink.new)
        (item_bytes file.now.order lane (merged_of (run_of (map packet_of packets.now) next.now run.now))) result }
{
    let at = run.headers_len();
    let mut row = [0u8; HEADS + FRONT];
    let row = &mut row[..HEADS + at];
    put_row(row, file, lane, run, &packets[run.first as usize]);
    write_all(sink, row)?;
    write_payloads(sink, packets, next, run.first, run.more + 1, at)
}

/// Writes what a run of packets comes to as a record, from its packets where they lie: nothing of them is moved or
/// written.
///
/// `WriteFault` only where the sink's count of faults rose; a prefix of the record was then written.
pub fn write_run<K: Sink>(
    sink: &mut K,
    file: &FileHead,
    lane: u8,
    packets: &[Slot],
    next: &[u32],
    run: &Run,
) -> Result<(), WriteFault>
    requires slots { AreHeld packets.now }
    requires linked { length packets.now ≤ length next.now }
    requires run { IsChain (map packet_of packets.now) next.now run.now }
    requires fits { (packet_at (map packet_of packets.now) run.now.first).original + off_head2_size < 2 ^ 32 }
    ensures ok { OnOk result (Appends (K.held sink.old) (K.held sink.new)
        (item_bytes file.now.order lane (merged_of (run_of (map packet_of packets.now) next.now run.now)))) }
    ensures err { OnErr result (AppendsPrefix (K.held sink.old) (K.held sink.new)
        (item_bytes file.now.order lane (merged_of (run_of (map packet_of packets.now) next.now run.now)))) }
    ensures cause { HasCause (K.faults sink.old) (K.faults sink.new) result }
{
    if run.more == 0 {
        return write_alone(sink, file, lane, run, &packets[run.first as usize]);
    }
    write_merged(sink, file, lane, packets, next, run)
}

/// Writes what all runs of an engine come to, each as a record, in the order of their first packets.
///
/// `WriteFault` only where the sink's count of faults rose; a prefix of their output was then written.
pub fn write_runs<K: Sink>(
    sink: &mut K,
    file: &FileHead,
    lane: u8,
    packets: &[Slot],
    engine: &Engine,
) -> Result<(), WriteFault>
    requires slots { AreHeld packets.now }
    requires runs { AreRuns (map packet_of packets.now) (length packets.now) engine.now }
    requires fit { AllByRecursion (λ (p : Packet). p.original + off_head2_size < 2 ^ 32)
        (map packet_of packets.now) }
    ensures ok { OnOk result (Appends (K.held sink.old) (K.held sink.new)
        (flat_map (item_bytes file.now.order lane)
        (map merged_of (runs_of (map packet_of packets.now) engine.now)))) }
    ensures err { OnErr result (AppendsPrefix (K.held sink.old) (K.held sink.new)
        (flat_map (item_bytes file.now.order lane)
        (map merged_of (runs_of (map packet_of packets.now) engine.now)))) }
    ensures cause { HasCause (K.faults sink.old) (K.faults sink.new) result }
{
    for run in &engine.runs {
        write_run(sink, file, lane, packets, &engine.next, run)?;
    }
    Ok(())
}
