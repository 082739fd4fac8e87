//! Writes a packet as it goes over the wire, and brings its blocks home.

ghost use Rattle.std.specs.Prelude.{◌≡◌, ℕ, ◌+◌, ◌<◌, ◌≤◌, ◌^◌, length, true, OnOk, OnErr};
ghost use Rattle.std.specs.List.{flat_map};
ghost use Rattle.std.specs.Io.KnownBytes.{Appends};
ghost use Rattle.off_io.specs.Content.{AppendsPrefix};
ghost use Rattle.off_io.specs.Faults.{HasCause};
ghost use Rattle.block_pool.specs.PoolState.{home};
ghost use Rattle.pcap_io.specs.Limits.{most_frame};
ghost use Rattle.offload_model.specs.Captured.{IsCaptured};
ghost use Rattle.offload_model.specs.Written.{record_bytes};
ghost use Rattle.skb.specs.Fronts.{IsFronted};
ghost use Rattle.skb.specs.SkbState.{buffer_bytes, weighed_in, IsAlone};
ghost use Rattle.gro.specs.Slots.{count_of, packet_of};
ghost use Rattle.gso.specs.Planning.{IsPlanOf, packets_by};
ghost use Rattle.reading.specs.Home.{Adds};
ghost use Rattle.records.specs.Records.{Writes};
ghost use Rattle.wire_model.specs.Filling.{packet_fates};
ghost use Rattle.wire_model.specs.Counting.{counted, counts_by};
ghost use Rattle.wire_model.specs.Passing.{wire_bytes};
ghost use Rattle.wire_fill.specs.Fated.{IsFated};

use crate::cut::plan_cut;
use crate::fill::fill_packet;
use block_pool::Pool;
use frags::Outcomes;
use gro::Slot;
use gso::{Plan, Segments};
use off_io::{Sink, WriteFault};
use pcap_io::FileHead;
use reading::bring_blocks;
use records::{Time, write_record, write_segments};
use wire_fill::Fates;
use wire_model::{Counts, Wiring};

// Writes the packets of a plan, from the packet's own buffer.
fn write_plan<K: Sink>(
    sink: &mut K,
    file: &FileHead,
    packet: &Slot,
    plan: &Plan,
) -> Result<(), WriteFault>
    requires short { length (buffer_bytes packet.now.skb) ≤ most_frame }
    requires original { packet.now.original < 2 ^ 31 }
    requires plan { IsPlanOf packet.now.skb plan.now }
    ensures ok { OnOk result (Appends (K.held sink.old) (K.held sink.new)
        (flat_map (record_bytes file.now.order) (packets_by plan.now (packet_of packet.now)))) }
    ensures err { OnErr result (AppendsPrefix (K.held sink.old) (K.held sink.new)
        (flat_map (record_bytes file.now.order) (packets_by plan.now (packet_of packet.now)))) }
    ensures cause { HasCause (K.faults sink.old) (K.faults sink.new) result }
{
    let _ = packet.skb.len();
    let time = Time {
        sec: packet.sec,
        frac: packet.frac,
    };
    match plan {
        Plan::Nothing => Ok(()),
        Plan::Single => write_record(sink, file, time, packet.original, None, &packet.skb),
        Plan::Segments(cut, sums) => {
            write_segments(sink, file, time, &Segments::new(&packet.skb, cut, sums))
        }
    }
}

// The blocks of a packet's buffer go home.
fn bring_packet(pool: &mut Pool, packet: Slot)
    requires alone { IsAlone packet.skb }
    requires room { home pool.old + count_of packet ≤ pool.old.made }
    ensures adds { Adds (count_of packet) (λ h. weighed_in h packet.skb) pool.old pool.new }
{
    let Slot {
        skb,
        sec: _,
        frac: _,
        original: _,
        number: _,
    } = packet;
    bring_blocks(pool, skb);
}

// Counts a packet by what became of its sums, whether it is cut, and its length.
fn count(counts: &mut Counts, fates: Fates, is_cut: bool, len: usize)
    ensures counts { counts.new ≡ counts_by fates.filled fates.wrong is_cut len counts.old }
{
    counts.filled = counts.filled.saturating_add(u64::from(fates.filled));
    counts.wrong = counts.wrong.saturating_add(u64::from(fates.wrong));
    counts.cut = counts.cut.saturating_add(u64::from(is_cut));
    counts.long = counts.long.saturating_add(u64::from(!is_cut && len > 1514));
}

/// Writes what stands on the wire of a packet, and brings its blocks home, whatever the answer: its sums filled in, and
/// its segments, or the packet, each behind its record header. What was done is counted. It takes no memory.
///
/// `WriteFault` only where the sink's count of faults rose; a prefix was then written.
pub fn wire_packet<K: Sink>(
    sink: &mut K,
    file: &FileHead,
    wiring: Wiring,
    packet: Slot,
    pool: &mut Pool,
    out: &mut Outcomes,
    counts: &mut Counts,
) -> Result<(), WriteFault>
    requires mss { (1 ≤ wiring.mss) × (wiring.mss ≤ 65535) }
    requires captured { IsCaptured (packet_of packet) }
    requires front { IsFronted packet.skb }
    requires alone { IsAlone packet.skb }
    requires room { home pool.old + count_of packet ≤ pool.old.made }
    ensures writes { Writes (K.held sink.old) (K.held sink.new) (K.faults sink.old) (K.faults sink.new)
        (wire_bytes wiring file.now.order (packet_of packet)) result }
    ensures adds { Adds (count_of packet) (λ h. weighed_in h packet.skb) pool.old pool.new }
    ensures out { out.new ≡ out.old }
    ensures counts { counts.new ≡ counted wiring (packet_of packet) counts.old }
{
    let mut packet = packet;
    let len = packet.skb.len();
    let fates = fill_packet(&mut packet.skb, packet.original, wiring.fills_all, out);
    let (plan, is_cut) = plan_cut(wiring.mss, &packet.skb, packet.original);
    count(counts, fates, is_cut, len);
    let wrote = write_plan(sink, file, &packet, &plan);
    bring_packet(pool, packet);
    wrote
}
