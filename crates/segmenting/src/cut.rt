//! Writes the packets that a record stands for, and brings its blocks home.
ghost use Rattle.std.specs.Prelude.{◌≡◌, ◌+◌, ◌-◌, ◌<◌, ◌≤◌, ◌^◌, Err, OnOk, OnErr};
ghost use Rattle.std.specs.Prelude.{length};
ghost use Rattle.std.specs.Io.KnownBytes.{Appends};
ghost use Rattle.off_io.specs.Faults.{HasCause, Rose};
ghost use Rattle.off_io.specs.Content.{AppendsPrefix};
ghost use Rattle.block_pool.specs.PoolState.{home};
ghost use Rattle.skb.specs.SkbState.{buffer_bytes, weighed_in, IsAlone};
ghost use Rattle.pcap_io.specs.Capture.{Packet as Record};
ghost use Rattle.pcap_io.specs.Limits.{most_frame, off_head_size};
ghost use Rattle.skb.specs.Fronts.{IsFronted};
ghost use Rattle.gro.specs.Slots.{count_of, packet_of};
ghost use Rattle.gso.specs.Planning.{IsPlanOf, packets_by};
ghost use Rattle.reading.specs.Laid.{IsRead};
ghost use Rattle.reading.specs.Reading.{record_of};
ghost use Rattle.segmenting.specs.Cutting.{IsBehind, Writes, WritesRecord, packets_bytes};
ghost use Rattle.reading.specs.Home.{Adds};

use crate::opening::take_head;
use block_pool::Pool;
use frags::Outcomes;
use gro::Slot;
use gso::{BadOffload, Plan, Segments, check_super};
use off_io::{Sink, WriteFault};
use pcap_io::{AnyHead, FileHead, OFF_HEAD_LEN};
use reading::bring_blocks;
use records::{Time, write_record, write_segments};

/// Why the packets of a record aren't all written.
#[derive(Clone, Copy)]
pub(crate) enum Refused {
    /// The record isn't lawful; nothing of it is written.
    BadOffload,
    /// The sink failed; a prefix of what is to be written is written.
    WriteFault,
}

// Writes the packets of a record's plan, from the record's own buffer. The packet has no offload header any more.
fn write_packets<K: Sink>(
    sink: &mut K,
    file: &FileHead,
    packet: &Slot,
    plan: &Plan,
) -> Result<(), WriteFault>
    requires short { length (buffer_bytes packet.now.skb) ≤ most_frame }
    requires original { packet.now.original < 2 ^ 31 }
    requires plan { IsPlanOf packet.now.skb plan.now }
    ensures ok { OnOk result (Appends (K.held sink.old) (K.held sink.new)
        (packets_bytes file.now.order (packets_by plan.now (packet_of packet.now)))) }
    ensures err { OnErr result (AppendsPrefix (K.held sink.old) (K.held sink.new)
        (packets_bytes file.now.order (packets_by plan.now (packet_of packet.now)))) }
    ensures cause { HasCause (K.faults sink.old) (K.faults sink.new) result }
{
    let _ = packet.skb.len();
    let time = Time {
        sec: packet.sec,
        frac: packet.frac,
    };
    match plan {
        Plan::Nothing => Ok(()),
        Plan::Single => write_record(sink, file, time, packet.original, None, &packet.skb),
        Plan::Segments(cut, sums) => {
            write_segments(sink, file, time, &Segments::new(&packet.skb, cut, sums))
        }
    }
}

// The blocks of a packet's buffer go home.
fn bring_packet(pool: &mut Pool, packet: Slot)
    requires alone { IsAlone packet.skb }
    requires room { home pool.old + count_of packet ≤ pool.old.made }
    ensures adds { Adds (count_of packet) (λ h. weighed_in h packet.skb) pool.old pool.new }
{
    let Slot {
        skb,
        sec: _,
        frac: _,
        original: _,
        number: _,
    } = packet;
    bring_blocks(pool, skb);
}

// Writes the packets of a record's plan, and brings its blocks home.
fn write_plan<K: Sink>(
    sink: &mut K,
    file: &FileHead,
    packet: Slot,
    plan: Plan,
    pool: &mut Pool,
) -> Result<(), Refused>
    requires short { length (buffer_bytes packet.skb) ≤ most_frame }
    requires original { packet.original < 2 ^ 31 }
    requires plan { IsPlanOf packet.skb plan }
    requires alone { IsAlone packet.skb }
    requires room { home pool.old + count_of packet ≤ pool.old.made }
    ensures writes { Writes (packets_bytes file.now.order (packets_by plan (packet_of packet))) (K.held sink.old)
        (K.held sink.new) result }
    ensures adds { Adds (count_of packet) (λ h. weighed_in h packet.skb) pool.old pool.new }
    ensures later { K.faults sink.old ≤ K.faults sink.new }
    ensures failed { result ≡ Err Refused.WriteFault → Rose (K.faults sink.old) (K.faults sink.new) }
{
    let wrote = write_packets(sink, file, &packet, &plan);
    bring_packet(pool, packet);
    match wrote {
        Ok(()) => Ok(()),
        Err(WriteFault) => Err(Refused::WriteFault),
    }
}

// Judges a record as a whole, writes its packets, and brings its blocks home. The buffer has what stands behind the
// offload header; the original length counts the header all the same.
fn write_judged<K: Sink>(
    sink: &mut K,
    file: &FileHead,
    head: &AnyHead,
    packet: Slot,
    pool: &mut Pool,
) -> Result<(), Refused>
    requires front { IsFronted packet.skb }
    requires original { off_head_size ≤ packet.original }
    requires alone { IsAlone packet.skb }
    requires room { home pool.old + count_of packet ≤ pool.old.made }
    ensures writes { (r : Record) → IsBehind r head.now packet
        → WritesRecord file.now.order r (K.held sink.old) (K.held sink.new) result }
    ensures adds { Adds (count_of packet) (λ h. weighed_in h packet.skb) pool.old pool.new }
    ensures later { K.faults sink.old ≤ K.faults sink.new }
    ensures failed { result ≡ Err Refused.WriteFault → Rose (K.faults sink.old) (K.faults sink.new) }
{
    match check_super(head, &packet.skb, packet.original) {
        Ok(plan) => {
            let mut packet = packet;
            packet.original -= head.size();
            write_plan(sink, file, packet, plan, pool)
        }
        Err(BadOffload) => {
            bring_packet(pool, packet);
            Err(Refused::BadOffload)
        }
    }
}

/// Writes the packets that a record stands for, whose first bytes are `front`, where the record is lawful, and brings
/// the blocks of its buffer home, whatever the answer.
pub(crate) fn cut_record<K: Sink>(
    sink: &mut K,
    file: &FileHead,
    front: &[u8; OFF_HEAD_LEN],
    packet: Slot,
    pool: &mut Pool,
    out: &mut Outcomes,
) -> Result<(), Refused>
    requires long { length front.now ≡ off_head_size }
    requires read { IsRead packet }
    requires original { off_head_size ≤ packet.original }
    requires alone { IsAlone packet.skb }
    requires room { home pool.old + count_of packet ≤ pool.old.made }
    ensures writes { WritesRecord file.now.order (record_of front.now packet) (K.held sink.old)
        (K.held sink.new) result }
    ensures adds { Adds (count_of packet) (λ h. weighed_in h packet.skb) pool.old pool.new }
    ensures out { out.new ≡ out.old }
    ensures later { K.faults sink.old ≤ K.faults sink.new }
    ensures failed { result ≡ Err Refused.WriteFault → Rose (K.faults sink.old) (K.faults sink.new) }
{
    let mut packet = packet;
    match take_head(front, &mut packet.skb, out) {
        Some(head) => write_judged(sink, file, &head, packet, pool),
        None => {
            bring_packet(pool, packet);
            Err(Refused::BadOffload)
        }
    }
}
