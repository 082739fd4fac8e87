//! Buffers joined into one.
ghost use Rattle.std.specs.Prelude.{◌≡◌, ◌+◌, ◌<◌, ◌≤◌, ◌^◌, ◌*◌, ◌++◌, ◌∷◌, [], ℕ, List, length, take, true};
ghost use Rattle.inet_sum.specs.Stands.{StandsFor};
ghost use Rattle.frame_layout.specs.Headers.{AtHeaders, AreLaid};
ghost use Rattle.offload_model.specs.Mergeable.{IsLengthInRange};
ghost use Rattle.offload_model.specs.Frames.{merged_frame};
ghost use Rattle.frame_layout.specs.Segment.{HasFlags};
ghost use Rattle.frags.specs.PieceList.{size_of};
ghost use Rattle.skb.specs.SkbState.{buffer_bytes, buffer_size, head_size, is_sole};
ghost use Rattle.skb.specs.Fronts.{IsFronted, front_of};
ghost use Rattle.gro_table.specs.Build.{build, IsBuild, IsSameBlock, TakesBuffer, TakesPackets, AreJoinable};
ghost use Rattle.gro_table.specs.Build.{sizes_behind};
ghost use Rattle.gro_table.specs.Build.{pieces_in, free_in, payloads};
ghost use Rattle.frame_runs.specs.Chains.{behind, AreDistinct};
ghost use Rattle.gro_table.specs.Items.{HoldsAll};
ghost use Rattle.gro_table.specs.Waiting.{chosen, AreThere, Empties};

use crate::Packet;
use crate::waiting::take_at;
use frags::{Outcomes, PieceBuilder};
use frame_layout::Layout;
use frame_runs::{Run, fill_headers};
use inet_sum::Partial;
use raw_block::Sole;
use skb::{FRONT, HEADROOM, Skb, write_at};
use std::collections::VecDeque;

// A buffer's bytes from `at` on follow: the block has as many of them as it still wants, and the rest moves behind it.
fn take_buffer(
    skb: Skb,
    at: usize,
    block: &mut Sole,
    filled: usize,
    pieces: &mut PieceBuilder,
    out: &mut Outcomes,
) -> usize
    requires head { at ≤ head_size skb }
    requires order { at ≤ filled }
    requires front { IsFronted skb }
    requires build { IsBuild (build block.old filled pieces.old.pieces out.old) }
    requires reserved { length skb.rest + 1 ≤ pieces.old.room }
    requires places { 1 ≤ out.old.spare }
    requires small { size_of pieces.old.pieces + buffer_size skb < 2 ^ 32 }
    ensures takes { TakesBuffer skb at (build block.old filled pieces.old.pieces out.old)
        (build block.new result pieces.new.pieces out.new) }
    ensures more { filled ≤ result }
    ensures room { pieces.old.room ≤ pieces.new.room + (length skb.rest + 1) }
    ensures left { out.old.spare ≤ out.new.spare + 1 }
{
    let mut skb = skb;
    let _ = skb.len();
    let head = skb.head();
    let n = (FRONT - filled).min(head.len() - at);
    write_at(block, HEADROOM + filled, &head[at..at + n]);
    let Ok(()) = skb.pull(at + n, out) else {
        unreachable!()
    };
    skb.move_into(pieces, out);
    filled + n
}

// The same of a packet, whose spares are given back.
fn take_packet(
    packet: Packet,
    at: usize,
    block: &mut Sole,
    filled: usize,
    pieces: &mut PieceBuilder,
    out: &mut Outcomes,
) -> usize
    requires head { at ≤ head_size packet.skb }
    requires order { at ≤ filled }
    requires front { IsFronted packet.skb }
    requires build { IsBuild (build block.old filled pieces.old.pieces out.old) }
    requires reserved { length packet.skb.rest + 1 ≤ pieces.old.room }
    requires places { 3 ≤ out.old.spare }
    requires small { size_of pieces.old.pieces + buffer_size packet.skb < 2 ^ 32 }
    ensures takes { TakesPackets (packet ∷ []) at (build block.old filled pieces.old.pieces out.old)
        (build block.new result pieces.new.pieces out.new) }
    ensures size { result + size_of pieces.new.pieces + at ≡ filled + size_of pieces.old.pieces
        + buffer_size packet.skb }
    ensures more { filled ≤ result }
    ensures room { pieces.old.room ≤ pieces.new.room + (length packet.skb.rest + 1) }
    ensures left { out.old.spare ≤ out.new.spare + 3 }
{
    let Packet {
        skb,
        spare1,
        spare2,
        sec: _,
        frac: _,
        original: _,
        number: _,
    } = packet;
    out.keep_sole(spare1);
    out.keep_sole(spare2);
    take_buffer(skb, at, block, filled, pieces, out)
}

// The same of the packets behind a run's first one, one after the other. They wait at the run's indices.
fn take_packets(
    waiting: &mut VecDeque<Option<Packet>>,
    next: &[u32],
    run: &Run,
    at: usize,
    block: &mut Sole,
    filled: usize,
    pieces: &mut PieceBuilder,
    out: &mut Outcomes,
) -> usize
    requires first { run.now.first < length next.now }
    requires linked { length waiting.old.items ≤ length next.now }
    requires there { AreThere waiting.old.items (behind next.now run.now) }
    requires distinct { AreDistinct (behind next.now run.now) }
    requires each { AreJoinable at (chosen waiting.old.items (behind next.now run.now)) }
    requires order { at ≤ filled }
    requires build { IsBuild (build block.old filled pieces.old.pieces out.old) }
    requires reserved { pieces_in (chosen waiting.old.items (behind next.now run.now)) ≤ pieces.old.room }
    requires places { free_in (chosen waiting.old.items (behind next.now run.now)) ≤ out.old.spare }
    requires small { filled + size_of pieces.old.pieces
        + sizes_behind at (chosen waiting.old.items (behind next.now run.now)) < 2 ^ 31 }
    ensures takes { TakesPackets (chosen waiting.old.items (behind next.now run.now)) at
        (build block.old filled pieces.old.pieces out.old) (build block.new result pieces.new.pieces out.new) }
    ensures empties { Empties (behind next.now run.now) waiting.old.items waiting.new.items }
{
    let mut end = filled;
    let mut k = next[run.first as usize];
    let mut left = run.more;
    while left > 0 {
        let packet = take_at(waiting, k);
        end = take_packet(packet, at, block, end, pieces, out);
        k = next[k as usize];
        left -= 1;
    }
    end
}

// The headers of the merged frame stand in a block behind its headroom, made from the first packet's.
fn put_headers(block: &mut Sole, head: &[u8], layout: &Layout, flags: u8, payload: Partial)
    requires laid { AreLaid 0 layout.now.headers layout.now.payload_at }
    requires low { layout.now.payload_at ≤ 200 }
    requires inside { layout.now.payload_at ≤ length head.now }
    requires ranges { AtHeaders (IsLengthInRange (layout.now.payload_at + payload.len)) layout.now.headers }
    requires few { layout.now.payload_at + payload.len < 2 ^ 31 }
    ensures merged { (first last bytes : List ℕ)
        → take layout.now.payload_at first ≡ take layout.now.payload_at head.now
        → AtHeaders (HasFlags flags last) layout.now.headers
        → StandsFor payload bytes
        → front_of block.new layout.now.payload_at ++ bytes ≡ merged_frame layout.now first last bytes }
    ensures size { length block.new.bytes ≡ 2048 }
    ensures same { IsSameBlock block.old block.new }
{
    let at = layout.payload_at();
    let _ = block.bytes();
    let range = block.range_mut(HEADROOM, HEADROOM + at);
    fill_headers(range, head, layout, flags, payload);
}

/// The packets of a run, whose layout this is, as one buffer: the first one's headers, merged, and all payloads. The
/// others wait at the run's indices. Nothing is copied but what the head must have, and no packet's head is written.
/// `pieces` and `out` are empty and have their places.
pub(crate) fn join(
    first: Packet,
    waiting: &mut VecDeque<Option<Packet>>,
    next: &[u32],
    run: &Run,
    layout: &Layout,
    pieces: PieceBuilder,
    out: Outcomes,
) -> (Skb, Outcomes)
    requires first { run.now.first < length next.now }
    requires linked { length waiting.old.items ≤ length next.now }
    requires there { AreThere waiting.old.items (behind next.now run.now) }
    requires distinct { AreDistinct (behind next.now run.now) }
    requires laid { AreLaid 0 layout.now.headers layout.now.payload_at }
    requires low { layout.now.payload_at ≤ 200 }
    requires ranges { AtHeaders (IsLengthInRange (layout.now.payload_at + run.now.payload.len)) layout.now.headers }
    requires few { layout.now.payload_at + run.now.payload.len < 2 ^ 31 }
    requires payload { StandsFor run.now.payload (payloads layout.now.payload_at
        (first ∷ chosen waiting.old.items (behind next.now run.now))) }
    requires each { AreJoinable layout.now.payload_at
        (first ∷ chosen waiting.old.items (behind next.now run.now)) }
    requires small { layout.now.payload_at + sizes_behind layout.now.payload_at
        (first ∷ chosen waiting.old.items (behind next.now run.now)) < 2 ^ 31 }
    requires empty { (pieces.pieces ≡ []) × (out.soles ≡ []) × (out.receipts ≡ []) }
    requires reserved { pieces_in (first ∷ chosen waiting.old.items (behind next.now run.now)) ≤ pieces.room }
    requires places { free_in (first ∷ chosen waiting.old.items (behind next.now run.now)) ≤ out.spare }
    ensures bytes { (last : List ℕ)
        → AtHeaders (HasFlags run.now.flags last) layout.now.headers
        → buffer_bytes result.0 ≡ merged_frame layout.now (buffer_bytes first.skb) last
        (payloads layout.now.payload_at (first ∷ chosen waiting.old.items (behind next.now run.now))) }
    ensures holds { HoldsAll (first ∷ chosen waiting.old.items (behind next.now run.now)) result.0 result.1 }
    ensures head { (is_sole result.0.head ≡ true) × (result.0.from ≡ 64) }
    ensures empties { Empties (behind next.now run.now) waiting.old.items waiting.new.items }
{
    let Packet {
        skb,
        spare1,
        spare2,
        sec: _,
        frac: _,
        original: _,
        number: _,
    } = first;
    let at = layout.payload_at();
    let mut block = spare1;
    let mut pieces = pieces;
    let mut out = out;
    put_headers(&mut block, skb.head(), layout, run.flags, run.payload);
    out.keep_sole(spare2);
    let one = take_buffer(skb, at, &mut block, at, &mut pieces, &mut out);
    let all = take_packets(
        waiting,
        next,
        run,
        at,
        &mut block,
        one,
        &mut pieces,
        &mut out,
    );
    let rest = pieces.finish();
    let _ = rest.len();
    (Skb::new(block, HEADROOM, HEADROOM + all, rest), out)
}
