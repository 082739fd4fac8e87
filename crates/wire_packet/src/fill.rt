//! Fills in the sums of a frame where it lies.

ghost use Rattle.std.specs.Prelude.{◌≡◌, ℕ, ◌+◌, ◌≤◌, ◌++◌, Some, List, length, drop, true};
ghost use Rattle.pcap_io.specs.Capture.{packet};
ghost use Rattle.pcap_io.specs.Limits.{most_frame};
ghost use Rattle.frame_layout.specs.Headers.{AreLaid};
ghost use Rattle.skb.specs.Fronts.{IsFronted};
ghost use Rattle.skb.specs.SkbState.{buffer_bytes, head_size, is_sole, weighed_in, IsAlone};
ghost use Rattle.wire_model.specs.Filling.{fates_of, filled_of, fill_sums as with_sums, no_header, packet_fates};
ghost use Rattle.wire_fill.specs.Fated.{IsFated};
ghost use Rattle.wire_packet.specs.Kept.{KeepsBlocks};

use crate::front::front_bytes;
use frags::Outcomes;
use frame_layout::{Layout, shape};
use skb::{FRONT, Skb};
use wire_fill::{Fates, are_lengths_right, fill_sums};

// No sum was filled, and none is known to be wrong.
const UNTOUCHED: Fates = Fates {
    filled: 0,
    wrong: 0,
};

// Writes a row of bytes over a buffer's first ones.
fn put_front(skb: &mut Skb, row: &[u8], out: &mut Outcomes)
    requires within { length row.now ≤ head_size skb.old }
    requires sole { is_sole skb.old.head ≡ true }
    ensures bytes { buffer_bytes skb.new ≡ row.now ++ drop (length row.now) (buffer_bytes skb.old) }
    ensures kept { KeepsBlocks skb.old skb.new }
    ensures out { out.new ≡ out.old }
{
    let _ = skb.len();
    match skb.pull(row.len(), out) {
        Ok(()) => {}
        Err(_) => unreachable!(),
    }
    let _ = skb.len();
    match skb.push(row) {
        Ok(()) => {}
        Err(_) => unreachable!(),
    }
}

// Fills in the sums of a frame of this layout.
fn fill_layout(skb: &mut Skb, layout: &Layout, all: bool, out: &mut Outcomes) -> Fates
    requires laid { AreLaid 0 layout.now.headers layout.now.payload_at }
    requires within { layout.now.payload_at ≤ head_size skb.old }
    requires low { layout.now.payload_at ≤ 200 }
    requires short { length (buffer_bytes skb.old) ≤ most_frame }
    requires sole { is_sole skb.old.head ≡ true }
    ensures bytes { buffer_bytes skb.new ≡ with_sums all no_header layout.now.headers (buffer_bytes skb.old) }
    ensures fates { IsFated (fates_of all no_header layout.now.headers (buffer_bytes skb.old)) result }
    ensures kept { KeepsBlocks skb.old skb.new }
    ensures out { out.new ≡ out.old }
{
    let n = layout.payload_at();
    let _ = skb.len();
    let payload = skb.sum_from(n);
    let mut row = [0u8; FRONT];
    let row = &mut row[..n];
    row.copy_from_slice(&skb.head()[..n]);
    let fates = fill_sums(row, layout.headers(), payload, all);
    put_front(skb, row, out);
    fates
}

/// Fills in the sums of a packet that was captured whole, has a shape and right lengths: those that are partial, or
/// each one where `all` are wanted. Another packet stays as it is. Each byte of the payload is read once.
pub fn fill_packet(skb: &mut Skb, original: u32, all: bool, out: &mut Outcomes) -> Fates
    requires front { IsFronted skb.old }
    requires short { length (buffer_bytes skb.old) ≤ most_frame }
    requires sole { is_sole skb.old.head ≡ true }
    ensures filled { (number sec frac : ℕ) → packet number sec frac original (buffer_bytes skb.new)
        ≡ filled_of all (packet number sec frac original (buffer_bytes skb.old)) }
    ensures fates { (number sec frac : ℕ)
        → IsFated (packet_fates all (packet number sec frac original (buffer_bytes skb.old))) result }
    ensures kept { KeepsBlocks skb.old skb.new }
    ensures out { out.new ≡ out.old }
{
    let len = skb.len();
    let front = front_bytes(skb);
    let Some(layout) = shape(front) else {
        return UNTOUCHED;
    };
    if original as usize != len {
        return UNTOUCHED;
    }
    if !are_lengths_right(front, len, layout.headers()) {
        return UNTOUCHED;
    }
    fill_layout(skb, &layout, all, out)
}
