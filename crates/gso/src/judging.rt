//! The test of a record whose frame lies in a buffer.

ghost use Rattle.std.specs.Prelude.{◌≡◌, ◌+◌, ◌-◌, ◌≤◌, ◌<◌, ◌^◌, ◌++◌, ◌↔◌, ℕ, List, length, take, drop, min, IsOk};
ghost use Rattle.std.specs.Prelude.{IfOk, IfSome, IfNone, Some, true};
ghost use Rattle.pcap_io.specs.Limits.{most_frame};
ghost use Rattle.skb.specs.SkbState.{buffer_bytes, buffer_size, head_bytes, head_size};
ghost use Rattle.pcap_io.specs.Capture.{packet};
ghost use Rattle.frame_layout.specs.Shape.{shape_of};
ghost use Rattle.offload_model.specs.Segments.{IsLawfulSuper, segments_by};
ghost use Rattle.offload_model.specs.Tests.{is_lawful_by};
ghost use Rattle.segment_rule.specs.Segmentations.{IsJudged, is_merged_head};
ghost use Rattle.gso.specs.Sums.{AreSumsOf, IsRoom};
ghost use Rattle.skb.specs.Checksum.{AreBytes};
ghost use Rattle.skb.specs.Fronts.{IsFronted};
ghost use Rattle.gso.specs.Planning.{IsSegmentsReady, IsPlanOf, packets_by, IsLawfulBehind};
ghost use Rattle.pcap_io.specs.Headers.{fields_in, head_size as head_size_of};

use crate::sums::Sums;
use frame_layout::{Layout, candidate_in, shape};
use pcap_io::{AnyHead, OffHead2};
use segment_rule::{
    BadOffload, Segmentation, is_merged, is_opened, is_single, is_window, segmentation_of,
};
use skb::{FRONT, Skb};

/// What packets a record stands for.
#[derive(Drop)]
pub enum Plan {
    /// None: it is what a tap has seen.
    Nothing,
    /// The packet behind the offload header, as it is.
    Single,
    /// The segments of a merged frame, whose sums are known.
    Segments(Segmentation, Sums),
}

/// Adds bytes to the sums of segments.
fn add(sums: &mut Sums, bytes: &[u8], m: u32)
    requires room { IsRoom m sums.old }
    requires few { sums.old.rest.len + length bytes.now < 2 ^ 32 }
    ensures sums { (f : List ℕ) → AreSumsOf m sums.old f → AreSumsOf m sums.new (f ++ bytes.now) }
    ensures room { IsRoom m sums.new }
    ensures len { sums.new.rest.len ≤ sums.old.rest.len + length bytes.now }
    ensures in_bytes { AreBytes bytes.now }
{
    sums.add(bytes, m);
}

/// The sums of the segments of a buffer's bytes from a place of its head on: each byte is read once, where it lies.
fn sums_of(skb: &Skb, from: usize, m: u32) -> Sums
    requires inside { from ≤ length (head_bytes skb.now) }
    requires some { 1 ≤ m }
    ensures sums { AreSumsOf m result (drop from (buffer_bytes skb.now)) }
    ensures in_bytes { AreBytes (drop from (buffer_bytes skb.now)) }
{
    let _ = skb.len();
    let mut sums = Sums::new();
    add(&mut sums, &skb.head()[from..], m);
    let n = skb.count() - 1;
    for i in 0..n {
        add(&mut sums, skb.slice(i), m);
    }
    sums
}

/// What a slice holds are bytes.
fn in_bytes(bytes: &[u8]) -> &[u8]
    ensures same { result.now ≡ bytes.now }
    ensures in_bytes { AreBytes result.now }
{
    bytes
}

/// A frame's first bytes, which hold all headers.
fn front_bytes(skb: &Skb) -> &[u8]
    requires front { IsFronted skb.now }
    ensures joined { buffer_bytes skb.now ≡ result.now ++ drop (length result.now) (buffer_bytes skb.now) }
    ensures enough { min (length (buffer_bytes skb.now)) 200 ≤ length result.now }
    ensures inside { length result.now ≤ length (head_bytes skb.now) }
    ensures size { length (head_bytes skb.now) ≡ head_size skb.now }
    ensures in_bytes { AreBytes result.now }
{
    let _ = skb.len();
    let bytes = skb.head();
    in_bytes(&bytes[..bytes.len().min(FRONT)])
}

/// How a frame of this layout is segmented, where the record is a lawful one of a merged frame, and the sums of its
/// segments.
fn segmented(
    head: &OffHead2,
    skb: &Skb,
    front: &[u8],
    layout: Layout,
    original: u32,
) -> Option<(Segmentation, Sums)>
    requires merged { is_merged_head head.now ≡ true }
    requires some { 1 ≤ head.now.m }
    requires shape { shape_of front.now ≡ Some layout }
    requires joined { buffer_bytes skb.now ≡ front.now ++ drop (length front.now) (buffer_bytes skb.now) }
    requires enough { min (length (buffer_bytes skb.now)) 200 ≤ length front.now }
    requires inside { length front.now ≤ length (head_bytes skb.now) }
    requires within { layout.payload_at ≤ length front.now }
    requires in_bytes { AreBytes front.now }
    ensures refused { IfNone result (IsLawfulSuper head.now (packet 0 0 0 original (buffer_bytes skb.now)) → ⊥) }
    ensures judged { IfSome result (λ r. IsJudged head.now (packet 0 0 0 original (buffer_bytes skb.now)) (Some r.0)) }
    ensures known { IfSome result (λ r. AreSumsOf r.0.m r.1 (drop r.0.layout.payload_at (buffer_bytes skb.now))) }
    ensures front { IfSome result (λ r. r.0.layout.payload_at ≤ length (head_bytes skb.now)) }
    ensures in_bytes { IfSome result (λ r. AreBytes (buffer_bytes skb.now)) }
{
    let _ = skb.len();
    let m = head.m;
    let sums = sums_of(skb, layout.payload_at(), m);
    let payload = sums.whole(m);
    let Some(seg) = candidate_in(layout, front, &payload, original) else {
        return None;
    };
    let Some(cut) = segmentation_of(head, front, seg) else {
        return None;
    };
    Some((cut, sums))
}

/// The same where the layout isn't known.
fn merged(head: &OffHead2, skb: &Skb, original: u32) -> Option<(Segmentation, Sums)>
    requires front { IsFronted skb.now }
    requires short { length (buffer_bytes skb.now) ≤ most_frame }
    ensures refused { IfNone result (IsLawfulSuper head.now (packet 0 0 0 original (buffer_bytes skb.now)) → ⊥) }
    ensures judged { IfSome result (λ r. IsJudged head.now (packet 0 0 0 original (buffer_bytes skb.now)) (Some r.0)) }
    ensures ready { IfSome result (λ r. IsSegmentsReady skb.now r.0 r.1) }
{
    if !is_merged(head) {
        return None;
    }
    if head.m == 0 {
        return None;
    }
    let front = front_bytes(skb);
    let Some(layout) = shape(front) else {
        return None;
    };
    segmented(head, skb, front, layout, original)
}

/// Tests what stands behind an offload header that may begin the record.
fn check_behind(head: &OffHead2, skb: &Skb, original: u32) -> Result<Plan, BadOffload>
    requires front { IsFronted skb.now }
    requires short { length (buffer_bytes skb.now) ≤ most_frame }
    ensures lawful { IsOk result ↔ (is_lawful_by head.now (packet 0 0 0 original (buffer_bytes skb.now)) ≡ true) }
    ensures plan { (number sec frac : ℕ) → IfOk result (λ plan. segments_by head.now
        (packet number sec frac original (buffer_bytes skb.now))
        ≡ packets_by plan (packet number sec frac original (buffer_bytes skb.now))) }
    ensures ready { IfOk result (λ plan. IsPlanOf skb.now plan) }
{
    if is_single(head) {
        return Ok(Plan::Single);
    }
    if is_window(head) {
        return Ok(Plan::Nothing);
    }
    match merged(head, skb, original) {
        Some((cut, sums)) => Ok(Plan::Segments(cut, sums)),
        None => Err(BadOffload),
    }
}

/// Tests a whole record by its offload header, by the frame behind it, and by the record's original length, of which
/// the offload header is 12 bytes, or 16 in version 2; and says what packets it stands for. It takes no memory.
///
/// `BadOffload` exactly where the record isn't lawful: its version is neither 1 nor 2, the frame has more than 262,144
/// bytes, the original length doesn't hold the header or is too great, or the header is none of a single packet's (kind
/// 0), a merged frame's (kind 1) and a tap window's (kind 2), or the merged frame can't be cut as the header says. Each
/// byte of the payload is read once.
pub fn check_super(head: &AnyHead, skb: &Skb, original: u32) -> Result<Plan, BadOffload>
    requires original { 12 ≤ original }
    requires front { IsFronted skb.now }
    ensures lawful { IsOk result ↔ IsLawfulBehind head.now original (buffer_bytes skb.now) }
    ensures plan { (number sec frac : ℕ) → IfOk result (λ plan. segments_by (fields_in head.now)
        (packet number sec frac (original - head_size_of head.now) (buffer_bytes skb.now))
        ≡ packets_by plan (packet number sec frac (original - head_size_of head.now) (buffer_bytes skb.now))) }
    ensures ready { IfOk result (λ plan. IsPlanOf skb.now plan) }
{
    if !is_opened(head, skb.len() as u32, original) {
        return Err(BadOffload);
    }
    check_behind(&head.fields(), skb, original - head.size())
}
