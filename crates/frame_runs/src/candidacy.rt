//! Whether a packet in a buffer may be merged, and the key of its flow.
ghost use Rattle.std.specs.Prelude.{◌≡◌, ℕ, ◌≤◌, List, Some, length, IfSome, IsTrue};
ghost use Rattle.std.specs.Bool.{Decides};
ghost use Rattle.frame_layout.specs.Candidate.{IsCandidate, IsLengthRight};
ghost use Rattle.frame_layout.specs.declared.layout.Layer.TheVariants.{Ip4};
ghost use Rattle.frame_layout.specs.Key.{key_of, IsHeadOf};
ghost use Rattle.frame_layout.specs.Shape.{shape_of};
ghost use Rattle.merge_rule.specs.Runs.{IsJudged, IsShaped, IsCandidateOf, IsNoCandidate};

use crate::frame::Frame;
use frame_layout::{Key, Layout, is_flow_of, key, key_behind, mergeable_leaf, shape};
use inet_sum::Partial;
use ip_headers::ip4;
use merge_rule::Candidacy;

/// What a packet adds to a run.
#[derive(Drop)]
pub(crate) struct Addition {
    /// The sum of its payload.
    pub(crate) payload: Partial,
    /// Its TCP control bits; 0 of a datagram.
    pub(crate) flags: u8,
}

/// What a packet of this layout adds to a run, where it may be merged.
pub(crate) fn judge_as<F: Frame>(layout: &Layout, slot: &F) -> Option<Addition>
    requires held { F.is_held slot.now }
    requires shape { shape_of (F.packet slot.now).frame ≡ Some layout.now }
    ensures candidate { IfSome result (λ a.
        IsCandidateOf (F.packet slot.now).frame (F.packet slot.now).original layout.now a.payload a.flags) }
{
    let head = slot.head();
    let _ = slot.len();
    let sum = slot.sum_from(layout.payload_at());
    match mergeable_leaf(layout, head, &sum, slot.original()) {
        Some(fields) => Some(Addition {
            payload: sum,
            flags: fields.flags,
        }),
        None => None,
    }
}

/// Whether the IPv4 header of a frame of `len` bytes tells another length. Nothing is said of a head that ends before.
fn is_other_length(head: &[u8], len: usize) -> bool
    ensures other { IsTrue result → (f : List ℕ) → IsHeadOf head.now f → length f ≡ len
        → IsLengthRight f Ip4 14 → ⊥ }
{
    head.len() >= 34 && usize::from(ip4::total_length(head, 14)) != len.saturating_sub(14)
}

/// Whether a frame that most headers stand in front of can't be merged, as its length is another than they tell: then
/// no byte of its payload has to be read.
fn is_length_wrong(layout: &Layout, head: &[u8], len: usize) -> bool
    ensures wrong { IsTrue result → (f : List ℕ) → IsHeadOf head.now f → length f ≡ len → (original : ℕ)
        → IsCandidate f original layout.now → ⊥ }
{
    if layout.is_plain() {
        return is_other_length(head, len);
    }
    false
}

/// Whether a packet can't be merged as it was cut short, has no shape, or has lengths that tell so. Nothing is said of
/// other packets. Of the layout its kind and its end are read alone, so that none is put together.
pub(crate) fn is_refused<F: Frame>(slot: &F) -> bool
    requires held { F.is_held slot.now }
    ensures none { IsTrue result → IsNoCandidate (F.packet slot.now).frame (F.packet slot.now).original }
{
    let original = slot.original();
    if slot.len() != original as usize {
        return true;
    }
    let head = slot.head();
    let Some(layout) = shape(head) else {
        return true;
    };
    if original as usize <= layout.payload_at() {
        return true;
    }
    is_length_wrong(&layout, head, original as usize)
}

/// Whether a packet of this original length may be merged. Its payload is read once, where it lies, and not at all
/// where the packet was cut short, has no shape, or has headers that tell another length.
pub(crate) fn judge<F: Frame>(slot: &F) -> Candidacy
    requires held { F.is_held slot.now }
    ensures judged { IsJudged (F.packet slot.now).frame (F.packet slot.now).original result.layout result.payload
        result.flags }
{
    let original = slot.original();
    if slot.len() != original as usize {
        return Candidacy::none();
    }
    let head = slot.head();
    let Some(layout) = shape(head) else {
        return Candidacy::none();
    };
    if layout.payload_at() >= original as usize {
        return Candidacy::none();
    }
    if is_length_wrong(&layout, head, original as usize) {
        return Candidacy::none();
    }
    let payload = slot.sum_from(layout.payload_at());
    match mergeable_leaf(&layout, head, &payload, original) {
        Some(fields) => Candidacy {
            layout: Some(layout),
            payload,
            flags: fields.flags,
        },
        None => Candidacy::none(),
    }
}

/// Whether two packets have the same key, of which the second one's layout isn't known.
fn is_key_same<F: Frame>(first: &F, next: &F) -> bool
    requires first { F.is_held first.now }
    requires next { F.is_held next.now }
    ensures same { Decides result (key_of (F.packet first.now).frame ≡ key_of (F.packet next.now).frame) }
{
    let first_head = first.head();
    let next_head = next.head();
    let own = key(first_head);
    let other = key(next_head);
    own == other
}

/// The same of a packet whose layout is known.
fn is_flow_same<F: Frame>(first: &F, next: &F, layout: &Layout) -> bool
    requires first { F.is_held first.now }
    requires next { F.is_held next.now }
    requires shape { shape_of (F.packet next.now).frame ≡ Some layout.now }
    ensures same { Decides result (key_of (F.packet first.now).frame ≡ key_of (F.packet next.now).frame) }
{
    let first_head = first.head();
    let next_head = next.head();
    is_flow_of(first_head, next_head, layout)
}

/// Whether two packets are of one flow. The headers of one that may be merged aren't walked again.
pub(crate) fn is_same_flow<F: Frame>(first: &F, next: &F, candidacy: &Candidacy) -> bool
    requires first { F.is_held first.now }
    requires next { F.is_held next.now }
    requires shaped { IsShaped candidacy.now.layout (F.packet next.now).frame }
    ensures same { Decides result (key_of (F.packet first.now).frame ≡ key_of (F.packet next.now).frame) }
{
    match &candidacy.layout {
        Some(layout) => is_flow_same(first, next, layout),
        None => is_key_same(first, next),
    }
}

/// The key of a packet's flow. The headers of one that may be merged aren't walked again.
pub(crate) fn flow_key<F: Frame>(slot: &F, candidacy: &Candidacy) -> Key
    requires slot { F.is_held slot.now }
    requires shaped { IsShaped candidacy.now.layout (F.packet slot.now).frame }
    ensures key { result ≡ key_of (F.packet slot.now).frame }
{
    match &candidacy.layout {
        Some(layout) => key_behind(slot.head(), layout),
        None => key(slot.head()),
    }
}

/// The same of any packet.
pub(crate) fn key_in<F: Frame>(slot: &F) -> Key
    requires slot { F.is_held slot.now }
    ensures key { result ≡ key_of (F.packet slot.now).frame }
{
    key(slot.head())
}
