//! Why two frames don't continue one another.
ghost use Rattle.std.specs.Prelude.{◌≡◌, ◌↔◌, ◌==◌, ◌||◌, ◌<◌, ◌^◌, not, nat_le, true, Some, [], ◌∷◌, length};
ghost use Rattle.net_bytes.specs.Bytes.{byte};
ghost use Rattle.frame_causes.specs.Asks.{AreThere};
ghost use Rattle.frame_causes.specs.Causes.{cause_of};
ghost use Rattle.frame_causes.specs.Pairs.{are_alike as are_alike_said, fits as fits_said, is_none, line_cause};
ghost use Rattle.frame_causes.specs.Pairs.{pair_by, pair_cause};
ghost use Rattle.frame_causes.specs.declared.pair.PairCause.TheVariants.{Mergeable};
ghost use Rattle.frame_layout.specs.Headers.{all_headers, are_alike_below, is_outside};
ghost use Rattle.frame_layout.specs.Key.{key_eq, key_of};
ghost use Rattle.frame_layout.specs.Shape.{shape_of};
ghost use Rattle.frame_runs.specs.Lent.{packet_of};
ghost use Rattle.offload_model.specs.Mergeable.{IsMergeable};

use crate::asked::{Asked, all_met, total};
use crate::cause::Cause;
use crate::judging::{in_bytes, why};
use crate::pair::PairCause;
use frame_layout::{Layout, is_flow_of, shape};
use frame_runs::Lent;
use pcap_io::FRAME_LIMIT;

/// Whether a frame may be merged by itself.
fn is_mergeable(frame: &Lent<'_>) -> bool
    ensures none { result ≡ is_none (cause_of frame.now.bytes.now frame.now.original) }
    ensures few { result ≡ true → length frame.now.bytes.now < 2 ^ 32 }
{
    match why(frame.bytes, frame.original) {
        Cause::Mergeable => true,
        _ => false,
    }
}

/// Whether both have one flow's key.
fn are_of_one_flow(layout: &Layout, first: &Lent<'_>, second: &Lent<'_>) -> bool
    requires shape { shape_of first.now.bytes.now ≡ Some layout.now }
    ensures same { result ≡ key_eq (key_of second.now.bytes.now) (key_of first.now.bytes.now) }
{
    is_flow_of(second.bytes, first.bytes, layout)
}

/// Whether both have the same byte at a place, or a field that may differ.
fn is_place_alike(layout: &Layout, first: &Lent<'_>, second: &Lent<'_>, k: usize) -> bool
    requires there { AreThere layout.now first.now second.now }
    requires place { k < layout.now.payload_at }
    ensures alike { result ≡ (not (all_headers (is_outside k) layout.now.headers)
        || byte second.now.bytes.now k == byte first.now.bytes.now k) }
{
    !all_met(Asked::Outside(k), layout, first, second) || second.bytes[k] == first.bytes[k]
}

/// Whether all bytes of the headers are the same, but for these fields.
fn are_places_alike(layout: &Layout, first: &Lent<'_>, second: &Lent<'_>) -> bool
    requires there { AreThere layout.now first.now second.now }
    ensures alike { result ≡ are_alike_below layout.now.headers second.now.bytes.now first.now.bytes.now
        layout.now.payload_at }
{
    let mut n = layout.payload_at();
    while n > 0 {
        n -= 1;
        if !is_place_alike(layout, first, second, n) {
            return false;
        }
    }
    true
}

/// Whether what both come to has room.
fn fits(layout: &Layout, first: &Lent<'_>, second: &Lent<'_>) -> bool
    requires there { AreThere layout.now first.now second.now }
    ensures fits { result ≡ fits_said layout.now (packet_of first.now) (packet_of second.now) }
{
    all_met(Asked::Lengths, layout, first, second)
        && total(layout, first, second) <= FRAME_LIMIT as usize
}

fn is_as_short(first: &Lent<'_>, second: &Lent<'_>) -> bool
    ensures short { result ≡ nat_le (length second.now.bytes.now) (length first.now.bytes.now) }
{
    second.bytes.len() <= first.bytes.len()
}

/// Why the second of two frames with the same headers doesn't continue the first.
fn line_why(layout: &Layout, first: &Lent<'_>, second: &Lent<'_>) -> PairCause
    requires there { AreThere layout.now first.now second.now }
    ensures cause { result ≡ line_cause layout.now (packet_of first.now) (packet_of second.now) }
{
    if !all_met(Asked::UdpSums, layout, first, second) {
        return PairCause::UdpSum;
    }
    if !is_as_short(first, second) {
        return PairCause::Longer;
    }
    if !all_met(Asked::AckAlone, layout, first, second) {
        return PairCause::Flags;
    }
    if !all_met(Asked::Sequence, layout, first, second) {
        return PairCause::Sequence;
    }
    if !all_met(Asked::Ids, layout, first, second) {
        return PairCause::Identification;
    }
    if !fits(layout, first, second) {
        return PairCause::TooLong;
    }
    PairCause::Mergeable
}

/// Whether the second has all headers of the first.
fn are_alike(layout: &Layout, first: &Lent<'_>, second: &Lent<'_>) -> bool
    requires shape { shape_of first.now.bytes.now ≡ Some layout.now }
    requires first { length first.now.bytes.now < 2 ^ 32 }
    requires second { length second.now.bytes.now < 2 ^ 32 }
    ensures alike { result ≡ are_alike_said layout.now (packet_of first.now) (packet_of second.now) }
    ensures there { result ≡ true → AreThere layout.now first.now second.now }
{
    layout.payload_at() <= second.bytes.len() && are_places_alike(layout, first, second)
}

/// Why the second of two frames that may be merged doesn't continue the first, whose layout this is.
fn by_layout(layout: &Layout, first: &Lent<'_>, second: &Lent<'_>) -> PairCause
    requires shape { shape_of first.now.bytes.now ≡ Some layout.now }
    requires first { length first.now.bytes.now < 2 ^ 32 }
    requires second { length second.now.bytes.now < 2 ^ 32 }
    ensures cause { result ≡ pair_by (Some layout.now) (packet_of first.now) (packet_of second.now) }
{
    if !are_of_one_flow(layout, first, second) {
        return PairCause::Flow;
    }
    if !are_alike(layout, first, second) {
        return PairCause::Headers;
    }
    line_why(layout, first, second)
}

fn pair_why(first: &Lent<'_>, second: &Lent<'_>) -> PairCause
    ensures cause { result ≡ pair_cause (packet_of first.now) (packet_of second.now) }
{
    if !is_mergeable(first) {
        return PairCause::First;
    }
    if !is_mergeable(second) {
        return PairCause::Second;
    }
    match shape(first.bytes) {
        Some(layout) => by_layout(&layout, first, second),
        None => PairCause::First,
    }
}

/// Why the second of two frames doesn't continue the first, so that both are a run: the first condition that fails.
pub fn why_apart(first: &Lent<'_>, second: &Lent<'_>) -> PairCause
    ensures cause { result ≡ pair_cause (packet_of first.now) (packet_of second.now) }
    ensures mergeable { (result ≡ Mergeable) ↔ IsMergeable (packet_of first.now ∷ packet_of second.now ∷ []) }
{
    let _ = in_bytes(first.bytes);
    pair_why(first, second)
}
