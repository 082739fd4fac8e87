//! Why a frame can't be merged, and why two don't continue one another, for C.
ghost use Rattle.std.specs.Prelude.{◌≡◌, ◌↔◌, Some, [], ◌∷◌};
ghost use Rattle.burst_c.specs.Causes.{number_of as number_said, pair_number_of as pair_number_said};
ghost use Rattle.frame_causes.specs.Causes.{cause_of};
ghost use Rattle.frame_causes.specs.Pairs.{pair_cause};
ghost use Rattle.frame_layout.specs.Candidate.{IsCandidate};
ghost use Rattle.frame_layout.specs.Shape.{Layout, shape_of};
ghost use Rattle.frame_runs.specs.Lent.{packet_of};
ghost use Rattle.offload_model.specs.Mergeable.{IsMergeable};

use frame_causes::{Cause, PairCause, why, why_apart};
use frame_runs::Lent;

/// The number of a cause.
fn number_of(cause: Cause) -> u32
    ensures number { result ≡ number_said cause }
{
    match cause {
        Cause::Mergeable => 0,
        Cause::Cut => 1,
        Cause::Fragment => 2,
        Cause::Options => 3,
        Cause::Extension => 4,
        Cause::Layout => 5,
        Cause::Length => 6,
        Cause::Flags => 7,
        Cause::Empty => 8,
        Cause::Sum => 9,
    }
}

/// Why a frame that had `original` bytes before it was captured can't be merged: 0 where it can, 1 where it was cut
/// short, 2 of a fragment, 3 for IPv4 options, 4 for an extension header of IPv6, 5 for other headers, 6 for a length
/// that doesn't count to its end, 7 for flags, 8 where it has no payload, and 9 for a sum.
#[unsafe(no_mangle)]
pub extern "C" fn offload_why(frame: &[u8], original: u32) -> u32
    ensures cause { result ≡ number_said (cause_of frame.now original) }
    ensures candidate { (result ≡ 0) ↔ ((layout : Layout) × ((shape_of frame.now ≡ Some layout)
        × IsCandidate frame.now original layout)) }
{
    number_of(why(frame, original))
}

/// The number of a cause of two frames.
fn pair_number_of(cause: PairCause) -> u32
    ensures number { result ≡ pair_number_said cause }
{
    match cause {
        PairCause::Mergeable => 0,
        PairCause::First => 10,
        PairCause::Second => 11,
        PairCause::Flow => 12,
        PairCause::Headers => 13,
        PairCause::UdpSum => 14,
        PairCause::Longer => 15,
        PairCause::Flags => 16,
        PairCause::Sequence => 17,
        PairCause::Identification => 18,
        PairCause::TooLong => 19,
    }
}

/// Why the second of two frames doesn't continue the first, so that both are a run: 0 where it does, 10 where the first
/// can't be merged itself, 11 where the second can't, 12 of another flow, 13 for another header field, 14 where one has
/// a UDP sum and the other none, 15 where it is longer, 16 behind PSH or FIN, 17 for a sequence number, 18 for an
/// identification, and 19 where both together are too long.
#[unsafe(no_mangle)]
pub extern "C" fn offload_why_apart(first: &Lent<'_>, second: &Lent<'_>) -> u32
    ensures cause { result ≡ pair_number_said (pair_cause (packet_of first.now) (packet_of second.now)) }
    ensures mergeable { (result ≡ 0) ↔ IsMergeable (packet_of first.now ∷ packet_of second.now ∷ []) }
{
    pair_number_of(why_apart(first, second))
}
