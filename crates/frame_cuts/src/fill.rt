//! Sums that a host left to its card, filled in where a frame lies.
ghost use Rattle.std.specs.Prelude.{◌≡◌, ◌≤◌, false, [], length, IfNone, IfSome};
ghost use Rattle.frame_cuts.specs.Cuts.{whole};
ghost use Rattle.pcap_io.specs.Limits.{most_frame};
ghost use Rattle.wire_fill.specs.Fated.{IsFated};
ghost use Rattle.wire_model.specs.Filling.{filled_of, packet_fates};

use frame_layout::shape;
use inet_sum::Partial;
use wire_fill::{Fates, are_lengths_right, fill_sums};

/// Fills in the sums of a frame of at most 262,144 bytes that hold no more than that of their pseudo header, as a host
/// leaves them to its card. How many were filled, and how many are wrong nevertheless; none where it has no shape, or a
/// length in it is wrong, so that it stays as it is.
pub fn fill_frame(frame: &mut [u8]) -> Option<Fates>
    requires short { length frame.old ≤ most_frame }
    ensures filled { whole frame.new ≡ filled_of false (whole frame.old) }
    ensures fates { IfSome result (IsFated (packet_fates false (whole frame.old))) }
    ensures none { IfNone result (packet_fates false (whole frame.old) ≡ []) }
    ensures size { length frame.new ≡ length frame.old }
{
    let layout = shape(frame)?;
    if !are_lengths_right(frame, frame.len(), layout.headers()) {
        return None;
    }
    let n = layout.payload_at();
    let mut payload = Partial::new();
    payload.add(&frame[n..]);
    let head = &mut frame[..n];
    Some(fill_sums(head, layout.headers(), payload, false))
}
