//! Frames cut where they lie, for C.
ghost use Rattle.std.specs.Prelude.{◌≡◌, ◌⊎◌, ◌↔◌, ◌<◌, ◌≤◌, false, [], length, take};
ghost use Rattle.pcap_io.specs.Limits.{most_frame};
ghost use Rattle.wire_model.specs.Filling.{filled_of, packet_fates, wrong_in};
ghost use Rattle.frame_cuts.specs.Cuts.{whole, Cuts, Refuses};
ghost use Rattle.burst_c.specs.Cutting.{CutAnswers};

use crate::codes::{OK, UNLAWFUL, USAGE, cut_code_of};
use frame_cuts::{CutSegment, cut_frame, fill_frame};

/// What no frame is longer than, in bytes.
const MOST_FRAME: usize = 262_144;

/// Cuts a merged frame into segments of `m` bytes of payload, the last of which has the rest. `modes` has a bit for
/// each IP header, the lowest for the first, set where the identification of an IPv4 header stays.
///
/// 0: the first `count` of `segments` are its segments. 2: m is 0, or the frame longer than 262,144 bytes. 6: it is no
/// merged frame that may be cut so. 9: `segments` is shorter than there are segments. But for 0 nothing was written but
/// `count`, which is 0.
#[unsafe(no_mangle)]
pub extern "C" fn offload_gso_burst(
    frame: &[u8],
    m: u32,
    modes: u8,
    segments: &mut [CutSegment],
    count: &mut usize,
) -> u32
    ensures cut { result ≡ 0 → Cuts m modes frame.now (take count.new segments.new) }
    ensures refused { CutAnswers (Refuses m modes frame.now (length segments.old)) result }
    ensures untouched { (result ≡ 0) ⊎ ((segments.new ≡ segments.old) × (count.new ≡ 0)) }
    ensures size { length segments.new ≡ length segments.old }
{
    *count = 0;
    match cut_frame(frame, m, modes, segments) {
        Ok(n) => {
            *count = n;
            OK
        }
        Err(refused) => cut_code_of(refused),
    }
}

/// Fills in the sums of a frame that hold no more than that of their pseudo header, as a host leaves them to its card.
///
/// 0: each sum is right then. 2: the frame is longer than 262,144 bytes, and stays as it is. 6: it has no shape, or a
/// length in it is wrong, and it stays as it is; or another sum is wrong.
#[unsafe(no_mangle)]
pub extern "C" fn offload_fill_sums(frame: &mut [u8]) -> u32
    ensures filled { length frame.old ≤ most_frame → whole frame.new ≡ filled_of false (whole frame.old) }
    ensures right { result ≡ 0 → wrong_in (packet_fates false (whole frame.old)) ≡ 0 }
    ensures wrong { result ≡ 6 → (packet_fates false (whole frame.old) ≡ [])
        ⊎ (1 ≤ wrong_in (packet_fates false (whole frame.old))) }
    ensures usage { (result ≡ 2) ↔ (most_frame < length frame.old) }
    ensures untouched { result ≡ 2 → frame.new ≡ frame.old }
    ensures codes { (result ≡ 0) ⊎ ((result ≡ 2) ⊎ (result ≡ 6)) }
    ensures size { length frame.new ≡ length frame.old }
{
    if frame.len() > MOST_FRAME {
        return USAGE;
    }
    match fill_frame(frame) {
        Some(fates) if fates.wrong == 0 => OK,
        _ => UNLAWFUL,
    }
}
