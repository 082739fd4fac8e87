//! What C calls.
ghost use Rattle.std.specs.Prelude.{◌≡◌, ◌↔◌, ◌≤◌, ◌⊎◌, length, map, take};
ghost use Rattle.std.specs.List.{AllByRecursion};
ghost use Rattle.frame_runs.specs.Lent.{packet_of};
ghost use Rattle.frame_bursts.specs.Burst.{AreLawful, HasRoom, Merges, ComesBack, frames_of};
ghost use Rattle.frame_bursts.specs.declared.link.Link.TheVariants.{Ethernet};
ghost use Rattle.burst_c.specs.Bounds.{limits_for};

use crate::codes::{OK, code_of};
use crate::limits::limits_of;
use frame_bursts::{BurstRun, Link, merge_burst};
use frame_runs::Lent;
use std::alloc::Global;

/// Merges frames where they lie, into runs of at most `segs` (1 to 4096), whose merged frame has at most `bytes`; 0 is
/// no bound.
///
/// 0: the first `count` of `runs` are what the frames come to, in the order of their first frames, and `next` leads
/// from each frame of a run to the one behind it. 2: a number or a frame isn't as it has to be: a frame is longer than
/// 262,144 bytes, its original length is 2^31 or more, numbers don't rise, or there are more than 65,535 frames. 7:
/// there was no memory. 9: `next` or `runs` is shorter than the list of frames. But for 0 nothing was written but
/// `count`, which is 0.
#[unsafe(no_mangle)]
pub extern "C" fn offload_gro_burst(
    alloc: Global,
    segs: u32,
    bytes: u32,
    frames: &[Lent<'_>],
    next: &mut [u32],
    runs: &mut [BurstRun],
    count: &mut usize,
) -> u32
    ensures merges { result ≡ 0 → Merges Ethernet (limits_for segs bytes) (map packet_of frames.now) next.new
        (take count.new runs.new) }
    ensures back { result ≡ 0 → AllByRecursion
        (λ r. ComesBack (frames_of (map packet_of frames.now) next.new r)) (take count.new runs.new) }
    ensures usage { (result ≡ 2) ↔ (AreLawful Ethernet (limits_for segs bytes) frames.now → ⊥) }
    ensures room { (result ≡ 9) ↔ (AreLawful Ethernet (limits_for segs bytes) frames.now
        × (HasRoom (length frames.now) (length next.old) (length runs.old) → ⊥)) }
    ensures codes { (result ≡ 0) ⊎ ((result ≡ 2) ⊎ ((result ≡ 7) ⊎ (result ≡ 9))) }
    ensures untouched { (result ≡ 2) ⊎ ((result ≡ 7) ⊎ (result ≡ 9))
        → (next.new ≡ next.old) × ((runs.new ≡ runs.old) × (count.new ≡ 0)) }
    ensures sizes { (length next.new ≡ length next.old) × (length runs.new ≡ length runs.old) }
{
    *count = 0;
    match merge_burst(
        alloc,
        Link::Ethernet,
        limits_of(segs, bytes),
        frames,
        next,
        runs,
    ) {
        Ok(n) => {
            *count = n;
            OK
        }
        Err(refused) => code_of(refused),
    }
}
