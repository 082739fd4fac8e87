//! Bursts of packets that begin as C says.
ghost use Rattle.std.specs.Prelude.{◌≡◌, ◌↔◌, ◌⊎◌, length, map, take};
ghost use Rattle.std.specs.List.{AllByRecursion};
ghost use Rattle.frame_bursts.specs.Burst.{AreLawful, HasRoom, Merges, ComesBack, frames_of};
ghost use Rattle.frame_bursts.specs.Links.{framed, limits_on};
ghost use Rattle.burst_c.specs.Bounds.{limits_for};
ghost use Rattle.burst_c.specs.LinkNumbers.{link_of as link_said, IsLink};

use crate::codes::{OK, USAGE, code_of};
use crate::limits::limits_of;
use crate::links::{is_link, link_of};
use frame_bursts::{BurstRun, merge_burst};
use frame_runs::Lent;
use std::alloc::Global;

/// Merges packets that begin as `link` says, as [`offload_gro_burst`] does: 1 of Ethernet frames, and 101 where they
/// begin with IP, as those of a TUN device. These are merged as if each had an Ethernet header in front, and nothing
/// that is told has that: headers begin with IP, and places and lengths, that of `bytes` too, count from there.
///
/// 0, 7, 9 as there; 2 also for another link.
///
/// [`offload_gro_burst`]: crate::offload_gro_burst
#[unsafe(no_mangle)]
pub extern "C" fn offload_gro_burst_link(
    alloc: Global,
    link: u32,
    segs: u32,
    bytes: u32,
    frames: &[Lent<'_>],
    next: &mut [u32],
    runs: &mut [BurstRun],
    count: &mut usize,
) -> u32
    ensures merges { result ≡ 0 → Merges (link_said link) (limits_on (link_said link) (limits_for segs bytes))
        (map (framed (link_said link)) frames.now) next.new (take count.new runs.new) }
    ensures back { result ≡ 0 → AllByRecursion
        (λ r. ComesBack (frames_of (map (framed (link_said link)) frames.now) next.new r)) (take count.new runs.new) }
    ensures usage { (result ≡ 2)
        ↔ (IsLink link × AreLawful (link_said link) (limits_for segs bytes) frames.now → ⊥) }
    ensures room { (result ≡ 9) ↔ (IsLink link × AreLawful (link_said link) (limits_for segs bytes) frames.now
        × (HasRoom (length frames.now) (length next.old) (length runs.old) → ⊥)) }
    ensures codes { (result ≡ 0) ⊎ ((result ≡ 2) ⊎ ((result ≡ 7) ⊎ (result ≡ 9))) }
    ensures untouched { (result ≡ 2) ⊎ ((result ≡ 7) ⊎ (result ≡ 9))
        → (next.new ≡ next.old) × ((runs.new ≡ runs.old) × (count.new ≡ 0)) }
    ensures sizes { (length next.new ≡ length next.old) × (length runs.new ≡ length runs.old) }
{
    *count = 0;
    if !is_link(link) {
        return USAGE;
    }
    match merge_burst(
        alloc,
        link_of(link),
        limits_of(segs, bytes),
        frames,
        next,
        runs,
    ) {
        Ok(n) => {
            *count = n;
            OK
        }
        Err(refused) => code_of(refused),
    }
}
