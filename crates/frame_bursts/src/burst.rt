//! A burst of frames, merged where they lie.
ghost use Rattle.std.specs.Prelude.{◌≡◌, ◌≤◌, ℕ, IfOk, IfErr, length, map, take};
ghost use Rattle.std.specs.List.{AllByRecursion};
ghost use Rattle.frame_bursts.specs.Burst.{AreLawful, HasRoom, Merges, ComesBack, Refuses, frames_of};
ghost use Rattle.frame_bursts.specs.Links.{framed, limits_on as limits_said};

use crate::lawful::are_lawful;
use crate::link::Link;
use crate::linked::{limits_on, merge_linked, raw_places};
use crate::told::BurstRun;
use frame_runs::{Engine, Lent};
use offload_model::Limits;
use std::alloc::Global;

/// Why a burst isn't merged.
#[derive(Clone, Copy)]
pub enum Refused {
    /// A number or a frame isn't as it has to be.
    Usage,
    /// There are more frames than an engine was made for.
    Full,
    /// There was no memory.
    NoMemory,
    /// `next` or `runs` is shorter than the list of frames.
    NoRoom,
}

/// Merges frames where they lie, into runs within limits (1 to 4096 frames), and answers how many runs there are.
/// They begin as `link` says, and so does what is told: a bound on bytes is one on these.
///
/// `next` and `runs` have room for as many entries as there are frames, at most 65,535. Each frame has at most 262,144
/// bytes with an Ethernet header, an original length below 2^31 with that, and a number above that of the frame before
/// it.
pub fn merge_burst(
    alloc: Global,
    link: Link,
    limits: Limits,
    frames: &[Lent<'_>],
    next: &mut [u32],
    runs: &mut [BurstRun],
) -> Result<usize, Refused>
    ensures merges { IfOk result
        (λ count. Merges link (limits_said link limits) (map (framed link) frames.now) next.new (take count runs.new)) }
    ensures back { IfOk result (λ count. AllByRecursion
        (λ r. ComesBack (frames_of (map (framed link) frames.now) next.new r)) (take count runs.new)) }
    ensures lawful { IfOk result (λ count. AreLawful link limits frames.now
        × HasRoom (length frames.now) (length next.old) (length runs.old)) }
    ensures refused { IfErr result (Refuses link limits frames.now (length next.old) (length runs.old)) }
    ensures untouched { IfErr result (λ _. (next.new ≡ next.old) × (runs.new ≡ runs.old)) }
    ensures sizes { (length next.new ≡ length next.old) × (length runs.new ≡ length runs.old) }
{
    if !are_lawful(link, limits, frames) {
        return Err(Refused::Usage);
    }
    let n = frames.len();
    if next.len() < n || runs.len() < n {
        return Err(Refused::NoRoom);
    }
    let Ok(mut engine) = Engine::make(alloc, n as u32) else {
        return Err(Refused::NoMemory);
    };
    let Ok(mut raw) = Vec::with_capacity(alloc, raw_places(link, n)) else {
        return Err(Refused::NoMemory);
    };
    Ok(merge_linked(
        link,
        &mut engine,
        &mut raw,
        limits_on(link, limits),
        frames,
        next,
        runs,
    ))
}
