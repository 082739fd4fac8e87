//! Frames merged by what they begin with.
ghost use Rattle.std.specs.Prelude.{◌≡◌, ◌+◌, ◌^◌, ◌<◌, ◌≤◌, [], length, map, take, vec_len, vec_capacity};
ghost use Rattle.std.specs.List.{AllByRecursion};
ghost use Rattle.frame_runs.specs.Engine.{IsReady};
ghost use Rattle.frame_bursts.specs.Burst.{AreFrames, ComesBack, HasRoom, Merges, frames_of};
ghost use Rattle.frame_bursts.specs.Links.{framed, limits_on as limits_said, raw_count};

use crate::link::Link;
use crate::raw_frame::{RawFrame, push_frames};
use crate::told::{BurstRun, merge_frames};
use frame_runs::{Engine, Lent};
use offload_model::Limits;

/// How many of `n` packets have a frame of their own, which has the Ethernet header that they lack.
pub(crate) fn raw_places(link: Link, n: usize) -> usize
    ensures places { result ≡ raw_count link n }
{
    match link {
        Link::Ethernet => 0,
        Link::RawIp => n,
    }
}

/// The limits of frames, of those of packets that begin so.
pub(crate) fn limits_on(link: Link, limits: Limits) -> Limits
    ensures limits { result ≡ limits_said link limits }
{
    match link {
        Link::Ethernet => limits,
        Link::RawIp => Limits {
            segs: limits.segs,
            bytes: limits.bytes.saturating_add(14),
        },
    }
}

/// Merges packets that begin so, by an engine that has no runs, and says what they come to: how many runs there are.
pub(crate) fn merge_linked(
    link: Link,
    engine: &mut Engine,
    raw: &mut Vec<RawFrame>,
    limits: Limits,
    frames: &[Lent<'_>],
    next: &mut [u32],
    runs: &mut [BurstRun],
) -> usize
    requires ready { IsReady engine.old (length frames.now) }
    requires empty { raw.old.items ≡ [] }
    requires places { raw_count link (length frames.now) ≤ vec_capacity raw.old }
    requires captured { AreFrames link frames.now }
    requires few { length frames.now < 2 ^ 32 }
    requires room { HasRoom (length frames.now) (length next.old) (length runs.old) }
    ensures merges { Merges link limits (map (framed link) frames.now) next.new (take result runs.new) }
    ensures back { AllByRecursion (λ r. ComesBack (frames_of (map (framed link) frames.now) next.new r))
        (take result runs.new) }
    ensures sizes { (length next.new ≡ length next.old) × (length runs.new ≡ length runs.old) }
{
    match link {
        Link::Ethernet => merge_frames(Link::Ethernet, engine, limits, frames, next, runs),
        Link::RawIp => {
            push_frames(raw, frames, 0);
            merge_frames(Link::RawIp, engine, limits, raw, next, runs)
        }
    }
}
