//! Engines that C keeps between calls.
ghost use Rattle.std.specs.Prelude.{◌≡◌, ◌≢◌, ◌⊎◌, [], true, false, Some, None, Option, IfSome};
ghost use Rattle.std.specs.Prelude.{length, map, take};
ghost use Rattle.std.specs.List.{AllByRecursion};
ghost use Rattle.frame_bursts.specs.Burst.{ComesBack, Merges, frames_of};
ghost use Rattle.frame_bursts.specs.Kept.{Holds, HoldsAll, HoldsFront, IsFor};
ghost use Rattle.frame_bursts.specs.Kept.{RefusesBurst, RefusesFlush, RefusesMaking, RefusesMore};
ghost use Rattle.frame_bursts.specs.Links.{framed, limits_on};
ghost use Rattle.frame_bursts.specs.declared.link.Link.TheVariants.{Ethernet};
ghost use Rattle.burst_c.specs.Bounds.{limits_for};
ghost use Rattle.burst_c.specs.LinkNumbers.{link_of as link_said, IsLink};
ghost use Rattle.burst_c.specs.Made.{is_made, Answers, AllStays, FromTo, HasEngine, HaveSameNumbers, RefusesBy};

use crate::codes::{NO_MEMORY, OK, USAGE, code_of};
use crate::handle::Handle;
use crate::limits::limits_of;
use crate::links::{is_link, link_of};
use core::mem::replace_with;
use frame_bursts::{BurstEngine, BurstRun, Link};
use frame_runs::Lent;
use offload_model::Limits;
use on_heap::OnHeap;
use std::alloc::Global;

/// An engine, or none: what C has filled with zeros.
#[repr(C)]
#[derive(Drop)]
pub struct Kept {
    pub engine: Handle,
    pub made: bool,
    ghost same: { made ≡ is_made engine.value },
}

/// The engine out of its place.
fn taken(kept: Kept, alloc: Global) -> (Kept, Box<BurstEngine, Global>)
    requires made { kept.made ≡ true }
    ensures same { kept.engine.value ≡ Some result.1.value }
    ensures none { result.0.engine.value ≡ None }
{
    let Kept { engine, made: _ } = kept;
    let own = engine.unseal().into_box(alloc);
    let none = Kept {
        engine: Handle::none(),
        made: false,
    };
    (none, own)
}

/// An engine into its place, where there is none.
fn put(kept: Kept, own: Box<BurstEngine, Global>) -> (Kept, ())
    ensures same { result.0.engine.value ≡ Some own.value }
{
    let _ = kept;
    let engine = Handle::seal(OnHeap::of(own));
    (Kept { engine, made: true }, ())
}

/// An engine where there is none yet.
fn make_engine(alloc: Global, gro: &mut Kept, link: Link, frames: u32, limits: Limits) -> u32
    ensures made { result ≡ 0
        → HasEngine (λ g. Holds [] g × IsFor link frames (limits_on link limits) g) gro.new.engine.value }
    ensures refused { gro.old.engine.value ≡ None → Answers (RefusesMaking frames limits) result }
    ensures alone { (result ≡ 0) → gro.old.engine.value ≡ None }
    ensures untouched { (result ≡ 0) ⊎ (gro.new.engine.value ≡ gro.old.engine.value) }
{
    if gro.made {
        return USAGE;
    }
    match BurstEngine::make(alloc, link, frames, limits) {
        Ok(engine) => {
            let Ok(own) = Box::new(alloc, engine) else {
                return NO_MEMORY;
            };
            replace_with(gro, own, put);
            OK
        }
        Err(refused) => code_of(refused),
    }
}

/// An engine for at most `frames` (0 to 65,535) between two flushes, in runs of at most `segs` (1 to 4096) whose merged
/// frame has at most `bytes`, 0 being no bound, where there is none yet. All memory that it takes it takes here.
///
/// 0; 2: a number isn't as it has to be, or there is one already; 7: there was no memory. But for 0 all is as it was.
#[unsafe(no_mangle)]
pub extern "C" fn offload_gro_new(
    alloc: Global,
    gro: &mut Kept,
    frames: u32,
    segs: u32,
    bytes: u32,
) -> u32
    ensures made { result ≡ 0
        → HasEngine (λ g. Holds [] g × IsFor Ethernet frames (limits_for segs bytes) g) gro.new.engine.value }
    ensures refused { gro.old.engine.value ≡ None → Answers (RefusesMaking frames (limits_for segs bytes)) result }
    ensures alone { (result ≡ 0) → gro.old.engine.value ≡ None }
    ensures untouched { (result ≡ 0) ⊎ (gro.new.engine.value ≡ gro.old.engine.value) }
{
    make_engine(alloc, gro, Link::Ethernet, frames, limits_of(segs, bytes))
}

/// The same for packets that begin as `link` says, as for [`offload_gro_burst_link`].
///
/// 0, 7 as there; 2 also for another link.
///
/// [`offload_gro_burst_link`]: crate::offload_gro_burst_link
#[unsafe(no_mangle)]
pub extern "C" fn offload_gro_new_link(
    alloc: Global,
    gro: &mut Kept,
    link: u32,
    frames: u32,
    segs: u32,
    bytes: u32,
) -> u32
    ensures made { result ≡ 0 → HasEngine (λ g. Holds [] g
        × IsFor (link_said link) frames (limits_on (link_said link) (limits_for segs bytes)) g) gro.new.engine.value }
    ensures refused { gro.old.engine.value ≡ None → IsLink link
        → Answers (RefusesMaking frames (limits_for segs bytes)) result }
    ensures usage { (IsLink link → ⊥) → result ≡ 2 }
    ensures alone { (result ≡ 0) → gro.old.engine.value ≡ None }
    ensures untouched { (result ≡ 0) ⊎ (gro.new.engine.value ≡ gro.old.engine.value) }
{
    if !is_link(link) {
        return USAGE;
    }
    make_engine(alloc, gro, link_of(link), frames, limits_of(segs, bytes))
}

/// The frames of a list behind those that an engine has received since its last flush, which stand at the front of the
/// list as they were.
///
/// 0; 2: there is no engine, the list is shorter than what was received, or a frame behind isn't as it has to be; 4:
/// these are more than the engine was made for; 7: there was no memory. But for 0 the engine has what it had.
#[unsafe(no_mangle)]
pub extern "C" fn offload_gro_receive(alloc: Global, gro: &mut Kept, frames: &[Lent<'_>]) -> u32
    requires holds { IfSome gro.old.engine.value (HoldsFront frames.now) }
    ensures received { result ≡ 0 → FromTo (λ g h. Holds (map (framed g.link) frames.now) h)
        gro.old.engine.value gro.new.engine.value }
    ensures numbers { HaveSameNumbers gro.old.engine.value gro.new.engine.value }
    ensures refused { Answers (RefusesBy (RefusesMore frames.now) gro.old.engine.value) result }
    ensures stays { (result ≡ 0) ⊎ AllStays gro.old.engine.value gro.new.engine.value }
{
    if !gro.made {
        return USAGE;
    }
    let mut own = replace_with(gro, alloc, taken);
    let done = own.receive(frames);
    replace_with(gro, own, put);
    match done {
        Ok(()) => OK,
        Err(refused) => code_of(refused),
    }
}

/// What the frames come to that an engine has received since its last flush, as [`offload_gro_burst`] says it. Then it
/// has received none.
///
/// 0; 2: there is no engine, or these are more or fewer frames than it has received; 9: `next` or `runs` is shorter
/// than the list of frames. But for 0 nothing was written but `count`, which is 0, and the engine has what it had.
///
/// [`offload_gro_burst`]: crate::offload_gro_burst
#[unsafe(no_mangle)]
pub extern "C" fn offload_gro_flush(
    alloc: Global,
    gro: &mut Kept,
    frames: &[Lent<'_>],
    next: &mut [u32],
    runs: &mut [BurstRun],
    count: &mut usize,
) -> u32
    requires holds { IfSome gro.old.engine.value (HoldsAll frames.now) }
    ensures merges { result ≡ 0 → HasEngine (λ g. Merges g.link g.limits (map (framed g.link) frames.now) next.new
        (take count.new runs.new)) gro.old.engine.value }
    ensures back { result ≡ 0 → HasEngine (λ g. AllByRecursion
        (λ r. ComesBack (frames_of (map (framed g.link) frames.now) next.new r)) (take count.new runs.new))
        gro.old.engine.value }
    ensures none { result ≡ 0 → HasEngine (Holds []) gro.new.engine.value }
    ensures numbers { HaveSameNumbers gro.old.engine.value gro.new.engine.value }
    ensures refused { Answers (RefusesBy (λ g. RefusesFlush frames.now g (length next.old) (length runs.old))
        gro.old.engine.value) result }
    ensures untouched { (result ≡ 0) ⊎ ((gro.new.engine.value ≡ gro.old.engine.value)
        × ((next.new ≡ next.old) × ((runs.new ≡ runs.old) × (count.new ≡ 0)))) }
    ensures sizes { (length next.new ≡ length next.old) × (length runs.new ≡ length runs.old) }
{
    *count = 0;
    if !gro.made {
        return USAGE;
    }
    let mut own = replace_with(gro, alloc, taken);
    let done = own.flush(frames, next, runs);
    replace_with(gro, own, put);
    match done {
        Ok(n) => {
            *count = n;
            OK
        }
        Err(refused) => code_of(refused),
    }
}

/// Merges frames where they lie as [`offload_gro_burst`] does, by the memory of an engine that has received nothing
/// since its last flush, in runs as it was made for.
///
/// 0, 7, 9 as there; 2 also where there is no engine, or it has received frames; 4: these are more than it was made
/// for.
///
/// [`offload_gro_burst`]: crate::offload_gro_burst
#[unsafe(no_mangle)]
pub extern "C" fn offload_gro_merge(
    alloc: Global,
    gro: &mut Kept,
    frames: &[Lent<'_>],
    next: &mut [u32],
    runs: &mut [BurstRun],
    count: &mut usize,
) -> u32
    ensures merges { result ≡ 0 → HasEngine (λ g. Merges g.link g.limits (map (framed g.link) frames.now) next.new
        (take count.new runs.new)) gro.old.engine.value }
    ensures back { result ≡ 0 → HasEngine (λ g. AllByRecursion
        (λ r. ComesBack (frames_of (map (framed g.link) frames.now) next.new r)) (take count.new runs.new))
        gro.old.engine.value }
    ensures refused { Answers (RefusesBy (λ g. RefusesBurst frames.now g (length next.old) (length runs.old))
        gro.old.engine.value) result }
    ensures stays { AllStays gro.old.engine.value gro.new.engine.value }
    ensures untouched { (result ≡ 0) ⊎ ((next.new ≡ next.old) × ((runs.new ≡ runs.old) × (count.new ≡ 0))) }
    ensures sizes { (length next.new ≡ length next.old) × (length runs.new ≡ length runs.old) }
{
    *count = 0;
    if !gro.made {
        return USAGE;
    }
    let mut own = replace_with(gro, alloc, taken);
    let done = own.merge(frames, next, runs);
    replace_with(gro, own, put);
    match done {
        Ok(n) => {
            *count = n;
            OK
        }
        Err(refused) => code_of(refused),
    }
}

/// Ends an engine, whatever it has received. Where there is none, nothing is done.
#[unsafe(no_mangle)]
pub extern "C" fn offload_gro_free(alloc: Global, gro: &mut Kept)
    ensures none { gro.new.engine.value ≡ None }
{
    if gro.made {
        let _ = replace_with(gro, alloc, taken);
    }
}
