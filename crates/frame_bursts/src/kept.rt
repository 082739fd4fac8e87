//! An engine that is kept between bursts, so that its memory is taken once.
ghost use Rattle.std.specs.Prelude.{◌≡◌, ◌+◌, ◌-◌, ◌<◌, ◌≤◌, ◌^◌, ◌⊎◌, [], ℕ};
ghost use Rattle.std.specs.Prelude.{IfOk, IfErr, IsTrue, length, map, take, vec_capacity};
ghost use Rattle.std.specs.List.{AllByRecursion};
ghost use Rattle.frame_runs.specs.Engine.{HasPlaces, HasReceived, DoRise, IsReady};
ghost use Rattle.frame_bursts.specs.Burst.{AreFrames, HasRoom, Merges, ComesBack, frames_of};
ghost use Rattle.frame_bursts.specs.Links.{framed, limits_on as limits_said, raw_count};
ghost use Rattle.frame_bursts.specs.Kept.{Awaits, Has, IsFor, Holds, HoldsFront, HoldsAll, Stays};
ghost use Rattle.frame_bursts.specs.Kept.{RefusesMaking, RefusesMore, RefusesFlush, RefusesBurst};

use crate::burst::Refused;
use crate::lawful::{are_frames, are_lawful};
use crate::link::Link;
use crate::linked::{limits_on, merge_linked, raw_places};
use crate::raw_frame::{RawFrame, push_frames};
use crate::told::{BurstRun, put_merged};
use frame_runs::{Engine, Frame, Lent};
use offload_model::Limits;
use std::alloc::Global;

/// An engine for at most `limit` frames between two flushes, which makes runs within limits. The frames are the
/// caller's: it has indices into their list.
#[derive(Drop)]
pub struct BurstEngine {
    pub engine: Engine,
    /// The frames that it has received of packets without an Ethernet header; none of others.
    pub raw: Vec<RawFrame>,
    /// How many frames it has received since the last flush.
    pub received: u32,
    pub limit: u32,
    /// The limits of frames: of packets without an Ethernet header 14 bytes more than these may have.
    pub limits: Limits,
    pub link: Link,
}

/// The frames of a list from a place on, by an engine that has received those in front of it.
fn receive_behind<F: Frame>(engine: &mut Engine, frames: &[F], from: usize, limits: Limits)
    requires received { HasReceived limits (map F.packet frames.now) from engine.old }
    requires places { HasPlaces engine.old (length frames.now - from) }
    requires held { AllByRecursion F.is_held frames.now }
    requires rising { DoRise (map F.packet frames.now) }
    requires few { length frames.now < 2 ^ 32 }
    requires inside { from ≤ length frames.now }
    ensures received { HasReceived limits (map F.packet frames.now) (length frames.now) engine.new }
    ensures places { (n : ℕ) → HasPlaces engine.old (length frames.now - from + n) → HasPlaces engine.new n }
    ensures linked { length engine.new.next.items ≡ length engine.old.next.items }
{
    for i in from..frames.len() {
        engine.receive(frames, i as u32, limits);
    }
}

impl BurstEngine {
    /// An engine for at most `limit` frames (0 to 65,535) between two flushes that begin as `link` says, in runs within
    /// limits (1 to 4096 frames). All memory is taken here.
    pub fn make(
        alloc: Global,
        link: Link,
        limit: u32,
        limits: Limits,
    ) -> Result<BurstEngine, Refused>
        ensures made { IfOk result (λ g. Holds [] g × IsFor link limit (limits_said link limits) g) }
        ensures refused { IfErr result (RefusesMaking limit limits) }
    {
        if limit > 65_535 || !(1..=4096).contains(&limits.segs) {
            return Err(Refused::Usage);
        }
        let Ok(engine) = Engine::make(alloc, limit) else {
            return Err(Refused::NoMemory);
        };
        let Ok(raw) = Vec::with_capacity(alloc, raw_places(link, limit as usize)) else {
            return Err(Refused::NoMemory);
        };
        Ok(BurstEngine {
            engine,
            raw,
            received: 0,
            limit,
            limits: limits_on(link, limits),
            link,
        })
    }

    /// Begins anew, for as many frames as it was made for: whether there was memory.
    fn restart(&mut self) -> bool
        ensures ready { IsTrue result → IsReady self.new.engine self.old.limit }
        ensures raw { IsTrue result → raw_count self.old.link self.old.limit ≤ vec_capacity self.new.raw }
        ensures empty { self.new.raw.items ≡ [] }
        ensures same { (self.new.received ≡ self.old.received)
            × IsFor self.old.link self.old.limit self.old.limits self.new }
    {
        self.raw.clear();
        let places = raw_places(self.link, self.limit as usize);
        self.engine.start(self.limit).is_ok() && self.raw.reserve(places).is_ok()
    }

    /// Whether it is ready for more of a list than it has received. Where it has received none, that is begun here.
    fn begin(&mut self, frames: &[Lent<'_>]) -> bool
        requires holds { Holds (take self.old.received (map (framed self.old.link) frames.now)) self.old }
        requires few { self.old.received ≤ length frames.now }
        requires room { length frames.now ≤ self.old.limit }
        ensures begun { IsTrue result → Awaits (map (framed self.old.link) frames.now) self.new }
        ensures none { IsTrue result ⊎ (self.old.received ≡ 0) }
        ensures same { (self.new.received ≡ self.old.received)
            × IsFor self.old.link self.old.limit self.old.limits self.new }
    {
        if self.received > 0 {
            return true;
        }
        self.restart()
    }

    /// The frames of a list behind those that it has received, where it is ready for them.
    fn receive_more(&mut self, frames: &[Lent<'_>])
        requires awaits { Awaits (map (framed self.old.link) frames.now) self.old }
        requires captured { AreFrames self.old.link frames.now }
        requires inside { self.old.received ≤ length frames.now }
        requires few { length frames.now ≤ self.old.limit }
        requires small { self.old.limit ≤ 65535 }
        ensures received { Has (map (framed self.old.link) frames.now) (length frames.now) self.new }
        ensures same { (self.new.received ≡ self.old.received)
            × IsFor self.old.link self.old.limit self.old.limits self.new }
    {
        let from = self.received as usize;
        match self.link {
            Link::Ethernet => receive_behind(&mut self.engine, frames, from, self.limits),
            Link::RawIp => {
                push_frames(&mut self.raw, frames, from);
                receive_behind(&mut self.engine, &self.raw, from, self.limits);
            }
        }
    }

    /// The frames of a list behind those that it has received, which stand at its front as they were. It takes no
    /// memory but where a list before was longer.
    pub fn receive(&mut self, frames: &[Lent<'_>]) -> Result<(), Refused>
        requires holds { HoldsFront frames.now self.old }
        ensures received { IfOk result (λ _. Holds (map (framed self.old.link) frames.now) self.new) }
        ensures numbers { IsFor self.old.link self.old.limit self.old.limits self.new }
        ensures refused { IfErr result (RefusesMore frames.now self.old) }
        ensures stays { IfErr result (λ _. Stays self.old self.new) }
    {
        let n = frames.len();
        let from = self.received as usize;
        if n < from || !are_frames(self.link, frames, from) {
            return Err(Refused::Usage);
        }
        if n > self.limit as usize {
            return Err(Refused::Full);
        }
        if !self.begin(frames) {
            return Err(Refused::NoMemory);
        }
        self.receive_more(frames);
        self.received = n as u32;
        Ok(())
    }

    /// Says what the frames come to that it has received: how many runs there are.
    fn tell(&self, frames: &[Lent<'_>], next: &mut [u32], runs: &mut [BurstRun]) -> usize
        requires holds { Holds (map (framed self.now.link) frames.now) self.now }
        requires some { 1 ≤ self.now.received }
        requires room { HasRoom (length frames.now) (length next.old) (length runs.old) }
        ensures merges { Merges self.now.link self.now.limits (map (framed self.now.link) frames.now) next.new
            (take result runs.new) }
        ensures back { AllByRecursion (λ r. ComesBack (frames_of (map (framed self.now.link) frames.now) next.new r))
            (take result runs.new) }
        ensures sizes { (length next.new ≡ length next.old) × (length runs.new ≡ length runs.old) }
    {
        match self.link {
            Link::Ethernet => put_merged(Link::Ethernet, &self.engine, frames, next, runs),
            Link::RawIp => put_merged(Link::RawIp, &self.engine, &self.raw, next, runs),
        }
    }

    /// What the frames come to that it has received since the last flush, and no others: how many runs there are. Then
    /// it has received none.
    pub fn flush(
        &mut self,
        frames: &[Lent<'_>],
        next: &mut [u32],
        runs: &mut [BurstRun],
    ) -> Result<usize, Refused>
        requires holds { HoldsAll frames.now self.old }
        ensures merges { IfOk result
            (λ count. Merges self.old.link self.old.limits (map (framed self.old.link) frames.now) next.new
            (take count runs.new)) }
        ensures back { IfOk result (λ count. AllByRecursion
            (λ r. ComesBack (frames_of (map (framed self.old.link) frames.now) next.new r)) (take count runs.new)) }
        ensures none { IfOk result (λ _. Holds [] self.new) }
        ensures numbers { IsFor self.old.link self.old.limit self.old.limits self.new }
        ensures refused { IfErr result (RefusesFlush frames.now self.old (length next.old) (length runs.old)) }
        ensures untouched { IfErr result
            (λ _. (self.new ≡ self.old) × ((next.new ≡ next.old) × (runs.new ≡ runs.old))) }
        ensures sizes { (length next.new ≡ length next.old) × (length runs.new ≡ length runs.old) }
    {
        let n = frames.len();
        if n != self.received as usize {
            return Err(Refused::Usage);
        }
        if next.len() < n || runs.len() < n {
            return Err(Refused::NoRoom);
        }
        if n == 0 {
            return Ok(0);
        }
        let count = self.tell(frames, next, runs);
        self.received = 0;
        Ok(count)
    }

    /// Merges a burst as [`merge_burst`](crate::merge_burst) does, by the memory of an engine that has received nothing
    /// since the last flush.
    pub fn merge(
        &mut self,
        frames: &[Lent<'_>],
        next: &mut [u32],
        runs: &mut [BurstRun],
    ) -> Result<usize, Refused>
        ensures merges { IfOk result
            (λ count. Merges self.old.link self.old.limits (map (framed self.old.link) frames.now) next.new
            (take count runs.new)) }
        ensures back { IfOk result (λ count. AllByRecursion
            (λ r. ComesBack (frames_of (map (framed self.old.link) frames.now) next.new r)) (take count runs.new)) }
        ensures refused { IfErr result (RefusesBurst frames.now self.old (length next.old) (length runs.old)) }
        ensures stays { Stays self.old self.new }
        ensures untouched { IfErr result (λ _. (next.new ≡ next.old) × (runs.new ≡ runs.old)) }
        ensures sizes { (length next.new ≡ length next.old) × (length runs.new ≡ length runs.old) }
    {
        let n = frames.len();
        if self.received > 0 || !are_lawful(self.link, self.limits, frames) {
            return Err(Refused::Usage);
        }
        if n > self.limit as usize {
            return Err(Refused::Full);
        }
        if next.len() < n || runs.len() < n {
            return Err(Refused::NoRoom);
        }
        if !self.restart() {
            return Err(Refused::NoMemory);
        }
        Ok(merge_linked(
            self.link,
            &mut self.engine,
            &mut self.raw,
            self.limits,
            frames,
            next,
            runs,
        ))
    }
}
