//! Merging over a list of packets, by index.
ghost use Rattle.std.specs.Prelude.{◌≡◌, ◌+◌, ◌<◌, ◌^◌, ◌++◌, ◌∷◌, [], Option, Some, None};
ghost use Rattle.std.specs.Prelude.{ℕ, List, true, length};
ghost use Rattle.std.specs.Prelude.{IsTrue, map, OnOk, IfOk, IfSome, slice_index_or, if◌then◌else◌};
ghost use Rattle.std.specs.List.{AllByRecursion};
ghost use Rattle.std.specs.Bool.{Decides};
ghost use Rattle.maximal_runs.specs.Items.{begins_in};
ghost use Rattle.frame_layout.specs.Key.{key_of};
ghost use Rattle.offload_model.specs.Mergeable.{IsMergeable, IsMergeableWithin};
ghost use Rattle.offload_model.specs.declared.limits.Limits.{Limits as LimitsOf};
ghost use Rattle.offload_model.specs.Rounds.{is_of, runs_within};
ghost use Rattle.merge_rule.specs.Runs.{IsJudged, IsNoCandidate, IsFirstProgress};
ghost use Rattle.pcap_io.specs.Capture.{Packet};
ghost use Rattle.frame_runs.specs.Chains.{IsHere};
ghost use Rattle.frame_runs.specs.Flows.{hash_of, place_of, AreFlows, IsOwn, Puts, HasRoom};
ghost use Rattle.frame_runs.specs.Engine.{IsAdded, IsChain, runs_of, AreRuns, HasPlaces, Grows, Takes, DoRise, IsReady};

use crate::candidacy::{Addition, is_refused, judge};
use crate::flow_hash::{flow_hash, hash_in};
use crate::flows::{Flows, Group};
use crate::frame::Frame;
use crate::run::{Run, progress_of};
use merge_rule::{Candidacy, Progress};
use offload_model::Limits;
use std::alloc::{AllocError, Global};

/// The runs of a list of packets, by index: no packet is in it.
#[derive(Drop)]
pub struct Engine {
    /// The runs in the order of their first packets.
    pub runs: Vec<Run>,
    /// For each packet the index of the one that follows it in its run.
    pub next: Vec<u32>,
    /// The open run of each flow.
    pub flows: Flows,
    /// The place in `runs` of the run that the last packet is in, where that is open.
    pub last: Option<usize>,
}

fn open_at(place: usize, is_open: bool) -> Option<usize>
    ensures place { result ≡ (if is_open then Some place else None) }
{
    if is_open { Some(place) } else { None }
}

/// The flow of a packet, whose run stands here, finds nothing any more, where that isn't open.
fn settle<F: Frame>(flows: &mut Flows, slot: &F, place: usize, is_open: bool)
    requires slot { F.is_held slot.now }
    ensures flows { (ps : List Packet) → AreFlows ps flows.old
        → IsOwn ps flows.old (key_of (F.packet slot.now).frame) place → AreFlows ps flows.new }
    ensures puts { (ps : List Packet) → AreFlows ps flows.old
        → IsOwn ps flows.old (key_of (F.packet slot.now).frame) place
        → Puts ps flows.old (key_of (F.packet slot.now).frame) (if is_open then Some place else None) flows.new }
    ensures room { (n : ℕ) → HasRoom flows.old n → HasRoom flows.new n }
{
    if is_open {
        return;
    }
    let hash = hash_in(slot);
    flows.close(slot, hash, place);
}

impl Engine {
    /// An engine without memory, which has to be started.
    pub fn new(alloc: Global) -> Engine
        ensures ready { IsReady result 0 }
    {
        Engine {
            runs: Vec::new(alloc),
            next: Vec::new(alloc),
            flows: Flows::new(alloc),
            last: None,
        }
    }

    /// An engine for lists of at most `limit` packets. All memory is taken here.
    pub fn make(alloc: Global, limit: u32) -> Result<Engine, AllocError>
        ensures ready { IfOk result (λ e. IsReady e limit) }
    {
        let flows = Flows::with_capacity(alloc, limit as usize)?;
        let runs = Vec::with_capacity(alloc, limit as usize)?;
        let next = vec![in alloc; 0; limit as usize]?;
        Ok(Engine {
            runs,
            next,
            flows,
            last: None,
        })
    }

    /// No runs any more, whatever was merged before. The memory stays.
    pub fn clear(&mut self)
        ensures ready { IsReady self.new 0 }
    {
        self.runs.clear();
        self.flows.clear();
        self.last = None;
    }

    /// The next list, of at most `limit` packets, for whatever was merged before. Where one before was for as many,
    /// that takes no memory.
    pub fn start(&mut self, limit: u32) -> Result<(), AllocError>
        ensures none { IsReady self.new 0 }
        ensures ready { OnOk result (IsReady self.new limit) }
    {
        self.clear();
        let n = limit as usize;
        self.runs.reserve(n)?;
        self.flows.reserve(n)?;
        if self.next.len() < n {
            self.next.resize(n, 0)?;
        }
        Ok(())
    }

    /// The run at a place takes packet i: the index of its last one leads to it. Whether one more may follow.
    fn link<F: Frame>(
        &mut self,
        packets: &[F],
        i: u32,
        slot: &F,
        place: usize,
        addition: &Addition,
    ) -> bool
        requires runs { AreRuns (map F.packet packets.now) i self.old }
        requires slots { AllByRecursion F.is_held packets.now }
        requires here { IsHere F.packet packets.now i slot.now }
        requires slot { F.is_held slot.now }
        requires added { IsAdded (F.packet slot.now).frame (F.packet slot.now).original addition.now.payload
            addition.now.flags }
        requires inside { place < length self.old.runs.items }
        requires mergeable { IsMergeable (slice_index_or (runs_of (map F.packet packets.now) self.old) place []
            ++ (F.packet slot.now ∷ [])) }
        ensures grows { Grows (map F.packet packets.now) i place result self.old self.new }
    {
        let run = &mut self.runs[place];
        let before = run.last;
        run.add(&packets[run.first as usize], i, slot, addition);
        let is_open = run.progress.is_open;
        self.next[before as usize] = i;
        is_open
    }

    /// A packet of a flow of which no run is found: it opens one. What that has come to is told, since a candidacy that
    /// is looked at here would be copied once more.
    fn begin<F: Frame>(
        &mut self,
        packets: &[F],
        i: u32,
        slot: &F,
        hash: u32,
        candidacy: Candidacy,
        progress: Progress,
    )
        requires runs { AreRuns (map F.packet packets.now) i self.old }
        requires places { HasPlaces self.old 1 }
        requires here { IsHere F.packet packets.now i slot.now }
        requires slot { F.is_held slot.now }
        requires judged { IsJudged (F.packet slot.now).frame (F.packet slot.now).original candidacy.layout
            candidacy.payload candidacy.flags }
        requires progress { IsFirstProgress candidacy.layout (F.packet slot.now).frame progress }
        requires hash { hash ≡ hash_of (key_of (F.packet slot.now).frame) }
        requires none { place_of (map F.packet packets.now) self.old.flows (key_of (F.packet slot.now).frame)
            ≡ None }
        ensures takes { (limits : LimitsOf) → Takes limits (map F.packet packets.now) i self.old self.new }
    {
        let place = self.runs.len();
        let is_open = progress.is_open;
        let group = Group {
            packet: i,
            hash,
            run: place,
        };
        self.flows.begin(slot, group, is_open);
        self.last = open_at(place, is_open);
        self.runs.push_reserved(Run::open(i, candidacy, progress));
    }

    /// A packet that its flow's run at `found` doesn't take: it opens the next one.
    fn follow<F: Frame>(
        &mut self,
        packets: &[F],
        i: u32,
        slot: &F,
        hash: u32,
        found: usize,
        candidacy: Candidacy,
        progress: Progress,
    )
        requires runs { AreRuns (map F.packet packets.now) i self.old }
        requires places { HasPlaces self.old 1 }
        requires here { IsHere F.packet packets.now i slot.now }
        requires slot { F.is_held slot.now }
        requires judged { IsJudged (F.packet slot.now).frame (F.packet slot.now).original candidacy.layout
            candidacy.payload candidacy.flags }
        requires progress { IsFirstProgress candidacy.layout (F.packet slot.now).frame progress }
        requires hash { hash ≡ hash_of (key_of (F.packet slot.now).frame) }
        requires place { place_of (map F.packet packets.now) self.old.flows (key_of (F.packet slot.now).frame)
            ≡ Some found }
        ensures takes { (limits : LimitsOf) → (IsMergeableWithin limits
            (slice_index_or (runs_of (map F.packet packets.now) self.old) found []
            ++ (F.packet slot.now ∷ [])) → ⊥)
            → Takes limits (map F.packet packets.now) i self.old self.new }
    {
        let is_open = progress.is_open;
        let place = self.runs.len();
        let group = Group {
            packet: i,
            hash,
            run: place,
        };
        self.flows.follow(slot, found, group, is_open);
        self.last = open_at(place, is_open);
        self.runs.push_reserved(Run::open(i, candidacy, progress));
    }

    /// A packet that may not be merged, of a flow of which no run is found: it opens a run, which no other joins.
    fn stand_alone<F: Frame>(&mut self, packets: &[F], i: u32, slot: &F)
        requires runs { AreRuns (map F.packet packets.now) i self.old }
        requires places { HasPlaces self.old 1 }
        requires here { IsHere F.packet packets.now i slot.now }
        requires alone { IsNoCandidate (F.packet slot.now).frame (F.packet slot.now).original }
        requires none { place_of (map F.packet packets.now) self.old.flows (key_of (F.packet slot.now).frame)
            ≡ None }
        ensures takes { (limits : LimitsOf) → Takes limits (map F.packet packets.now) i self.old self.new }
    {
        self.last = None;
        self.runs.push_reserved(Run::alone(i));
    }

    /// A packet that its flow's run at `found` takes.
    fn grow<F: Frame>(
        &mut self,
        packets: &[F],
        i: u32,
        slot: &F,
        hash: u32,
        found: usize,
        candidacy: &Candidacy,
    )
        requires runs { AreRuns (map F.packet packets.now) i self.old }
        requires places { HasPlaces self.old 1 }
        requires slots { AllByRecursion F.is_held packets.now }
        requires here { IsHere F.packet packets.now i slot.now }
        requires slot { F.is_held slot.now }
        requires judged { IsJudged (F.packet slot.now).frame (F.packet slot.now).original candidacy.now.layout
            candidacy.now.payload candidacy.now.flags }
        requires hash { hash ≡ hash_of (key_of (F.packet slot.now).frame) }
        requires place { place_of (map F.packet packets.now) self.old.flows (key_of (F.packet slot.now).frame)
            ≡ Some found }
        requires mergeable { IsMergeable (slice_index_or (runs_of (map F.packet packets.now) self.old) found []
            ++ (F.packet slot.now ∷ [])) }
        ensures takes { (limits : LimitsOf) → IsMergeableWithin limits
            (slice_index_or (runs_of (map F.packet packets.now) self.old) found []
            ++ (F.packet slot.now ∷ []))
            → Takes limits (map F.packet packets.now) i self.old self.new }
    {
        let addition = Addition {
            payload: candidacy.payload,
            flags: candidacy.flags,
        };
        let is_open = self.link(packets, i, slot, found, &addition);
        self.flows.keep(slot, hash, found, is_open);
        self.last = open_at(found, is_open);
    }

    /// A packet that the last packet's run takes. Its key isn't asked for, but where the run ends with it.
    fn extend<F: Frame>(
        &mut self,
        packets: &[F],
        i: u32,
        slot: &F,
        place: usize,
        addition: &Addition,
    )
        requires runs { AreRuns (map F.packet packets.now) i self.old }
        requires places { HasPlaces self.old 1 }
        requires slots { AllByRecursion F.is_held packets.now }
        requires here { IsHere F.packet packets.now i slot.now }
        requires slot { F.is_held slot.now }
        requires added { IsAdded (F.packet slot.now).frame (F.packet slot.now).original addition.now.payload
            addition.now.flags }
        requires inside { place < length self.old.runs.items }
        requires found { place_of (map F.packet packets.now) self.old.flows (key_of (F.packet slot.now).frame)
            ≡ Some place }
        requires mergeable { IsMergeable (slice_index_or (runs_of (map F.packet packets.now) self.old) place []
            ++ (F.packet slot.now ∷ [])) }
        ensures takes { (limits : LimitsOf) → IsMergeableWithin limits
            (slice_index_or (runs_of (map F.packet packets.now) self.old) place [] ++ (F.packet slot.now ∷ []))
            → Takes limits (map F.packet packets.now) i self.old self.new }
    {
        let is_open = self.link(packets, i, slot, place, addition);
        settle(&mut self.flows, slot, place, is_open);
        self.last = open_at(place, is_open);
    }

    /// Whether the run at a place takes a packet. If so, that is of the run's flow.
    fn takes_at<F: Frame>(
        &self,
        packets: &[F],
        place: usize,
        slot: &F,
        candidacy: &Candidacy,
        limits: Limits,
    ) -> bool
        requires each { AllByRecursion (IsChain (map F.packet packets.now) self.now.next.items) self.now.runs.items }
        requires slots { AllByRecursion F.is_held packets.now }
        requires inside { place < length self.now.runs.items }
        requires slot { F.is_held slot.now }
        requires judged { IsJudged (F.packet slot.now).frame (F.packet slot.now).original candidacy.now.layout
            candidacy.now.payload candidacy.now.flags }
        ensures takes { Decides result (IsMergeableWithin limits
            (slice_index_or (runs_of (map F.packet packets.now) self.now) place [] ++ (F.packet slot.now ∷ []))) }
        ensures flow { IsTrue result → begins_in (is_of (key_of (F.packet slot.now).frame))
            (slice_index_or (runs_of (map F.packet packets.now) self.now) place []) ≡ true }
    {
        let run = &self.runs[place];
        run.takes_within(&packets[run.first as usize], slot, candidacy, limits)
    }

    /// What a packet adds to the run at a place, where that run takes it. If so, that is of the run's flow.
    fn addition_at<F: Frame>(
        &self,
        packets: &[F],
        place: usize,
        slot: &F,
        limits: Limits,
    ) -> Option<Addition>
        requires each { AllByRecursion (IsChain (map F.packet packets.now) self.now.next.items) self.now.runs.items }
        requires slots { AllByRecursion F.is_held packets.now }
        requires inside { place < length self.now.runs.items }
        requires slot { F.is_held slot.now }
        ensures takes { IfSome result (λ a. IsMergeableWithin limits
            (slice_index_or (runs_of (map F.packet packets.now) self.now) place [] ++ (F.packet slot.now ∷ []))) }
        ensures added { IfSome result (λ a.
            IsAdded (F.packet slot.now).frame (F.packet slot.now).original a.payload a.flags) }
        ensures flow { IfSome result (λ a. begins_in (is_of (key_of (F.packet slot.now).frame))
            (slice_index_or (runs_of (map F.packet packets.now) self.now) place []) ≡ true) }
    {
        let run = &self.runs[place];
        run.addition_within(&packets[run.first as usize], slot, limits)
    }

    /// Whether a packet can neither be merged nor end a run, whatever its flow is.
    fn is_apart(&self, candidacy: &Candidacy) -> bool
        ensures layout { IsTrue result → candidacy.now.layout ≡ None }
        ensures none { IsTrue result → (ps : List Packet) (q : Option (List ℕ))
            → place_of ps self.now.flows q ≡ None }
    {
        candidacy.layout.is_none() && self.flows.is_empty()
    }

    /// A packet that the last packet's run doesn't take: its flow's run takes it, or it opens one.
    fn place<F: Frame>(
        &mut self,
        packets: &[F],
        i: u32,
        slot: &F,
        candidacy: Candidacy,
        limits: Limits,
    )
        requires runs { AreRuns (map F.packet packets.now) i self.old }
        requires places { HasPlaces self.old 1 }
        requires slots { AllByRecursion F.is_held packets.now }
        requires here { IsHere F.packet packets.now i slot.now }
        requires slot { F.is_held slot.now }
        requires judged { IsJudged (F.packet slot.now).frame (F.packet slot.now).original candidacy.layout
            candidacy.payload candidacy.flags }
        ensures takes { Takes limits (map F.packet packets.now) i self.old self.new }
    {
        let hash = flow_hash(slot, &candidacy);
        let Some(found) = self.flows.find(packets, slot, &candidacy, hash) else {
            let progress = progress_of(slot, &candidacy);
            return self.begin(packets, i, slot, hash, candidacy, progress);
        };
        if self.takes_at(packets, found, slot, &candidacy, limits) {
            return self.grow(packets, i, slot, hash, found, &candidacy);
        }
        let progress = progress_of(slot, &candidacy);
        self.follow(packets, i, slot, hash, found, candidacy, progress);
    }

    /// A packet that the last packet's run isn't seen to take.
    fn receive_apart<F: Frame>(&mut self, packets: &[F], i: u32, slot: &F, limits: Limits)
        requires runs { AreRuns (map F.packet packets.now) i self.old }
        requires places { HasPlaces self.old 1 }
        requires slots { AllByRecursion F.is_held packets.now }
        requires here { IsHere F.packet packets.now i slot.now }
        requires slot { F.is_held slot.now }
        ensures takes { Takes limits (map F.packet packets.now) i self.old self.new }
    {
        if self.flows.is_empty() && is_refused(slot) {
            return self.stand_alone(packets, i, slot);
        }
        let candidacy = judge(slot);
        if self.is_apart(&candidacy) {
            return self.stand_alone(packets, i, slot);
        }
        self.place(packets, i, slot, candidacy, limits);
    }

    /// Packet i of a list of which the first i were received, in runs within limits: the last run of its flow takes
    /// it, or it opens the next one. It takes no memory and can't fail.
    pub fn receive<F: Frame>(&mut self, packets: &[F], i: u32, limits: Limits)
        requires runs { AreRuns (map F.packet packets.now) i self.old }
        requires places { HasPlaces self.old 1 }
        requires slots { AllByRecursion F.is_held packets.now }
        requires inside { i < length packets.now }
        ensures takes { Takes limits (map F.packet packets.now) i self.old self.new }
    {
        let slot = &packets[i as usize];
        if let Some(place) = self.last {
            if let Some(addition) = self.addition_at(packets, place, slot, limits) {
                return self.extend(packets, i, slot, place, &addition);
            }
        }
        self.receive_apart(packets, i, slot, limits);
    }

    /// All packets of a list, whose numbers rise, in runs within limits, by an engine that has no runs yet. It
    /// takes no memory and can't fail.
    pub fn merge<F: Frame>(&mut self, packets: &[F], limits: Limits)
        requires ready { IsReady self.old (length packets.now) }
        requires slots { AllByRecursion F.is_held packets.now }
        requires rising { DoRise (map F.packet packets.now) }
        requires few { length packets.now < 2 ^ 32 }
        ensures runs { runs_of (map F.packet packets.now) self.new ≡ runs_within limits (map F.packet packets.now) }
        ensures are { AreRuns (map F.packet packets.now) (length packets.now) self.new }
    {
        for i in 0..packets.len() {
            self.receive(packets, i as u32, limits);
        }
    }
}
