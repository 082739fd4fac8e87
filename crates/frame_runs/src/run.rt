//! A run of packets, by index.
ghost use Rattle.std.specs.Prelude.{◌≡◌, ◌+◌, ◌++◌, ◌∷◌, [], List, Some, IsTrue, IfSome};
ghost use Rattle.std.specs.Bool.{Decides};
ghost use Rattle.frame_layout.specs.Key.{key_of};
ghost use Rattle.pcap_io.specs.Capture.{Packet};
ghost use Rattle.offload_model.specs.Mergeable.{IsMergeable, AreWithin, IsMergeableWithin};
ghost use Rattle.merge_rule.specs.Next.{IsNext};
ghost use Rattle.merge_rule.specs.Runs.{IsJudged, IsNoCandidate, IsFirstProgress, IsNextProgress};
ghost use Rattle.frame_runs.specs.Engine.{Knows, KnowsSome, TakesOne, IsAdded};

use crate::candidacy::{Addition, judge_as};
use crate::frame::Frame;
use frame_layout::Layout;
use inet_sum::Partial;
use merge_rule::{Candidacy, Progress, first_progress, is_next, next_progress};
use net_bytes::be32;
use offload_model::Limits;
use pcap_io::FRAME_LIMIT;

/// A run of packets of one layout. A packet that may not be merged is alone in its run.
#[derive(Drop)]
pub struct Run {
    /// The index of its first packet.
    pub first: u32,
    /// The index of its last packet.
    pub last: u32,
    /// How many packets follow the first.
    pub more: u32,
    /// The headers of its packets; none where the packet may not be merged.
    pub layout: Option<Layout>,
    /// The sum of all payloads.
    pub payload: Partial,
    /// The last packet's control bits.
    pub flags: u8,
    /// What the run has come to, as the rule for the next packet wants it.
    pub progress: Progress,
}

/// What a run of one packet has come to.
pub(crate) fn progress_of<F: Frame>(first: &F, candidacy: &Candidacy) -> Progress
    requires judged { IsJudged (F.packet first.now).frame (F.packet first.now).original candidacy.now.layout
        candidacy.now.payload candidacy.now.flags }
    requires slot { F.is_held first.now }
    ensures progress { IsFirstProgress candidacy.now.layout (F.packet first.now).frame result }
{
    let len = first.len();
    match &candidacy.layout {
        Some(layout) => first_progress(layout, first.head(), len),
        None => Progress {
            is_open: false,
            total: 0,
            modes: 0,
        },
    }
}

/// Whether two packets differ where most headers have the ports. Packets of many flows mostly do, so that less is asked
/// of them than by a call of the rule.
#[inline(always)]
fn is_elsewhere<F: Frame>(first: &F, next: &F) -> bool
    requires first { F.is_held first.now }
    requires next { F.is_held next.now }
{
    let own = first.head();
    let other = next.head();
    own.len() >= 38 && other.len() >= 38 && be32(own, 34) != be32(other, 34)
}

impl Run {
    /// The run of one packet, that of this index, which has come to `progress`.
    pub(crate) fn open(index: u32, candidacy: Candidacy, progress: Progress) -> Run
        ensures knows { (p : Packet)
            → IsJudged p.frame p.original candidacy.layout candidacy.payload candidacy.flags
            → IsFirstProgress candidacy.layout p.frame progress → Knows result p [] }
        ensures indices { (result.first ≡ index) × (result.last ≡ index) × (result.more ≡ 0) }
        ensures progress { result.progress ≡ progress }
    {
        Run {
            first: index,
            last: index,
            more: 0,
            layout: candidacy.layout,
            payload: candidacy.payload,
            flags: candidacy.flags,
            progress,
        }
    }

    /// The run of one packet that may not be merged, that of this index. Nothing of its candidacy is wanted.
    pub(crate) fn alone(index: u32) -> Run
        ensures knows { (p : Packet) → IsNoCandidate p.frame p.original → Knows result p [] }
        ensures indices { (result.first ≡ index) × (result.last ≡ index) × (result.more ≡ 0) }
    {
        Run {
            first: index,
            last: index,
            more: 0,
            layout: None,
            payload: Partial::new(),
            flags: 0,
            progress: Progress {
                is_open: false,
                total: 0,
                modes: 0,
            },
        }
    }

    /// Whether the headers of a packet are what the next one's are, in a run of this layout whose first packet is
    /// `first`.
    fn is_followed_by<F: Frame>(&self, layout: &Layout, first: &F, next: &F) -> bool
        requires knows { KnowsSome self.now (F.packet first.now) }
        requires layout { self.now.layout ≡ Some layout.now }
        requires slot { F.is_held first.now }
        requires next { F.is_held next.now }
        ensures next { Decides result (IsNext layout.now (F.packet first.now).frame (self.now.more + 1)
            self.now.progress.total self.now.progress.modes (F.packet next.now).frame) }
    {
        let first_len = first.len();
        let next_len = next.len();
        is_next(
            layout,
            first.head(),
            first_len,
            self.more as usize + 1,
            &self.progress,
            next.head(),
            next_len,
        )
    }

    /// What a packet adds to the run, whose first packet is `first`, where the run takes it: its headers are compared
    /// before they are read, and where they are alike its layout is the run's. A packet of which nothing is said here
    /// may be taken nevertheless. If something is said, it is of the run's flow.
    fn addition<F: Frame>(&self, first: &F, next: &F) -> Option<Addition>
        requires knows { KnowsSome self.now (F.packet first.now) }
        requires slot { F.is_held first.now }
        requires next { F.is_held next.now }
        ensures takes { IfSome result (λ a. (rest : List Packet) → Knows self.now (F.packet first.now) rest
            → IsMergeable ((F.packet first.now ∷ rest) ++ (F.packet next.now ∷ []))) }
        ensures added { IfSome result (λ a.
            IsAdded (F.packet next.now).frame (F.packet next.now).original a.payload a.flags) }
        ensures flow { IfSome result (λ a. key_of (F.packet next.now).frame ≡ key_of (F.packet first.now).frame) }
    {
        if !self.progress.is_open {
            return None;
        }
        let Some(layout) = &self.layout else {
            return None;
        };
        // A run that has grown mostly grows on.
        if self.more == 0 && is_elsewhere(first, next) {
            return None;
        }
        if !self.is_followed_by(layout, first, next) {
            return None;
        }
        judge_as(layout, next)
    }

    /// Whether the run is within limits with one more packet, where it takes that.
    #[inline(always)]
    fn is_within<F: Frame>(&self, next: &F, limits: Limits) -> bool
        requires knows { (p : Packet) × KnowsSome self.now p }
        requires next { F.is_held next.now }
        ensures within { (p : Packet) (rest : List Packet) → Knows self.now p rest
            → IsMergeable ((p ∷ rest) ++ (F.packet next.now ∷ []))
            → Decides result (AreWithin limits ((p ∷ rest) ++ (F.packet next.now ∷ []))) }
    {
        if self.more as usize + 2 > limits.segs as usize {
            return false;
        }
        // A bound that no frame passes is none.
        if limits.bytes >= FRAME_LIMIT {
            return true;
        }
        let Some(layout) = &self.layout else {
            return true;
        };
        self.progress.total + next.len() <= limits.bytes as usize + layout.payload_at()
    }

    /// The same of a run that is within limits with it.
    pub(crate) fn addition_within<F: Frame>(
        &self,
        first: &F,
        next: &F,
        limits: Limits,
    ) -> Option<Addition>
        requires knows { KnowsSome self.now (F.packet first.now) }
        requires slot { F.is_held first.now }
        requires next { F.is_held next.now }
        ensures takes { IfSome result (λ a. (rest : List Packet) → Knows self.now (F.packet first.now) rest
            → IsMergeableWithin limits ((F.packet first.now ∷ rest) ++ (F.packet next.now ∷ []))) }
        ensures added { IfSome result (λ a.
            IsAdded (F.packet next.now).frame (F.packet next.now).original a.payload a.flags) }
        ensures flow { IfSome result (λ a. key_of (F.packet next.now).frame ≡ key_of (F.packet first.now).frame) }
    {
        if !self.is_within(next, limits) {
            return None;
        }
        self.addition(first, next)
    }

    /// Whether the run, whose first packet is `first`, takes one more. If so, that is of the run's flow.
    pub(crate) fn takes<F: Frame>(&self, first: &F, next: &F, candidacy: &Candidacy) -> bool
        requires knows { KnowsSome self.now (F.packet first.now) }
        requires slot { F.is_held first.now }
        requires judged { IsJudged (F.packet next.now).frame (F.packet next.now).original candidacy.now.layout
            candidacy.now.payload candidacy.now.flags }
        requires next { F.is_held next.now }
        ensures takes { (rest : List Packet) → Knows self.now (F.packet first.now) rest
            → Decides result (IsMergeable ((F.packet first.now ∷ rest) ++ (F.packet next.now ∷ []))) }
        ensures flow { IsTrue result → key_of (F.packet next.now).frame ≡ key_of (F.packet first.now).frame }
    {
        if !self.progress.is_open {
            return false;
        }
        let Some(_own) = &candidacy.layout else {
            return false;
        };
        match &self.layout {
            Some(layout) => self.is_followed_by(layout, first, next),
            None => false,
        }
    }

    /// Whether the run takes one more packet and is within limits with it. If so, that is of the run's flow.
    pub(crate) fn takes_within<F: Frame>(
        &self,
        first: &F,
        next: &F,
        candidacy: &Candidacy,
        limits: Limits,
    ) -> bool
        requires knows { KnowsSome self.now (F.packet first.now) }
        requires slot { F.is_held first.now }
        requires judged { IsJudged (F.packet next.now).frame (F.packet next.now).original candidacy.now.layout
            candidacy.now.payload candidacy.now.flags }
        requires next { F.is_held next.now }
        ensures takes { (rest : List Packet) → Knows self.now (F.packet first.now) rest
            → Decides result (IsMergeableWithin limits ((F.packet first.now ∷ rest) ++ (F.packet next.now ∷ []))) }
        ensures flow { IsTrue result → key_of (F.packet next.now).frame ≡ key_of (F.packet first.now).frame }
    {
        if !self.is_within(next, limits) {
            return false;
        }
        self.takes(first, next, candidacy)
    }

    /// What the run comes to with one more packet.
    #[inline(always)]
    fn progress_with<F: Frame>(&self, first: &F, next: &F) -> Progress
        requires takes { TakesOne self.now (F.packet first.now) (F.packet next.now) }
        requires slot { F.is_held first.now }
        requires next { F.is_held next.now }
        ensures progress { IsNextProgress self.now.layout (F.packet first.now).frame self.now.more
            (F.packet next.now).frame self.now.progress result }
    {
        let first_len = first.len();
        let next_len = next.len();
        match &self.layout {
            Some(layout) => next_progress(
                layout,
                first.head(),
                first_len,
                self.more as usize,
                &self.progress,
                next.head(),
                next_len,
            ),
            None => self.progress,
        }
    }

    /// One more packet, which the run takes: that of this index.
    pub(crate) fn add<F: Frame>(&mut self, first: &F, index: u32, next: &F, addition: &Addition)
        requires takes { TakesOne self.old (F.packet first.now) (F.packet next.now) }
        requires slot { F.is_held first.now }
        requires added { IsAdded (F.packet next.now).frame (F.packet next.now).original addition.now.payload
            addition.now.flags }
        requires next { F.is_held next.now }
        ensures knows { (rest : List Packet) → Knows self.old (F.packet first.now) rest
            → IsMergeable ((F.packet first.now ∷ rest) ++ (F.packet next.now ∷ []))
            → Knows self.new (F.packet first.now) (rest ++ (F.packet next.now ∷ [])) }
        ensures indices { (self.new.first ≡ self.old.first) × (self.new.last ≡ index)
            × (self.new.more ≡ self.old.more + 1) }
    {
        let progress = self.progress_with(first, next);
        let _ = next.len();
        let payload = self.payload.joined(addition.payload);
        self.last = index;
        self.more += 1;
        self.payload = payload;
        self.flags = addition.flags;
        self.progress = progress;
    }
}
