//! The open group of each flow.
ghost use Rattle.std.specs.Prelude.{◌≡◌, ◌+◌, ◌<◌, ◌≤◌, Option, Some, None, List, ℕ, map, true};
ghost use Rattle.std.specs.Prelude.{IfOk, OnOk, IfSome, IfNone, if◌then◌else◌};
ghost use Rattle.std.specs.Bool.{Decides};
ghost use Rattle.std.specs.HashMap.{IsEmpty, Updates as UpdatesKey, spare};
ghost use Rattle.std.specs.List.{AllByRecursion};
ghost use Rattle.pcap_io.specs.Capture.{Packet};
ghost use Rattle.slab.specs.Slab.{get, Updates};
ghost use Rattle.frame_layout.specs.Key.{key_eq, key_of};
ghost use Rattle.merge_rule.specs.Runs.{IsShaped};
ghost use Rattle.frame_runs.specs.Flows.{bucket_in, hash_of, key_at, place_at, slot_of, place_of, AreFlows, IsHashed};
ghost use Rattle.frame_runs.specs.Flows.{HasRun, IsGroup, IsOwn, IsTaken, Puts, HasRoom};
ghost use Rattle.frame_runs.specs.declared.flows.Group.{Group};

use crate::candidacy::{flow_key, is_same_flow, key_in};
use crate::frame::Frame;
use frame_layout::Key;
use merge_rule::Candidacy;
use slab::Slab;
use std::alloc::{AllocError, Global};
use std::collections::HashMap;
use std::marker::Model;

/// The places of the table.
const PLACES: usize = 256;

/// The open group of a flow.
#[derive(Clone, Copy)]
pub struct Group {
    /// The index of a packet of the flow.
    pub packet: u32,
    /// The hash of the flow's key.
    pub hash: u32,
    /// The place of the flow's run in the list of runs.
    pub run: usize,
}

/// The open groups.
#[derive(Drop)]
pub struct Flows {
    groups: Slab<Group>,
    /// Places in the slab of groups whose own place of the table another open group has.
    keys: HashMap<Key, usize>,
    /// By the hash, a group's place in the slab, counted from 1; 0 where there is none.
    places: Vec<usize>,
}

impl Model for Flows {
    ghost use Rattle.std.specs.HashMap.{spare};
    ghost use Rattle.frame_runs.specs.OpenGroups.{OpenGroups};

    ghost Value = { OpenGroups };

    ghost view = { λ f. record {
      groups = f.groups;
      entries = f.keys.entries;
      room = spare f.keys;
      places = f.places.items;
    } };
}

impl Group {
    /// Whether it is of a packet's flow, whose key has this hash.
    fn is_of<F: Frame>(&self, packets: &[F], slot: &F, candidacy: &Candidacy, hash: u32) -> bool
        requires hashed { IsHashed (map F.packet packets.now) self.now.packet self.now.hash }
        requires slots { AllByRecursion F.is_held packets.now }
        requires slot { F.is_held slot.now }
        requires shaped { IsShaped candidacy.now.layout (F.packet slot.now).frame }
        requires hash { hash ≡ hash_of (key_of (F.packet slot.now).frame) }
        ensures same { Decides result
            (key_at (map F.packet packets.now) self.now ≡ key_of (F.packet slot.now).frame) }
    {
        if self.hash != hash {
            return false;
        }
        is_same_flow(&packets[self.packet as usize], slot, candidacy)
    }
}

/// The place of a key with this hash.
fn bucket(hash: u32) -> usize
    ensures bucket { result ≡ bucket_in hash }
    ensures inside { result < 256 }
{
    (hash / 0x0100_0000) as usize
}

/// The map has no key any more. One without is left as it is.
fn clear_keys(keys: &mut HashMap<Key, usize>)
    ensures none { IsEmpty keys.new }
{
    if !keys.is_empty() {
        keys.clear();
    }
}

/// The key of a packet's flow leads to this key of the slab. It isn't inlined, since the room for it is set to zero
/// where it is.
#[inline(never)]
fn enter_key<F: Frame>(keys: &mut HashMap<Key, usize>, slot: &F, at: usize)
    requires slot { F.is_held slot.now }
    requires room { 1 ≤ spare keys.old }
    ensures entered { UpdatesKey key_eq keys.old keys.new (key_of (F.packet slot.now).frame) (Some at) }
    ensures room { spare keys.old ≤ spare keys.new + 1 }
{
    let key = key_in(slot);
    let _none = keys.insert(key, at);
}

impl Flows {
    /// No flow has an open group yet, and there is no memory for any.
    pub(crate) fn new(alloc: Global) -> Flows
        ensures flows { (ps : List Packet) → AreFlows ps result }
        ensures none { (ps : List Packet) (q : Option (List ℕ)) → place_of ps result q ≡ None }
        ensures room { HasRoom result 0 }
    {
        Flows {
            groups: Slab::new(alloc),
            keys: HashMap::new(alloc),
            places: Vec::new(alloc),
        }
    }

    /// No flow has an open group yet. The memory for n is taken.
    pub(crate) fn with_capacity(alloc: Global, n: usize) -> Result<Flows, AllocError>
        ensures flows { IfOk result (λ f. (ps : List Packet) → AreFlows ps f) }
        ensures none { IfOk result (λ f. (ps : List Packet) (q : Option (List ℕ)) → place_of ps f q ≡ None) }
        ensures room { IfOk result (λ f. HasRoom f n) }
    {
        let groups = Slab::with_capacity(alloc, n)?;
        let keys = HashMap::with_capacity(alloc, n)?;
        let places = vec![in alloc; 0; PLACES]?;
        Ok(Flows {
            groups,
            keys,
            places,
        })
    }

    /// Room for n groups more.
    pub(crate) fn reserve(&mut self, n: usize) -> Result<(), AllocError>
        ensures flows { (ps : List Packet) → AreFlows ps self.old → AreFlows ps self.new }
        ensures same { (ps : List Packet) (q : Option (List ℕ))
            → place_of ps self.new q ≡ place_of ps self.old q }
        ensures room { OnOk result (HasRoom self.new n) }
        ensures later { (k : ℕ) → HasRoom self.old k → HasRoom self.new k }
    {
        self.groups.reserve(n)?;
        self.keys.reserve(n)?;
        if self.places.len() < PLACES {
            self.places.resize(PLACES, 0)?;
        }
        Ok(())
    }

    /// No flow has an open group any more. The memory stays.
    pub(crate) fn clear(&mut self)
        ensures flows { (ps : List Packet) → AreFlows ps self.new }
        ensures none { (ps : List Packet) (q : Option (List ℕ)) → place_of ps self.new q ≡ None }
        ensures room { HasRoom self.new 0 }
    {
        self.groups.clear();
        clear_keys(&mut self.keys);
        self.places.fill(0);
    }

    /// Whether no flow has an open group.
    pub(crate) fn is_empty(&self) -> bool
        ensures none { result ≡ true → (ps : List Packet) (q : Option (List ℕ))
            → place_of ps self.now q ≡ None }
    {
        self.groups.is_empty()
    }

    /// What stands at the place of this hash, counted from 1.
    fn at_place(&self, hash: u32) -> usize
        ensures place { result ≡ place_at self.now hash }
    {
        match self.places.get(bucket(hash)) {
            Some(at) => *at,
            None => 0,
        }
    }

    /// The run of the group under a key of the slab, where that is of a packet's flow.
    fn run_at<F: Frame>(
        &self,
        at: usize,
        packets: &[F],
        slot: &F,
        candidacy: &Candidacy,
        hash: u32,
    ) -> Option<usize>
        requires flows { AreFlows (map F.packet packets.now) self.now }
        requires slots { AllByRecursion F.is_held packets.now }
        requires slot { F.is_held slot.now }
        requires shaped { IsShaped candidacy.now.layout (F.packet slot.now).frame }
        requires hash { hash ≡ hash_of (key_of (F.packet slot.now).frame) }
        ensures some { IfSome result (λ run. place_of (map F.packet packets.now) self.now
            (key_of (F.packet slot.now).frame) ≡ Some run) }
        ensures none { IfNone result ((g : Group) → get self.now.groups at ≡ Some g
            → key_at (map F.packet packets.now) g ≡ key_of (F.packet slot.now).frame → ⊥) }
    {
        let Some(group) = self.groups.get(at) else {
            return None;
        };
        if group.is_of(packets, slot, candidacy, hash) {
            Some(group.run)
        } else {
            None
        }
    }

    /// The run of a packet's flow, where the map has its group. It isn't inlined, for the same reason.
    #[inline(never)]
    fn run_by_key<F: Frame>(&self, slot: &F, candidacy: &Candidacy) -> Option<usize>
        requires slot { F.is_held slot.now }
        requires shaped { IsShaped candidacy.now.layout (F.packet slot.now).frame }
        ensures some { IfSome result (λ run. (ps : List Packet) → AreFlows ps self.now
            → place_of ps self.now (key_of (F.packet slot.now).frame) ≡ Some run) }
        ensures none { IfNone result ((ps : List Packet) → AreFlows ps self.now
            → slot_of self.now (key_of (F.packet slot.now).frame) ≡ None) }
    {
        if self.keys.is_empty() {
            return None;
        }
        let key = flow_key(slot, candidacy);
        let at = *self.keys.get(&key)?;
        let group = self.groups.get(at)?;
        Some(group.run)
    }

    /// The place of the open run of a packet's flow, whose key has this hash.
    pub(crate) fn find<F: Frame>(
        &self,
        packets: &[F],
        slot: &F,
        candidacy: &Candidacy,
        hash: u32,
    ) -> Option<usize>
        requires flows { AreFlows (map F.packet packets.now) self.now }
        requires slots { AllByRecursion F.is_held packets.now }
        requires slot { F.is_held slot.now }
        requires shaped { IsShaped candidacy.now.layout (F.packet slot.now).frame }
        requires hash { hash ≡ hash_of (key_of (F.packet slot.now).frame) }
        ensures place { result
            ≡ place_of (map F.packet packets.now) self.now (key_of (F.packet slot.now).frame) }
    {
        let at = self.at_place(hash);
        if at == 0 {
            return None;
        }
        match self.run_at(at - 1, packets, slot, candidacy, hash) {
            Some(run) => Some(run),
            None => self.run_by_key(slot, candidacy),
        }
    }

    /// Whether an open group whose place is that of this hash stands there.
    fn is_taken(&self, hash: u32) -> bool
        ensures taken { Decides result (IsTaken self.now hash) }
    {
        let at = self.at_place(hash);
        if at == 0 {
            return false;
        }
        match self.groups.get(at - 1) {
            Some(group) => bucket(group.hash) == bucket(hash),
            None => false,
        }
    }

    /// Whether the group under a key of the slab, counted from 1, has this run.
    fn is_run(&self, at: usize, run: usize) -> bool
        ensures run { Decides result (HasRun self.now at run) }
    {
        if at == 0 {
            return false;
        }
        match self.groups.get(at - 1) {
            Some(group) => group.run == run,
            None => false,
        }
    }

    /// A packet whose flow has no open group opens one.
    fn enter<F: Frame>(&mut self, slot: &F, group: Group)
        requires room { HasRoom self.old 1 }
        requires slot { F.is_held slot.now }
        ensures flows { (ps : List Packet) → AreFlows ps self.old → IsGroup ps group (F.packet slot.now)
            → place_of ps self.old (key_of (F.packet slot.now).frame) ≡ None → AreFlows ps self.new }
        ensures puts { (ps : List Packet) → AreFlows ps self.old → IsGroup ps group (F.packet slot.now)
            → place_of ps self.old (key_of (F.packet slot.now).frame) ≡ None
            → Puts ps self.old (key_of (F.packet slot.now).frame) (Some group.run) self.new }
        ensures room { (n : ℕ) → HasRoom self.old (n + 1) → HasRoom self.new n }
    {
        let is_taken = self.is_taken(group.hash);
        // A key of the slab is below that, so that it can be counted from 1.
        let _ = self.groups.capacity();
        let at = self.groups.insert_reserved(group);
        if is_taken {
            enter_key(&mut self.keys, slot, at);
        } else {
            self.places[bucket(group.hash)] = at + 1;
        }
    }

    /// The group under a key of the slab leaves.
    fn remove_at(&mut self, at: usize)
        ensures groups { Updates self.old.groups self.new.groups at None }
        ensures entries { self.new.entries ≡ self.old.entries }
        ensures places { self.new.places ≡ self.old.places }
        ensures room { (n : ℕ) → HasRoom self.old n → HasRoom self.new n }
    {
        let _closed = self.groups.try_remove(at);
    }

    /// The group of a packet's flow, which the map has, leaves the map and the slab.
    #[inline(never)]
    fn remove_by_key<F: Frame>(&mut self, slot: &F)
        requires slot { F.is_held slot.now }
        ensures groups { IfSome (slot_of self.old (key_of (F.packet slot.now).frame))
            (λ at. Updates self.old.groups self.new.groups at None) }
        ensures slots { (q : Option (List ℕ)) → slot_of self.new q
            ≡ (if key_eq (key_of (F.packet slot.now).frame) q then None else slot_of self.old q) }
        ensures places { self.new.places ≡ self.old.places }
        ensures room { (n : ℕ) → HasRoom self.old n → HasRoom self.new n }
    {
        let key = key_in(slot);
        if let Some(at) = self.keys.remove(&key) {
            let _group = self.groups.try_remove(at);
        }
    }

    /// The open group of a packet's flow, whose key has this hash, leaves. It has this run.
    pub(crate) fn close<F: Frame>(&mut self, slot: &F, hash: u32, run: usize)
        requires slot { F.is_held slot.now }
        requires hash { hash ≡ hash_of (key_of (F.packet slot.now).frame) }
        ensures flows { (ps : List Packet) → AreFlows ps self.old
            → IsOwn ps self.old (key_of (F.packet slot.now).frame) run → AreFlows ps self.new }
        ensures puts { (ps : List Packet) → AreFlows ps self.old
            → IsOwn ps self.old (key_of (F.packet slot.now).frame) run
            → Puts ps self.old (key_of (F.packet slot.now).frame) None self.new }
        ensures room { (n : ℕ) → HasRoom self.old n → HasRoom self.new n }
    {
        let at = self.at_place(hash);
        if self.is_run(at, run) {
            return self.remove_at(at - 1);
        }
        self.remove_by_key(slot);
    }

    /// A packet whose flow has no open group opens a run. That is found where it is open.
    pub(crate) fn begin<F: Frame>(&mut self, slot: &F, group: Group, is_open: bool)
        requires room { HasRoom self.old 1 }
        requires slot { F.is_held slot.now }
        ensures flows { (ps : List Packet) → AreFlows ps self.old → IsGroup ps group (F.packet slot.now)
            → place_of ps self.old (key_of (F.packet slot.now).frame) ≡ None → AreFlows ps self.new }
        ensures puts { (ps : List Packet) → AreFlows ps self.old → IsGroup ps group (F.packet slot.now)
            → place_of ps self.old (key_of (F.packet slot.now).frame) ≡ None
            → Puts ps self.old (key_of (F.packet slot.now).frame) (if is_open then Some group.run else None)
            self.new }
        ensures room { (n : ℕ) → HasRoom self.old (n + 1) → HasRoom self.new n }
    {
        if is_open {
            self.enter(slot, group);
        }
    }

    /// A packet that its flow's open run at `found` doesn't take opens the next one. That is found where it is open.
    pub(crate) fn follow<F: Frame>(&mut self, slot: &F, found: usize, group: Group, is_open: bool)
        requires room { HasRoom self.old 1 }
        requires slot { F.is_held slot.now }
        requires hash { group.hash ≡ hash_of (key_of (F.packet slot.now).frame) }
        ensures flows { (ps : List Packet) → AreFlows ps self.old → IsGroup ps group (F.packet slot.now)
            → IsOwn ps self.old (key_of (F.packet slot.now).frame) found → AreFlows ps self.new }
        ensures puts { (ps : List Packet) → AreFlows ps self.old → IsGroup ps group (F.packet slot.now)
            → IsOwn ps self.old (key_of (F.packet slot.now).frame) found
            → Puts ps self.old (key_of (F.packet slot.now).frame) (if is_open then Some group.run else None)
            self.new }
        ensures room { (n : ℕ) → HasRoom self.old (n + 1) → HasRoom self.new n }
    {
        self.close(slot, group.hash, found);
        self.begin(slot, group, is_open);
    }

    /// The open run of a packet's flow, whose key has this hash, has that one more. It is found as long as it is open.
    pub(crate) fn keep<F: Frame>(&mut self, slot: &F, hash: u32, run: usize, is_open: bool)
        requires slot { F.is_held slot.now }
        requires hash { hash ≡ hash_of (key_of (F.packet slot.now).frame) }
        ensures flows { (ps : List Packet) → AreFlows ps self.old
            → IsOwn ps self.old (key_of (F.packet slot.now).frame) run → AreFlows ps self.new }
        ensures puts { (ps : List Packet) → AreFlows ps self.old
            → IsOwn ps self.old (key_of (F.packet slot.now).frame) run
            → Puts ps self.old (key_of (F.packet slot.now).frame) (if is_open then Some run else None) self.new }
        ensures room { (n : ℕ) → HasRoom self.old n → HasRoom self.new n }
    {
        if is_open {
            return;
        }
        self.close(slot, hash, run);
    }
}
