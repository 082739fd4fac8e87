//! The packets of a round, in a list in which they stay.
ghost use Rattle.std.specs.Prelude.{◌≡◌, ◌+◌, ◌-◌, ◌^◌, ◌<◌, ◌≤◌, ◌++◌, ◌∷◌, [], length, map, min, reverse};
ghost use Rattle.std.specs.Prelude.{All, IfOk, OnOk, IfSome, IfNone};
ghost use Rattle.skb.specs.SkbState.{IsApartFrom};
ghost use Rattle.gro.specs.Packets.{ClonedAt};
ghost use Rattle.gro.specs.Slots.{packet_of, counts_of, AreAlone, AreLent};

use crate::slot::Slot;
use frags::ShareFault;
use raw_block::Sole;
use skb::Skb;
use std::alloc::{AllocError, Global};
use std::marker::Model;

/// Packets in the order in which they came. None of them moves while it is in the list: each is read where it lies, in
/// its [`Slot`]. They must be spent: taken out, or freed.
pub struct Packets {
    slots: Vec<Slot>,
}

impl Model for Packets {
    ghost use Rattle.std.specs.Prelude.{◌-◌, vec_len, vec_capacity};
    ghost use Rattle.gro.specs.Packets.{PacketsState};

    ghost Value = { PacketsState };

    ghost view = { λ p. record { items = p.slots.items; room = vec_capacity p.slots - vec_len p.slots } };
}

impl Packets {
    /// No packets, and no memory yet.
    pub fn new(alloc: Global) -> Packets
        ensures none { result.items ≡ [] }
    {
        Packets {
            slots: Vec::new(alloc),
        }
    }

    /// No packets. The memory for n is taken.
    pub fn with_capacity(alloc: Global, n: usize) -> Result<Packets, AllocError>
        ensures none { IfOk result (λ ps. ps.items ≡ []) }
        ensures room { IfOk result (λ ps. n ≤ ps.room) }
    {
        let slots = Vec::with_capacity(alloc, n)?;
        Ok(Packets { slots })
    }

    /// Where its memory comes from.
    pub fn allocator(&self) -> Global {
        *self.slots.allocator()
    }

    /// Room for n packets more.
    pub fn reserve(&mut self, n: usize) -> Result<(), AllocError>
        ensures same { self.new.items ≡ self.old.items }
        ensures room { OnOk result (n ≤ self.new.room) }
        ensures later { self.old.room ≤ self.new.room }
    {
        self.slots.reserve(n)
    }

    /// How many packets there are.
    pub fn len(&self) -> usize
        ensures len { result ≡ length self.now.items }
    {
        self.slots.len()
    }

    /// Whether there are none.
    pub fn is_empty(&self) -> bool {
        self.slots.is_empty()
    }

    /// The packets, each in its slot.
    pub fn slots(&self) -> &[Slot]
        ensures slots { result.now ≡ self.now.items }
    {
        &self.slots
    }

    /// One more packet, behind the others.
    pub fn push(&mut self, packet: Slot)
        requires room { 1 ≤ self.old.room }
        ensures items { self.new.items ≡ self.old.items ++ (packet ∷ []) }
        ensures room { self.old.room ≤ self.new.room + 1 }
    {
        self.slots.push_reserved(packet);
    }

    /// The last packet, which leaves the list. There is room for one more then.
    pub fn pop(&mut self) -> Option<Slot>
        ensures some { IfSome result (λ p. self.old.items ≡ self.new.items ++ (p ∷ [])) }
        ensures room { IfSome result (λ _. self.old.room + 1 ≤ self.new.room) }
        ensures none { IfNone result ((self.old.items ≡ []) × (self.new ≡ self.old)) }
    {
        self.slots.pop()
    }

    /// The last packet is the first one, and so on.
    pub fn reverse(&mut self)
        ensures items { self.new.items ≡ reverse self.old.items }
        ensures room { self.new.room ≡ self.old.room }
    {
        self.slots.reverse();
    }

    /// A clone of packet i's buffer, as [`Skb::clone`] makes it. The others stay as they are.
    pub fn clone_at(&mut self, i: usize) -> Result<Skb, ShareFault>
        requires inside { i < length self.old.items }
        ensures cloned { ClonedAt i self.old.items self.new.items result }
        ensures room { self.new.room ≡ self.old.room }
    {
        self.slots[i].skb.clone()
    }

    /// Each head that is a Sole becomes a part, as [`Skb::share_head`] makes it one.
    pub fn share_heads(&mut self)
        ensures lent { AreLent self.old.items self.new.items }
        ensures packets { map packet_of self.new.items ≡ map packet_of self.old.items }
        ensures room { self.new.room ≡ self.old.room }
    {
        for i in 0..self.slots.len() {
            self.slots[i].skb.share_head();
        }
    }

    /// A Sole that stands beside packets is of no block of theirs.
    pub fn differ_from(&mut self, sole: &mut Sole)
        ensures others { All (λ p. IsApartFrom sole.old.block p.skb) self.old.items }
        ensures same { (self.new ≡ self.old) × (sole.new ≡ sole.old) }
    {
        for i in 0..self.slots.len() {
            self.slots[i].skb.differ_from(sole);
        }
    }

    /// Frees the memory of a list without packets.
    pub fn discard(self)
        requires none { self.items ≡ [] }
    {
        let Packets { slots } = self;
        slots.destroy_empty();
    }

    /// Frees all of it, blocks too, and answers how many these are: all where nobody else holds one of them, though no
    /// more than a usize counts. For who drops what nobody else will bring home.
    pub fn free(self) -> usize
        ensures few { result ≤ counts_of self.items }
        ensures alone { AreAlone self.items → result ≡ min (counts_of self.items) (2 ^ 64 - 1) }
    {
        let mut freed: usize = 0;
        let Packets { mut slots } = self;
        while let Some(slot) = slots.pop() {
            let Slot {
                skb,
                sec: _,
                frac: _,
                original: _,
                number: _,
            } = slot;
            freed = freed.saturating_add(skb.free());
        }
        slots.destroy_empty();
        freed
    }
}
