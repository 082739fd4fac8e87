//! The packets of a round in the order in which they came, and their spares beside.
ghost use Rattle.std.specs.Prelude.{◌≡◌, ◌+◌, ◌≤◌, ◌++◌, ◌∷◌, [], ℕ, length, Some, IfOk, OnOk, IfSome, IfNone};
ghost use Rattle.std.specs.VecDeque.{deque_len, deque_capacity};
ghost use Rattle.frags.specs.Account.{Keeps, both, of_outcomes};
ghost use Rattle.frags.specs.Growth.{Grows};
ghost use Rattle.gro_table.specs.Held.{of_packets, counts_of};
ghost use Rattle.gro_table.specs.Lists.{slot_of, spares_of, held_of, ArePaired, HasSlots};
ghost use Rattle.gro_table.specs.Waiting.{lined_up};

use crate::Packet;
use frags::Outcomes;
use gro::Slot;
use raw_block::Sole;
use std::alloc::{AllocError, Global};
use std::collections::VecDeque;

/// The two spare blocks of a packet.
pub struct Spares {
    /// The merged frame's head, where the packet is the first of several in a run.
    pub first: Sole,
    /// Given back as it is.
    pub second: Sole,
}

/// Packets in the order in which they came: each in its slot, where an engine reads it, and its spares beside.
pub struct PacketList {
    pub slots: Vec<Slot>,
    /// The spares of each packet, at the index of its slot.
    pub spares: Vec<Spares>,
}

impl PacketList {
    /// No packets, and no memory yet.
    pub(crate) fn new(alloc: Global) -> PacketList
        ensures none { (result.slots.items ≡ []) × (result.spares.items ≡ []) }
    {
        PacketList {
            slots: Vec::new(alloc),
            spares: Vec::new(alloc),
        }
    }

    /// No packets. The memory for n is taken.
    pub(crate) fn with_capacity(alloc: Global, n: usize) -> Result<PacketList, AllocError>
        ensures none { IfOk result (λ l. (l.slots.items ≡ []) × (l.spares.items ≡ [])) }
        ensures room { IfOk result (λ l. HasSlots l n) }
    {
        let slots = Vec::with_capacity(alloc, n)?;
        match Vec::with_capacity(alloc, n) {
            Ok(spares) => Ok(PacketList { slots, spares }),
            Err(error) => {
                slots.destroy_empty();
                Err(error)
            }
        }
    }

    /// Room for n packets more.
    pub(crate) fn reserve(&mut self, n: usize) -> Result<(), AllocError>
        ensures same { (self.new.slots.items ≡ self.old.slots.items) × (self.new.spares.items ≡ self.old.spares.items) }
        ensures room { OnOk result (HasSlots self.new n) }
        ensures later { (k : ℕ) → HasSlots self.old k → HasSlots self.new k }
    {
        self.slots.reserve(n)?;
        self.spares.reserve(n)
    }

    /// One more packet.
    pub(crate) fn push(&mut self, packet: Packet)
        requires room { HasSlots self.old 1 }
        ensures slots { self.new.slots.items ≡ self.old.slots.items ++ (slot_of packet ∷ []) }
        ensures spares { self.new.spares.items ≡ self.old.spares.items ++ (spares_of packet ∷ []) }
        ensures room { (n : ℕ) → HasSlots self.old (n + 1) → HasSlots self.new n }
    {
        let Packet {
            skb,
            spare1,
            spare2,
            sec,
            frac,
            original,
            number,
        } = packet;
        self.slots.push_reserved(Slot {
            skb,
            sec,
            frac,
            original,
            number,
        });
        self.spares.push_reserved(Spares {
            first: spare1,
            second: spare2,
        });
    }

    /// The last packet, which leaves the list.
    pub(crate) fn pop(&mut self) -> Option<Packet>
        requires paired { ArePaired self.old }
        ensures paired { ArePaired self.new }
        ensures some { IfSome result (λ p. held_of self.old ≡ held_of self.new ++ (p ∷ [])) }
        ensures fewer { IfSome result (λ p. length self.new.slots.items + 1 ≡ length self.old.slots.items) }
        ensures none { IfNone result ((self.old.slots.items ≡ []) × (self.new.slots.items ≡ [])
            × (self.new.spares.items ≡ [])) }
    {
        let slot = self.slots.pop()?;
        let Some(spares) = self.spares.pop() else {
            unreachable!()
        };
        let Slot {
            skb,
            sec,
            frac,
            original,
            number,
        } = slot;
        let Spares { first, second } = spares;
        Some(Packet {
            skb,
            spare1: first,
            spare2: second,
            sec,
            frac,
            original,
            number,
        })
    }

    /// All packets line up, each at its index, in places that were reserved. The list's memory stays.
    pub(crate) fn line_up(&mut self, waiting: &mut VecDeque<Option<Packet>>)
        requires paired { ArePaired self.old }
        requires empty { waiting.old.items ≡ [] }
        requires room { deque_len waiting.old + length self.old.slots.items ≤ deque_capacity waiting.old }
        ensures waiting { waiting.new.items ≡ lined_up self.old }
        ensures none { (self.new.slots.items ≡ []) × (self.new.spares.items ≡ []) }
    {
        while let Some(packet) = self.pop() {
            waiting.push_front_reserved(Some(packet));
        }
    }

    /// Gives the buffers and spares of all packets back. The list's memory stays.
    pub(crate) fn release_all(&mut self, out: &mut Outcomes)
        requires paired { ArePaired self.old }
        requires room { counts_of (held_of self.old) ≤ out.old.spare }
        ensures kept { Keeps (both (of_packets (held_of self.old)) (of_outcomes out.old)) (of_outcomes out.new) }
        ensures grows { Grows (counts_of (held_of self.old)) out.old out.new }
        ensures places { out.old.spare ≤ out.new.spare + counts_of (held_of self.old) }
        ensures none { (self.new.slots.items ≡ []) × (self.new.spares.items ≡ []) }
    {
        while let Some(packet) = self.pop() {
            packet.release(out);
        }
    }

    /// Frees the memory of a list without packets.
    pub(crate) fn discard(self)
        requires none { (self.slots.items ≡ []) × (self.spares.items ≡ []) }
    {
        let PacketList { slots, spares } = self;
        slots.destroy_empty();
        spares.destroy_empty();
    }
}
