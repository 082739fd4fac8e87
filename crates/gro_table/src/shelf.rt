//! Memory that lives on from one round to the next.
ghost use Rattle.std.specs.Prelude.{◌≡◌, ◌<◌, ◌^◌, [], OnOk, OnErr};
ghost use Rattle.frags.specs.OutcomesState.{IsBare};
ghost use Rattle.gro_table.specs.Held.{counts_of};
ghost use Rattle.gro_table.specs.Places.{AreBare};
ghost use Rattle.gro_table.specs.Lists.{held_of};
ghost use Rattle.gro_table.specs.Table.{AreItemsFrom};
ghost use Rattle.gro_table.specs.Waiting.{held_in, AreTogether};

use crate::Packet;
use crate::item::{Item, build_all};
use crate::packet_list::PacketList;
use crate::places::{Places, all_places, give_all_up};
use crate::waiting::clear_places;
use frags::Outcomes;
use frame_runs::Engine;
use std::alloc::{AllocError, Global};
use std::collections::VecDeque;
use std::marker::Model;

/// The lists that each round's items are built with, of packets that wait and of places, which are memory alone between
/// rounds, and outcomes that hold nothing.
pub(crate) struct Shelf {
    waiting: VecDeque<Option<Packet>>,
    places: VecDeque<Places>,
    outcomes: VecDeque<Outcomes>,
}

impl Model for Shelf {
    ghost use Rattle.std.specs.Prelude.{◌≡◌, [], ℕ, length};
    ghost use Rattle.gro_table.specs.Places.{AreBare};

    ghost Value = { ℕ };

    ghost view = { λ s. length s.outcomes.items };

    ghost invariant = { λ s. (s.waiting.items ≡ []) × (s.places.items ≡ []) × AreBare s.outcomes.items };
}

impl Drop for Shelf {
    fn drop(self) {
        let Shelf {
            waiting,
            places,
            outcomes,
        } = self;
        waiting.destroy_empty();
        places.destroy_empty();
        settle_all(outcomes);
    }
}

// Spends outcomes that hold nothing.
fn settle_all(all: VecDeque<Outcomes>)
    requires bare { AreBare all.items }
{
    let mut all = all;
    while let Some(outcomes) = all.pop_front() {
        outcomes.settle();
    }
    all.destroy_empty();
}

impl Shelf {
    pub(crate) fn new(alloc: Global) -> Shelf {
        Shelf {
            waiting: VecDeque::new(alloc),
            places: VecDeque::new(alloc),
            outcomes: VecDeque::new(alloc),
        }
    }

    /// Outcomes that hold nothing serve items to come, where there is memory to keep them.
    pub(crate) fn keep(&mut self, outcomes: Outcomes)
        requires bare { IsBare outcomes }
    {
        if let Err(refused) = self.outcomes.push_front(outcomes) {
            refused.value.settle();
        }
    }

    /// The items of all runs. The list of their packets is empty then, and its memory stays. All places are made before
    /// anything moves: where there is no memory for them, nothing has changed.
    pub(crate) fn build_items(
        &mut self,
        alloc: Global,
        list: &mut PacketList,
        engine: &Engine,
        items: &mut Vec<Item>,
    ) -> Result<(), AllocError>
        requires together { AreTogether list.old engine.now }
        requires few { counts_of (held_of list.old) < 2 ^ 63 }
        requires empty { items.old.items ≡ [] }
        ensures items { OnOk result (AreItemsFrom (held_in list.old engine.now) items.new.items) }
        ensures none { OnOk result ((list.new.slots.items ≡ []) × (list.new.spares.items ≡ [])) }
        ensures same { OnErr result ((list.new ≡ list.old) × (items.new.items ≡ [])) }
    {
        items.reserve(engine.runs.len())?;
        self.waiting.reserve(list.slots.len())?;
        all_places(alloc, &mut self.outcomes, list, engine, &mut self.places)?;
        list.line_up(&mut self.waiting);
        build_all(engine, &mut self.waiting, &mut self.places, items);
        clear_places(&mut self.waiting);
        Ok(())
    }
}
