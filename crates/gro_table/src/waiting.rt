//! Packets that wait for their run's item, each at its index.
ghost use Rattle.std.specs.Prelude.{◌≡◌, ◌≤◌, ◌∷◌, [], None, ℕ, length, set};
ghost use Rattle.gro_table.specs.Waiting.{found};

use crate::Packet;
use std::collections::VecDeque;

/// The packet at an index, which waits no longer.
pub(crate) fn take_at(waiting: &mut VecDeque<Option<Packet>>, index: u32) -> Packet
    requires there { 1 ≤ length (found waiting.old.items index) }
    ensures packet { found waiting.old.items index ≡ result ∷ [] }
    ensures left { waiting.new.items ≡ set waiting.old.items index None }
{
    let place = &mut waiting[index as usize];
    let Some(packet) = place.take() else {
        unreachable!()
    };
    packet
}

/// Where no packet waits any more the places go, and their memory stays.
pub(crate) fn clear_places(waiting: &mut VecDeque<Option<Packet>>)
    requires none { (k : ℕ) → found waiting.old.items k ≡ [] }
    ensures none { waiting.new.items ≡ [] }
{
    while let Some(place) = waiting.pop_front() {
        let None = place else { unreachable!() };
    }
}
