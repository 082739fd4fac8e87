//! The queue of a packet's flow: by the fold, read where its headers lie.
ghost use Rattle.std.specs.Prelude.{◌≡◌, ◌+◌, ◌*◌, ◌%◌, ◌^◌, ◌<◌, ◌≤◌, List, ℕ, length};
ghost use Rattle.std.specs.List.{fold as fold_list};
ghost use Rattle.frame_layout.specs.Key.{hash_of, key_of, queue_of as queue_of_key, IsHeadOf};
ghost use Rattle.frame_layout.specs.Plain.{plain_key};
ghost use Rattle.skb.specs.SkbState.{buffer_bytes};
ghost use Rattle.gro.specs.Slots.{IsHeld};
ghost use Rattle.lanes.specs.Work.{IsPlan, spread_of};

use crate::plan::LanePlan;
use frame_layout::{Choice, key, key_behind, queue_by, queue_of, shape};
use gro::Slot;

// The fold goes on over these bytes.
fn fold(value: u32, bytes: &[u8]) -> u32
    ensures fold { result ≡ fold_list (λ h b. (h * 31 + b) % 2 ^ 32) value bytes.now }
{
    let mut value = value;
    for byte in bytes {
        value = value.wrapping_mul(31).wrapping_add(u32::from(*byte));
    }
    value
}

// The fold of the key behind Ethernet without tags, IPv4 and TCP, whose parts lie at fixed places.
fn plain_fold(head: &[u8]) -> u32
    requires long { 54 ≤ length head.now }
    ensures hash { result ≡ hash_of (plain_key head.now) }
{
    let hosts = fold(0, &head[..12]);
    let addresses = fold(fold(hosts, &[4]), &head[26..34]);
    fold(fold(addresses, &[6]), &head[34..38])
}

// By the fold. The key is put together only where the headers are others.
fn folded_queue(head: &[u8], queues: u32) -> u32
    requires some { 1 ≤ queues }
    requires few { queues ≤ 64 }
    ensures queue { (f : List ℕ) → IsHeadOf head.now f → result ≡ queue_of_key (key_of f) queues }
    ensures below { result < queues }
{
    match shape(head) {
        Some(layout) if layout.is_plain() => plain_fold(head) % queues,
        Some(layout) => queue_of(&key_behind(head, &layout), queues),
        None => 0,
    }
}

/// The queue of a packet's flow.
pub(crate) fn queue_for(packet: &Slot, plan: &LanePlan) -> u32
    requires held { IsHeld packet.now }
    requires plan { IsPlan plan.now }
    ensures queue { result ≡ spread_of plan.now (key_of (buffer_bytes packet.now.skb)) }
    ensures below { result < plan.now.queues }
{
    let head = packet.skb.head();
    match &plan.choice {
        Choice::Fold => folded_queue(head, plan.queues),
        choice => queue_by(&key(head), choice, plan.queues),
    }
}
