//! The receive queue of a frame.
ghost use Rattle.std.specs.Prelude.{◌≡◌, ◌≤◌, ◌<◌, ◌⊎◌, [], length};
ghost use Rattle.frame_layout.specs.Choice.{IsTable, queue_in};
ghost use Rattle.frame_layout.specs.Key.{key_of, queue_of as queue_of_key};
ghost use Rattle.offload_c.specs.Options.{IsTableOrNone, table_by};

use crate::options::table_of;
use frame_layout::{Key, key, queue_of, rss_input, toeplitz};

/// The queue of the frame's flow among 1 to 64 queues, by the fold of its key. With another number of queues, that
/// number.
#[unsafe(no_mangle)]
pub extern "C" fn offload_queue(frame: &[u8], queues: u32) -> u32
    ensures queue { 1 ≤ queues → queues ≤ 64 → (result ≡ queue_of_key (key_of frame.now) queues) × (result < queues) }
    ensures refused { (queues ≡ 0) ⊎ (64 < queues) → result ≡ queues }
{
    if queues == 0 || queues > 64 {
        return queues;
    }
    queue_of(&key(frame), queues)
}

// The entry of the table at which the hash of a flow lies.
fn entry_of(flow: &Key, hash_key: &[u8; 40], table: &[u8], queues: u32) -> u32
    requires table { IsTable queues table.now }
    requires some { 1 ≤ queues }
    ensures queue { result ≡ queue_in hash_key.now table.now flow.now }
    ensures below { result < queues }
{
    if flow.bytes().is_none() {
        return 0;
    }
    let mut input = [0u8; 36];
    let len = rss_input(flow, &mut input) as usize;
    let hash = toeplitz(hash_key, &input[..len]) as usize;
    u32::from(table[hash % table.len()])
}

/// The queue of the frame's flow among 1 to 64 queues, by the Toeplitz hash of its addresses and ports, which is a
/// place in a table of 1 to 128 queues; an empty table is that in which they stand in turn. With another number of
/// queues or another table, that number.
#[unsafe(no_mangle)]
pub extern "C" fn offload_queue_rss(
    frame: &[u8],
    hash_key: &[u8; 40],
    table: &[u8],
    queues: u32,
) -> u32
    ensures queue { 1 ≤ queues → queues ≤ 64 → IsTableOrNone queues table.now
        → (result ≡ queue_in hash_key.now (table_by queues table.now) (key_of frame.now)) × (result < queues) }
    ensures refused { (queues ≡ 0) ⊎ ((64 < queues) ⊎ (IsTableOrNone queues table.now → ⊥)) → result ≡ queues }
{
    if queues == 0 || queues > 64 {
        return queues;
    }
    match table_of(table, queues) {
        Some(entries) => entry_of(&key(frame), hash_key, entries.as_slice(), queues),
        None => queues,
    }
}
