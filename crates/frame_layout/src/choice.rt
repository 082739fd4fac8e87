//! How flows go to receive queues.

ghost use Rattle.std.specs.Prelude.{◌≡◌, ℕ, Some, ◌<◌, ◌≤◌, length};
ghost use Rattle.frame_layout.specs.Choice.{queue_by as queue_said, queue_in, IsTable, IsChoice, even_table_of};

use crate::flow::Key;
use crate::hash_key::HashKey;
use crate::queue::queue_of;
use crate::rss::rss_input;
use arrayvec::ArrayVec;

/// How flows go to receive queues.
#[derive(Drop)]
pub enum Choice {
    /// By a fold of the whole key, modulo the number of queues.
    Fold,
    /// By the Toeplitz hash of addresses and ports, which is a place in a table of queues.
    Toeplitz {
        /// The key under which addresses and ports are hashed.
        key: HashKey,
        /// A flow's queue stands at its hash modulo the table's length, which is 1 to 128.
        table: ArrayVec<u8, 128>,
    },
}

/// The table of 128 entries in which the queues stand in turn.
pub fn even_table(queues: u32) -> ArrayVec<u8, 128>
    requires some { 1 ≤ queues }
    requires few { queues ≤ 64 }
    ensures table { result.items ≡ even_table_of queues }
    ensures lawful { IsTable queues result.items }
{
    let mut table = ArrayVec::new();
    for i in 0..128u32 {
        table.push((i % queues) as u8);
    }
    table
}

/// The queue in the table.
fn queue_at(hash_key: &HashKey, table: &[u8], key: &Key, queues: u32) -> u32
    requires table { IsTable queues table.now }
    requires some { 1 ≤ queues }
    ensures queue { result ≡ queue_in hash_key.now table.now key.now }
    ensures below { result < queues }
{
    if key.bytes().is_none() {
        return 0;
    }
    let mut input = [0u8; 36];
    let len = rss_input(key, &mut input) as usize;
    let hash = hash_key.hash(&input[..len]) as usize;
    u32::from(table[hash % table.len()])
}

/// The receive queue of a flow by a choice.
pub fn queue_by(key: &Key, choice: &Choice, queues: u32) -> u32
    requires some { 1 ≤ queues }
    requires few { queues ≤ 64 }
    requires choice { IsChoice queues choice.now }
    ensures queue { result ≡ queue_said choice.now key.now queues }
    ensures below { result < queues }
{
    match choice {
        Choice::Fold => queue_of(key, queues),
        Choice::Toeplitz {
            key: hash_key,
            table,
        } => queue_at(hash_key, table.as_slice(), key, queues),
    }
}
