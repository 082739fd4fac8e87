//! Pools of blocks, for C.
ghost use Rattle.std.specs.Prelude.{◌≡◌, ◌≢◌, ◌⊎◌, ◌<◌, ◌≤◌, None};
ghost use Rattle.block_pool.specs.PoolState.{home};
ghost use Rattle.skb_c.specs.Held.{Has};
ghost use Rattle.skb_c.specs.Home.{home_of};

use crate::codes::{NO_MEMORY, OK, USAGE};
use crate::depot::Depot;
use crate::kept::{KeptPool, pool_put, pool_taken};
use core::mem::replace_with;
use std::alloc::Global;

/// The most blocks of a pool.
const MOST_BLOCKS: u32 = 65_536;

/// A pool of so many blocks of 2048 bytes (1 to 65,536), all home, where there is none yet.
///
/// 0; 2: there is a pool already, or the number isn't as it has to be; 7: there was no memory. But for 0 all is as it
/// was.
#[unsafe(no_mangle)]
pub extern "C" fn offload_pool_new(alloc: Global, pool: &mut KeptPool, blocks: u32) -> u32
    ensures made { result ≡ 0 → Has (λ p. (home p ≡ blocks) × (p.made ≡ blocks) × (p.taken ≡ 0)) pool.new.pool.value }
    ensures few { result ≡ 0 → (1 ≤ blocks) × (blocks ≤ 65536) }
    ensures alone { result ≡ 0 → pool.old.pool.value ≡ None }
    ensures usage { result ≡ 2 → (pool.old.pool.value ≢ None) ⊎ ((blocks ≡ 0) ⊎ (65536 < blocks)) }
    ensures codes { (result ≡ 0) ⊎ ((result ≡ 2) ⊎ (result ≡ 7)) }
    ensures untouched { (result ≡ 0) ⊎ (pool.new.pool.value ≡ pool.old.pool.value) }
{
    if pool.made || blocks == 0 || blocks > MOST_BLOCKS {
        return USAGE;
    }
    let Ok(depot) = Depot::make(alloc, blocks) else {
        return NO_MEMORY;
    };
    let Ok(own) = Box::new(alloc, depot) else {
        return NO_MEMORY;
    };
    replace_with(pool, own, pool_put);
    OK
}

/// How many blocks are home, 0 where there is no pool.
#[unsafe(no_mangle)]
pub extern "C" fn offload_pool_home(alloc: Global, pool: &mut KeptPool) -> u32
    ensures home { result ≡ home_of pool.old.pool.value }
    ensures same { pool.new.pool.value ≡ pool.old.pool.value }
{
    if !pool.made {
        return 0;
    }
    let own = replace_with(pool, alloc, pool_taken);
    let count = own.home();
    replace_with(pool, own, pool_put);
    count
}

/// Ends a pool, and frees the blocks that are home. Where there is none, nothing is done.
#[unsafe(no_mangle)]
pub extern "C" fn offload_pool_free(alloc: Global, pool: &mut KeptPool)
    ensures none { pool.new.pool.value ≡ None }
{
    if pool.made {
        let _ = replace_with(pool, alloc, pool_taken);
    }
}
