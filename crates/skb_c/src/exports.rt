//! Packet buffers, for C.
ghost use Rattle.std.specs.Prelude.{◌≡◌};
ghost use Rattle.skb_c.specs.Held.{Does, DoesBoth, Makes, Joins, MakesFrom, MakesOf};
ghost use Rattle.skb_c.specs.Home.{IsNew, IsPulled, IsTrimmed, IsUnshared, Releases, IsAttached, IsCopied, IsSplit};
ghost use Rattle.skb_c.specs.Does.{IsPushed, IsPutBehind, ReadsFrom, IsCloned, size_said};

use crate::codes::{NO_MEMORY, OK, USAGE};
use crate::kept::{KeptPool, KeptSkb, pool_put, pool_taken, skb_put, skb_taken};
use core::mem::replace_with;
use raw_block::BLOCK_SIZE;
use std::alloc::Global;

/// An empty buffer in a block of the pool, where there is none yet: `headroom` bytes (0 to 2,048) in front of it, and
/// the rest of the block behind it.
///
/// 0; 2: there is no pool, or a buffer already, or the number isn't as it has to be; 4: no block is home; 7: there was
/// no memory. But for 0 all is as it was.
#[unsafe(no_mangle)]
pub extern "C" fn offload_skb_new(
    alloc: Global,
    pool: &mut KeptPool,
    skb: &mut KeptSkb,
    headroom: usize,
) -> u32
    ensures made { Makes (IsNew headroom) pool.old.pool.value skb.old.skb.value pool.new.pool.value skb.new.skb.value
        result }
{
    if !pool.made {
        return USAGE;
    }
    if skb.made {
        return USAGE;
    }
    if headroom > BLOCK_SIZE {
        return USAGE;
    }
    let mut depot = replace_with(pool, alloc, pool_taken);
    let made = depot.boxed(alloc, headroom);
    replace_with(pool, depot, pool_put);
    match made {
        Ok(own) => {
            replace_with(skb, own, skb_put);
            OK
        }
        Err(code) => code,
    }
}

/// Ends a buffer: the blocks that nobody else holds come home to the pool, as many as have a place there.
///
/// 0; 2: there is no pool or no buffer; 7: there was no memory for a list of more pieces than the pool was made of.
/// But for 0 all is as it was.
#[unsafe(no_mangle)]
pub extern "C" fn offload_skb_release(alloc: Global, pool: &mut KeptPool, skb: &mut KeptSkb) -> u32
    ensures released { DoesBoth Releases pool.old.pool.value skb.old.skb.value pool.new.pool.value skb.new.skb.value
        result }
{
    if !pool.made {
        return USAGE;
    }
    if !skb.made {
        return USAGE;
    }
    let mut depot = replace_with(pool, alloc, pool_taken);
    let own = replace_with(skb, alloc, skb_taken);
    let left = depot.release(own);
    replace_with(pool, depot, pool_put);
    match left {
        Ok(()) => OK,
        Err(own) => {
            replace_with(skb, own, skb_put);
            NO_MEMORY
        }
    }
}

/// The bytes stand in front of a buffer's.
///
/// 0; 2: there is no buffer, or it would have 2^32 bytes; 5: others hold its head's block; 9: there are more bytes than
/// headroom. But for 0 all is as it was.
#[unsafe(no_mangle)]
pub extern "C" fn offload_skb_push(alloc: Global, skb: &mut KeptSkb, bytes: &[u8]) -> u32
    ensures push { Does (IsPushed bytes.now) skb.old.skb.value skb.new.skb.value result }
{
    if !skb.made {
        return USAGE;
    }
    let mut own = replace_with(skb, alloc, skb_taken);
    let code = own.push(bytes);
    replace_with(skb, own, skb_put);
    code
}

/// The bytes stand behind a buffer's.
///
/// 0; 2: there is no buffer; 5: others hold its head's block; 9: there are more bytes than tailroom. But for 0 all is
/// as it was.
#[unsafe(no_mangle)]
pub extern "C" fn offload_skb_put_tail(alloc: Global, skb: &mut KeptSkb, bytes: &[u8]) -> u32
    ensures put { Does (IsPutBehind bytes.now) skb.old.skb.value skb.new.skb.value result }
{
    if !skb.made {
        return USAGE;
    }
    let mut own = replace_with(skb, alloc, skb_taken);
    let code = own.put_tail(bytes);
    replace_with(skb, own, skb_put);
    code
}

/// The first `length` bytes of a buffer are gone. Blocks of which it has nothing more come home.
///
/// 0; 2: there is no pool or no buffer, or it has fewer bytes; 7: there was no memory, as for a release. But for 0 all
/// is as it was.
#[unsafe(no_mangle)]
pub extern "C" fn offload_skb_pull(
    alloc: Global,
    pool: &mut KeptPool,
    skb: &mut KeptSkb,
    length: usize,
) -> u32
    ensures pulled { DoesBoth (IsPulled length) pool.old.pool.value skb.old.skb.value pool.new.pool.value
        skb.new.skb.value result }
{
    if !pool.made {
        return USAGE;
    }
    if !skb.made {
        return USAGE;
    }
    let mut depot = replace_with(pool, alloc, pool_taken);
    let mut own = replace_with(skb, alloc, skb_taken);
    let code = depot.pull(&mut own, length);
    replace_with(skb, own, skb_put);
    replace_with(pool, depot, pool_put);
    code
}

/// The last `length` bytes of a buffer are gone. Blocks of which it has nothing more come home.
///
/// 0; 2: there is no pool or no buffer, or it has fewer bytes; 7: there was no memory, as for a release. But for 0 all
/// is as it was.
#[unsafe(no_mangle)]
pub extern "C" fn offload_skb_trim(
    alloc: Global,
    pool: &mut KeptPool,
    skb: &mut KeptSkb,
    length: usize,
) -> u32
    ensures trimmed { DoesBoth (IsTrimmed length) pool.old.pool.value skb.old.skb.value pool.new.pool.value
        skb.new.skb.value result }
{
    if !pool.made {
        return USAGE;
    }
    if !skb.made {
        return USAGE;
    }
    let mut depot = replace_with(pool, alloc, pool_taken);
    let mut own = replace_with(skb, alloc, skb_taken);
    let code = depot.trim(&mut own, length);
    replace_with(skb, own, skb_put);
    replace_with(pool, depot, pool_put);
    code
}

/// Nobody else holds the block of a buffer's head then, so that it may be written: where others do, its bytes are
/// copied into a block of the pool.
///
/// 0; 2: there is no pool or no buffer; 4: others hold the head, and no block is home. But for 0 all is as it was.
#[unsafe(no_mangle)]
pub extern "C" fn offload_skb_unshare(alloc: Global, pool: &mut KeptPool, skb: &mut KeptSkb) -> u32
    ensures unshared { DoesBoth IsUnshared pool.old.pool.value skb.old.skb.value pool.new.pool.value skb.new.skb.value
        result }
{
    if !pool.made {
        return USAGE;
    }
    if !skb.made {
        return USAGE;
    }
    let mut depot = replace_with(pool, alloc, pool_taken);
    let mut own = replace_with(skb, alloc, skb_taken);
    let code = depot.unshare(&mut own);
    replace_with(skb, own, skb_put);
    replace_with(pool, depot, pool_put);
    code
}

/// The number of a buffer's bytes, 0 where there is no buffer.
#[unsafe(no_mangle)]
pub extern "C" fn offload_skb_length(alloc: Global, skb: &mut KeptSkb) -> usize
    ensures size { result ≡ size_said skb.old.skb.value }
    ensures same { skb.new.skb.value ≡ skb.old.skb.value }
{
    if !skb.made {
        return 0;
    }
    let own = replace_with(skb, alloc, skb_taken);
    let size = own.len();
    replace_with(skb, own, skb_put);
    size
}

/// Copies a buffer's bytes from the place `at` on over `into`, as many as it has room for.
///
/// 0; 2: there is no buffer, or it has fewer bytes. But for 0 nothing was written.
#[unsafe(no_mangle)]
pub extern "C" fn offload_skb_read(
    alloc: Global,
    skb: &mut KeptSkb,
    at: usize,
    into: &mut [u8],
) -> u32
    ensures read { ReadsFrom at skb.old.skb.value into.old into.new result }
    ensures same { skb.new.skb.value ≡ skb.old.skb.value }
{
    if !skb.made {
        return USAGE;
    }
    let own = replace_with(skb, alloc, skb_taken);
    let code = own.read(at, into);
    replace_with(skb, own, skb_put);
    code
}

/// A second buffer of the same bytes, where there is none yet: no byte is copied, and none of both can be written at
/// its head until it is unshared.
///
/// 0; 2: there is no buffer, or there is a second one already; 5: a block was shared too often, so that it is to be
/// copied; 7: there was no memory. But for 0 there is no second one, and the buffer's bytes are as they were.
#[unsafe(no_mangle)]
pub extern "C" fn offload_skb_clone(alloc: Global, skb: &mut KeptSkb, clone: &mut KeptSkb) -> u32
    ensures cloned { Makes IsCloned skb.old.skb.value clone.old.skb.value skb.new.skb.value clone.new.skb.value result }
{
    if !skb.made {
        return USAGE;
    }
    if clone.made {
        return USAGE;
    }
    let mut own = replace_with(skb, alloc, skb_taken);
    let made = own.clone(alloc);
    replace_with(skb, own, skb_put);
    match made {
        Ok(second) => {
            replace_with(clone, second, skb_put);
            OK
        }
        Err(code) => code,
    }
}

/// A buffer keeps its first `at` bytes, and the rest is another one, where there is none yet: no byte is copied. Its
/// head is a block of the pool that is all headroom.
///
/// 0; 2: there is no pool or no buffer, or there is another one already, or the buffer has fewer bytes; 4: no block is
/// home; 5: a block was shared too often; 7: there was no memory. But for 0 all is as it was.
#[unsafe(no_mangle)]
pub extern "C" fn offload_skb_split_at(
    alloc: Global,
    pool: &mut KeptPool,
    skb: &mut KeptSkb,
    at: usize,
    behind: &mut KeptSkb,
) -> u32
    ensures split { MakesFrom (IsSplit at) pool.old.pool.value skb.old.skb.value behind.old.skb.value
        pool.new.pool.value skb.new.skb.value behind.new.skb.value result }
{
    if !pool.made {
        return USAGE;
    }
    if !skb.made {
        return USAGE;
    }
    if behind.made {
        return USAGE;
    }
    let mut depot = replace_with(pool, alloc, pool_taken);
    let mut own = replace_with(skb, alloc, skb_taken);
    let made = depot.split_at(alloc, &mut own, at);
    replace_with(skb, own, skb_put);
    replace_with(pool, depot, pool_put);
    match made {
        Ok(rest) => {
            replace_with(behind, rest, skb_put);
            OK
        }
        Err(code) => code,
    }
}

/// A buffer of the same bytes in blocks of the pool that nobody else holds, where there is none yet, with headroom 64.
///
/// 0; 2: there is no pool or no buffer, or there is a second one already; 4: fewer blocks are home than it takes, which
/// are ceil((length + 64) / 2048); 7: there was no memory. But for 0 there is no second one, and as many blocks are
/// home.
#[unsafe(no_mangle)]
pub extern "C" fn offload_skb_copy(
    alloc: Global,
    pool: &mut KeptPool,
    skb: &mut KeptSkb,
    copy: &mut KeptSkb,
) -> u32
    ensures copied { MakesOf IsCopied pool.old.pool.value skb.old.skb.value copy.old.skb.value pool.new.pool.value
        skb.new.skb.value copy.new.skb.value result }
{
    if !pool.made {
        return USAGE;
    }
    if !skb.made {
        return USAGE;
    }
    if copy.made {
        return USAGE;
    }
    let mut depot = replace_with(pool, alloc, pool_taken);
    let own = replace_with(skb, alloc, skb_taken);
    let made = depot.copy(alloc, &own);
    replace_with(skb, own, skb_put);
    replace_with(pool, depot, pool_put);
    match made {
        Ok(second) => {
            replace_with(copy, second, skb_put);
            OK
        }
        Err(code) => code,
    }
}

/// Another buffer's bytes stand behind a buffer's, and the other is gone: no byte is copied.
///
/// 0; 2: there is no pool, or not both buffers, or they would have 2^32 bytes; 7: there was no memory. But for 0 all is
/// as it was.
#[unsafe(no_mangle)]
pub extern "C" fn offload_skb_attach(
    alloc: Global,
    pool: &mut KeptPool,
    skb: &mut KeptSkb,
    other: &mut KeptSkb,
) -> u32
    ensures attached { Joins IsAttached pool.old.pool.value skb.old.skb.value other.old.skb.value pool.new.pool.value
        skb.new.skb.value other.new.skb.value result }
{
    if !pool.made {
        return USAGE;
    }
    if !skb.made {
        return USAGE;
    }
    if !other.made {
        return USAGE;
    }
    let mut depot = replace_with(pool, alloc, pool_taken);
    let mut own = replace_with(skb, alloc, skb_taken);
    let second = replace_with(other, alloc, skb_taken);
    let left = depot.attach(alloc, &mut own, second);
    replace_with(skb, own, skb_put);
    replace_with(pool, depot, pool_put);
    match left {
        Ok(()) => OK,
        Err((second, code)) => {
            replace_with(other, second, skb_put);
            code
        }
    }
}
