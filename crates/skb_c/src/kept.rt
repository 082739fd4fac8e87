//! Pools and buffers in the structs of C, and out of them.
ghost use Rattle.std.specs.Prelude.{◌≡◌, true, Some, None};
ghost use Rattle.skb_c.specs.Held.{is_made};

use crate::buffer::Buffer;
use crate::depot::Depot;
use crate::handle::{PoolHandle, SkbHandle};
use on_heap::OnHeap;
use std::alloc::Global;

/// A pool, or none: what C has filled with zeros.
#[repr(C)]
#[derive(Drop)]
pub struct KeptPool {
    pub pool: PoolHandle,
    pub made: bool,
    ghost same: { made ≡ is_made pool.value },
}

/// A buffer, or none: what C has filled with zeros.
#[repr(C)]
#[derive(Drop)]
pub struct KeptSkb {
    pub skb: SkbHandle,
    pub made: bool,
    ghost same: { made ≡ is_made skb.value },
}

/// The pool out of its place.
pub(crate) fn pool_taken(kept: KeptPool, alloc: Global) -> (KeptPool, Box<Depot, Global>)
    requires made { kept.made ≡ true }
    ensures same { kept.pool.value ≡ Some result.1.value }
    ensures none { result.0.pool.value ≡ None }
{
    let KeptPool { pool, made: _ } = kept;
    let own = pool.unseal().into_box(alloc);
    let none = KeptPool {
        pool: PoolHandle::none(),
        made: false,
    };
    (none, own)
}

/// A pool into its place, where there is none.
pub(crate) fn pool_put(kept: KeptPool, own: Box<Depot, Global>) -> (KeptPool, ())
    ensures same { result.0.pool.value ≡ Some own.value }
{
    let _ = kept;
    let pool = PoolHandle::seal(OnHeap::of(own));
    (KeptPool { pool, made: true }, ())
}

/// The buffer out of its place.
pub(crate) fn skb_taken(kept: KeptSkb, alloc: Global) -> (KeptSkb, Box<Buffer, Global>)
    requires made { kept.made ≡ true }
    ensures same { kept.skb.value ≡ Some result.1.value }
    ensures none { result.0.skb.value ≡ None }
{
    let KeptSkb { skb, made: _ } = kept;
    let own = skb.unseal().into_box(alloc);
    let none = KeptSkb {
        skb: SkbHandle::none(),
        made: false,
    };
    (none, own)
}

/// A buffer into its place, where there is none.
pub(crate) fn skb_put(kept: KeptSkb, own: Box<Buffer, Global>) -> (KeptSkb, ())
    ensures same { result.0.skb.value ≡ Some own.value }
{
    let _ = kept;
    let skb = SkbHandle::seal(OnHeap::of(own));
    (KeptSkb { skb, made: true }, ())
}
