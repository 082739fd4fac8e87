//! The addresses of a pool and of a buffer, as C holds them.
ghost use Rattle.std.specs.Prelude.{◌≡◌, Option, Some, None, IsSome};
ghost use Rattle.block_pool.specs.PoolState.{PoolState};
ghost use Rattle.skb.specs.SkbState.{SkbState};

use crate::buffer::Buffer;
use crate::depot::Depot;
use on_heap::OnHeap;
use std::marker::Model;

/// A pool by its address, or none. What it drops it forgets.
#[repr(C)]
#[derive(Drop)]
pub struct PoolHandle {
    at: *mut u8,
    pub(crate) ghost value: { Option PoolState },
}

impl Model for PoolHandle {
    ghost use Rattle.skb_c.specs.contracts.depot.Depot as depot;
    ghost use Rattle.on_heap.specs.Heap.{heap_owns_any};

    ghost also_owns = { λ h. heap_owns_any depot.the_row h.at h.value };
}

impl PoolHandle {
    pub(crate) fn seal(heap: OnHeap<Depot>) -> PoolHandle
        ensures same { result.value ≡ Some heap.value }
    {
        let OnHeap { at } = heap;
        PoolHandle { at: at as *mut u8 }
    }

    pub(crate) fn unseal(self) -> OnHeap<Depot>
        requires made { IsSome self.value }
        ensures same { self.value ≡ Some result.value }
    {
        let PoolHandle { at } = self;
        OnHeap {
            at: at as *mut Depot,
        }
    }

    pub(crate) fn none() -> PoolHandle
        ensures none { result.value ≡ None }
    {
        PoolHandle {
            at: std::ptr::null_mut(),
        }
    }
}

/// A buffer by its address, or none. What it drops it forgets.
#[repr(C)]
#[derive(Drop)]
pub struct SkbHandle {
    at: *mut u8,
    pub(crate) ghost value: { Option SkbState },
}

impl Model for SkbHandle {
    ghost use Rattle.skb_c.specs.contracts.buffer.Buffer as buffer;
    ghost use Rattle.on_heap.specs.Heap.{heap_owns_any};

    ghost also_owns = { λ h. heap_owns_any buffer.the_row h.at h.value };
}

impl SkbHandle {
    pub(crate) fn seal(heap: OnHeap<Buffer>) -> SkbHandle
        ensures same { result.value ≡ Some heap.value }
    {
        let OnHeap { at } = heap;
        SkbHandle { at: at as *mut u8 }
    }

    pub(crate) fn unseal(self) -> OnHeap<Buffer>
        requires made { IsSome self.value }
        ensures same { self.value ≡ Some result.value }
    {
        let SkbHandle { at } = self;
        OnHeap {
            at: at as *mut Buffer,
        }
    }

    pub(crate) fn none() -> SkbHandle
        ensures none { result.value ≡ None }
    {
        SkbHandle {
            at: std::ptr::null_mut(),
        }
    }
}

unsafe impl Send for PoolHandle {}

unsafe impl Send for SkbHandle {}
