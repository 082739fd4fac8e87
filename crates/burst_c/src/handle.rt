//! The address of an engine, as C holds it.
ghost use Rattle.std.specs.Prelude.{◌≡◌, Option, Some, None, IsSome};
ghost use Rattle.frame_bursts.specs.declared.kept.BurstEngine.{BurstEngine as EngineOf};

use frame_bursts::BurstEngine;
use on_heap::OnHeap;
use std::marker::Model;

/// An engine by its address, or none. What it drops it forgets.
#[repr(C)]
#[derive(Drop)]
pub struct Handle {
    at: *mut u8,
    pub(crate) ghost value: { Option EngineOf },
}

impl Model for Handle {
    ghost use Rattle.frame_bursts.specs.contracts.kept.BurstEngine as engine;
    ghost use Rattle.on_heap.specs.Heap.{heap_owns_any};

    ghost also_owns = { λ h. heap_owns_any engine.the_row h.at h.value };
}

impl Handle {
    pub(crate) fn seal(heap: OnHeap<BurstEngine>) -> Handle
        ensures same { result.value ≡ Some heap.value }
    {
        let OnHeap { at } = heap;
        Handle { at: at as *mut u8 }
    }

    pub(crate) fn unseal(self) -> OnHeap<BurstEngine>
        requires made { IsSome self.value }
        ensures same { self.value ≡ Some result.value }
    {
        let Handle { at } = self;
        OnHeap {
            at: at as *mut BurstEngine,
        }
    }

    pub(crate) fn none() -> Handle
        ensures none { result.value ≡ None }
    {
        Handle {
            at: std::ptr::null_mut(),
        }
    }
}

unsafe impl Send for Handle {}
