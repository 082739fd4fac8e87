//! A box as its address, so that C can hold what it owns.
ghost use Rattle.std.specs.Prelude.{◌≡◌};

use std::alloc::Global;
use std::marker::Model;

/// A value in the memory of a box, by its address.
pub struct OnHeap<T> {
    pub at: *mut T,
    pub ghost value: { T },
}

impl<T> Model for OnHeap<T> {
    ghost use Rattle.on_heap.specs.Heap.{heap_owns};

    ghost also_owns = { λ h. heap_owns T.row h.at h.value };
}

impl<T: Drop> OnHeap<T> {
    /// The box gives its memory up.
    pub fn of(value: Box<T, Global>) -> OnHeap<T>
        ensures same { result.value ≡ value.value }
    {
        OnHeap {
            at: Box::into_raw(value),
        }
    }

    /// The box again.
    pub fn into_box(self, alloc: Global) -> Box<T, Global>
        ensures same { result.value ≡ self.value }
    {
        let OnHeap { at } = self;
        unsafe { Box::from_raw(alloc, at) }
    }
}
