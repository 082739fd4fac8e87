//! A value in the memory of a box, by its address: what C can hold of it.
//!
//! `OnHeap::of` takes the memory out of a box, and `into_box` makes the box again; the value stays what it is (`same`).
//! What the address owns says `heap_owns` of `specs/Heap.antt`, and `heap_owns_any` the same where there may be none.
//! Both calls are proved by hand. `proofs/Fields.antt` has what a handle of C proves with, `proofs/Sent.antt` that
//! such a value may go to another thread.
//!
//! ```
//! let held = OnHeap::of(Box::new(alloc, 7)?);
//! let seven = Box::into_inner(held.into_box(alloc)); // 7
//! ```
//!
//! Tests: `buffer_tests`, module `examples`.
#![tactic(auto)]

mod heap;

pub use heap::OnHeap;
