//! An allocator for tests, by which each allocation of a call can be made to fail in turn.
use std::alloc::{AllocError, Allocator};
use std::cell::Cell;

/// An allocator that passes each call on to `inner`, but refuses one allocation. A `&` to it is an
/// allocator too, which can be copied.
#[derive(Drop)]
pub struct Refusing<B: Allocator> {
    inner: B,
    /// How many allocations it serves before the one that it refuses; `None` once it has refused.
    left: Cell<Option<u64>>,
}

impl<B: Allocator> Refusing<B> {
    /// Serves `after` allocations, refuses the next one, and serves each later one.
    pub(crate) fn new(inner: B, after: u64) -> Refusing<B> {
        Refusing {
            inner,
            left: Cell::new(Some(after)),
        }
    }

    /// Whether the allocation that it refuses was asked for.
    pub(crate) fn has_refused(&self) -> bool {
        self.left.get().is_none()
    }
}

/// Counts one more allocation, and tells whether it is the one to refuse.
fn is_refused(left: &Cell<Option<u64>>) -> bool {
    match left.get() {
        Some(0) => {
            left.set(None);
            true
        }
        Some(more) => {
            left.set(Some(more - 1));
            false
        }
        None => false,
    }
}

unsafe impl<B: Allocator> Allocator for Refusing<B> {
    ghost dealloc_token = { λ heap ty ptr. B.dealloc_token heap.inner ty ptr };

    fn allocate(&self, size: usize, align: usize) -> Result<*mut u8, AllocError> {
        if is_refused(&self.left) {
            return Err(AllocError);
        }
        self.inner.allocate(size, align)
    }

    unsafe fn deallocate(&self, ptr: *mut u8, size: usize, align: usize) {
        self.inner.deallocate(ptr, size, align);
    }
}
