//! An allocator of the tests that refuses the Nth request.
//!
//! Its counters are atomics, about whose contents no clause can speak: the tests show that the
//! right request is refused. What is proved is that a block which it hands out is one of the inner
//! allocator's, as large as was asked for, and goes back there with that size and never twice.

use crate::ration::Ration;
use std::alloc::{AllocError, Allocator};

/// An allocator that passes requests on to an inner one, counts them, and refuses the one that it
/// is armed for. Collections hold it by reference, as a `&Rationed<Global>`, also in several
/// threads. A growth or a shrinking is one request, and a block that is given back is none.
#[derive(Drop)]
pub struct Rationed<B: Allocator> {
    inner: B,
    ration: Ration,
}

impl<B: Allocator> Rationed<B> {
    /// An allocator over `inner` that refuses nothing yet.
    pub fn new(inner: B) -> Self {
        Rationed {
            inner,
            ration: Ration::new(),
        }
    }

    /// Arms it from now on, while no other thread makes a request: of the requests that follow,
    /// only request `number` is refused. The first is number 1, and at 0 none is refused.
    pub fn refuse(&self, number: u64) {
        self.ration.set(number);
    }

    /// The number of requests, the refused one among them, since it was armed, or made.
    pub fn asked(&self) -> u64 {
        self.ration.asked()
    }

    /// Whether the request that it is armed for was made.
    pub fn has_refused(&self) -> bool {
        self.ration.has_refused()
    }
}

unsafe impl<B: Allocator> Allocator for Rationed<B> {
    ghost dealloc_token = { λ heap ty ptr. B.dealloc_token heap.inner ty ptr };

    fn allocate(&self, size: usize, align: usize) -> Result<*mut u8, AllocError> {
        if self.ration.refuses() {
            return Err(AllocError);
        }
        self.inner.allocate(size, align)
    }

    unsafe fn deallocate(&self, ptr: *mut u8, size: usize, align: usize) {
        self.inner.deallocate(ptr, size, align);
    }
}
