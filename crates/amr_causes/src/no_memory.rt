//! The refusal that allocation failed.

use std::alloc::{AllocError, AllocFailed};

/// Out of memory. No contract ties it to an allocation that failed: a call that takes memory may always answer it.
#[derive(Clone, Copy, Debug, PartialEq, Eq, Drop)]
pub struct NoMemory;

impl From<AllocError> for NoMemory {
    fn from(_: AllocError) -> Self {
        NoMemory
    }
}

impl<T: Drop> From<AllocFailed<T>> for NoMemory {
    fn from(_: AllocFailed<T>) -> Self {
        NoMemory
    }
}
