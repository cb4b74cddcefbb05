//! What contracts say of faults and of bytes that pass from one object to another, and the refusal that allocation failed.
//! Sources, sinks, disks and all that stand on them speak of the same ones.
//!
//! - `specs/Causes.antt`: a fault is answered only where the object's count of faults rose.
//! - `specs/Bytes.antt`: the bytes that a sink holds grow, those that a source has left shrink from the front.
//! - `proofs/CauseLaws.antt`, `proofs/ByteLaws.antt`: these in turn, over several calls.
#![tactic(auto)]

mod no_memory;

pub use no_memory::NoMemory;
