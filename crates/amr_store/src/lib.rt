//! A checkpoint store over a disk: one problem and two slots for whole states, written in turn, in version 3 each with records
//! behind it. A stop within any write leaves the last state put, or the one being written.
#![tactic(auto)]

mod check;
mod create;
mod create3;
mod device;
mod fields;
mod found;
mod latest;
mod open;
mod part;
mod put;
mod renew;
mod slot;
mod store;

pub use found::Found;
pub use part::{Part, StoreFault};
pub use put::{Closed, Filled};
pub use store::Store;
