//! Which ranks own the patches of a level, by shares of their areas: each patch is of one rank. The patches, and the lists beside
//! them, are handed to the ranks for a step, each rank's in a list of its own, and afterwards taken back.
//!
//! - [`make`]: the numbers of the patches that each rank owns.
//! - [`exchange`]: items handed to all ranks, or taken back; [`trade`]: those of one.
//! - [`ranks_of`]: the rank of each item.
//! - [`of_all_owners`]: laws.
#![tactic(auto)]

mod laws;
mod owners;
mod ranks;
mod trades;

pub use laws::of_all_owners;
pub use owners::make;
pub use ranks::ranks_of;
pub use trades::{exchange, trade};
