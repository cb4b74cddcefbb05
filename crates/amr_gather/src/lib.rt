//! The second round of a step by ranks: each rank's totals, word by word, go to rank 0 as shares in a letter, and are added up there.
//!
//! - [`Gather`]: the totals of all ranks. Its memory is taken before the step, the totals are set after it, and one round over channels
//!   brings their sums.
#![tactic(auto)]

mod gather;

pub use gather::Gather;
