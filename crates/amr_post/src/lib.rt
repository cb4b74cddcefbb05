//! One round of letters over channels: a channel for each rank, with room for all letters to it. All ranks send, are joined, and
//! then receive, so nothing waits for another.
//!
//! - [`RankChannel`]: the letters of a round to one rank, and the channel that they go through. Its memory is taken before the round;
//!   until the round the amounts of shares may be set anew.
//! - [`round`]: the round. Afterwards each rank's node has just the letters to it, all of them.
#![tactic(auto)]

mod amounts;
mod channel;
mod post;
mod ranks;

pub use post::RankChannel;
pub use ranks::{Rank, round};
