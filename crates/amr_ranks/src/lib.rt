//! Ranks that tell each other by letters: what each has of the letters that reached it, in any order and as often as they come.
//!
//! A letter carries cells of frames and shares of totals. A node has the letters of one rank: each number counts once, so its
//! cells are those of the letters that it has taken, and its totals the sums of their shares. The net is the pure machine of
//! posts and deliveries that ranks over channels are proved to be.
#![tactic(auto)]

mod item;
mod laws;
mod letter;
mod net;
mod node;
mod parts;

pub use item::{FrameCell, Item};
pub use laws::every_list_of_events;
pub use letter::Letter;
pub use net::{Net, NetEvent};
pub use node::{Node, Taken};
