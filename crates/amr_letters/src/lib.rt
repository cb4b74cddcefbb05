//! Frames of patches that ranks tell each other of by letters.
//!
//! - [`beside_count`], [`beside_cell`]: the slots of a frame, which are the ghost cells beside a box, one after another.
//! - [`cells_beside_a_box`]: each of them has one slot.
//! - [`fill_frame`], [`fill_frames`]: the frame of a patch, and those of all patches of a level, filled from what nodes have.
//! - [`bring_frames`]: one round of letters between ranks, after which the frames of all patches of a level are filled.
#![tactic(auto)]

mod beside;
mod bring;
mod fill;
mod items;
mod laws;
mod levels;
mod owned;

pub use beside::{beside_cell, beside_count};
pub use bring::bring_frames;
pub use fill::{fill_frame, fill_frames};
pub use laws::cells_beside_a_box;
