//! Levels on the same boxes: lists of boxes and patches compared, and the masses of one level copied into another.
#![tactic(auto)]

mod boxes;
mod copies;
mod patches;

pub use boxes::are_same;
pub use copies::{copy_masses, copy_patches};
pub use patches::{boxes_of, have_boxes, have_same_boxes};
