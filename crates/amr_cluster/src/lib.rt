//! Boxes round tagged cells (Berger and Rigoutsos, "An algorithm for point clustering and grid generation", 1991).
//!
//! - `cluster`: the boxes round the tags of a level.
//! - `clusters_are_sound`, `cluster_is_recursive`: what holds of the boxes of every set, as laws.
//! - `tags_grow_as_defined`: tags over the domain of a level grow as the level's definition has it, as a law.
#![tactic(auto)]

mod boxes;
mod cut_boxes;
mod laws;
mod parts;

pub use boxes::cluster;
pub use laws::{cluster_is_recursive, clusters_are_sound, tags_grow_as_defined};
