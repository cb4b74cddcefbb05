//! Proper nesting (Berger and Colella 1989): a finer level lies at least one cell inside the next coarser one, but at the
//! physical boundary.
//!
//! - `project`: the cells that have to be covered so that the boxes two levels above are nested.
//! - `nested`: whether the boxes of a level are nested in those of the next coarser level.
//! - `domain_box`: the domain of a level as a box.
#![tactic(auto)]

mod containment;
mod projection;
mod reach;

pub use containment::nested;
pub use projection::project;
pub use reach::domain_box;
