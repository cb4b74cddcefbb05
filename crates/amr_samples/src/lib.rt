//! Problems, levels and a gate that several crates of tests share. No program calls them.
//!
//! - [`ring_of`]: the problem of a [`Sample`], by which all others are made.
//! - [`problem`]: a problem of two levels, where all that a cell has flows one column on in a step.
//! - [`ring`]: such a ring of 4 by 2 cells, with [`whole_box`] on level 0 and [`fine_box`] on level 1.
//! - [`nine_columns`]: a ring of one level in three patches.
//! - [`Turnstile`]: a gate that holds the first task until another one is done.
#![tactic(auto)]

mod problems;
mod rings;
mod turnstile;

pub use problems::{RING, Sample, nine_columns, problem, ring_of};
pub use rings::{empty_level, fine_box, ring, whole_box};
pub use turnstile::Turnstile;
