//! Masses between a level and the next finer one (Berger and Colella 1989; AMReX: interpolation and `average_down`).
//!
//! - [`split_into`]: the masses of a level that is made anew: kept where it had the cell, else shared out of the parent's.
//! - [`split_by`]: the same, by the calling thread alone ([`CallingThread`]) or in several threads ([`InThreads`]).
//! - [`sum_up`]: the masses of covered cells, as the sums of their children.
//! - [`cover_patch`]: the same for one coarse patch, so that workers can each give the sums to patches of their own.
//! - [`share_row`], [`reaching`]: a row of child shares, and the patches that may reach a box.
//!
//! None takes memory. All go by rows of patches: a span of cells over one patch of the other level is one look-up.
#![tactic(auto)]

mod cells;
mod covered;
mod new_masses;
mod old_cells;
mod spans;
mod sums;
mod threads;
mod windows;

pub use covered::cover_patch;
pub use new_masses::{share_row, split_by, split_into};
pub use sums::sum_up;
pub use threads::{CallingThread, InThreads, Sharing};
pub use windows::reaching;
