//! Patches of cells with their ghost cells and fluxes (BoxLib's FABs), the levels that they make up, and the mesh of a state.
//!
//! - [`Patch`]: the masses of a box of cells, a frame of ghost cells round it, and the fluxes through its faces, each a flat
//!   list row by row, all in one box ([`PatchData`]).
//! - [`order_of`], [`find`]: which of several patches has a cell, with no look at most of them.
//! - [`starts_of`], [`gap_from`]: boxes of cells that no patch has, so that one search serves all such cells that stand side by side.
//! - [`Level`]: boxes, and the patches that hold the masses of their cells.
//! - [`Mesh`]: the step, the rows of the ledger and the levels.
#![tactic(auto)]

mod box_rows;
mod copies;
mod gaps;
mod level_copies;
mod levels;
mod lists;
mod lookup;
mod meshes;
mod patches;
mod places;

pub use amr_def::Row;
pub use box_rows::{cell_in, masses_from};
pub use gaps::{Starts, gap_from, is_in_gap, starts_of};
pub use levels::Level;
pub use lookup::{Order, find, find_near, mass_at, order_of, reach_of};
pub use meshes::Mesh;
pub use patches::{Patch, PatchData};
