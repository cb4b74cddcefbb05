//! The step of one patch: donor-cell fluxes through the faces on its edges, and the new masses of its cells.
//!
//! - [`sweep`]: the fluxes through the faces on some sides of a patch that it owns.
//! - [`update_alone`]: the new masses, in one pass row by row; what flows inside is worked out and used there, and kept nowhere.
//! - [`update_by`]: the same, where what flows through some border faces is handed in.
#![tactic(auto)]

mod columns;
mod exchanges;
mod fluxes;
mod masses;
mod one_pass;
mod pace;
mod patch_steps;
mod room;
mod row_steps;
mod rows;
mod shape;
mod tables;
mod update_rows;
mod x_faces;
mod y_faces;

pub use crate::fluxes::{PatchSides, sweep};
pub use crate::masses::{update_alone, update_by};
pub use crate::room::Room;
