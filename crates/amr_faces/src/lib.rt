//! The faces of a patch: what flows through one, and in which order those at its high side go.
//!
//! - [`face_flux`]: the flux through one face of a patch's cells, by the values on its two sides.
//! - [`Share`]: how much of a mass flows out of a cell, by products in place of a division.
//! - [`x_end`], [`y_end`]: the faces at the high ends of a box's rows and columns. Where sizes are handed in for some of them, the
//!   specification lists these as the x faces by y, then the y faces by x.
#![tactic(auto)]

mod ends;
mod one_face;
mod share;

pub use crate::ends::{x_end, y_end};
pub use crate::one_face::{face_flux, first_share};
pub use crate::share::{Factors, Share, are_near};
