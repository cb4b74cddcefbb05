//! What `amr` computes: the definitions of block-structured adaptive mesh refinement, and the
//! problems that they speak of.
//!
//! The definitions stand in `specs/`, from the cells of a level to a whole run, and the calls of the
//! other crates cite them. Here stand the types that code and definitions share.
#![tactic(auto)]

mod axis;
mod domain;
pub mod laws;
mod lists;
mod problem;

pub use axis::{is_inside, wrapped};
pub use domain::Dom;
pub use lists::{Blocks, Name, Shear, Thresholds};
pub use problem::{Block, Problem, Row, Sides};
