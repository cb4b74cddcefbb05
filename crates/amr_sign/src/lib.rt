//! Signatures of sets of tagged cells, and where to cut a box by them (Berger and Rigoutsos, "An algorithm for point
//! clustering and grid generation", 1991).
//!
//! - `signature`, `signature_bits`: how many cells of a set stand in each column or row of a box. The set is given as
//!   rows of truth values, or as rows of bits, which are counted by whole words.
//! - `both_signatures`: those of the columns and of the rows at once, by one look at each word.
//! - `best_cut`: where to cut a box in two by its signatures along both axes.
#![tactic(auto)]

mod both;
mod cuts;
mod rows;
mod stretches;
mod words;

pub use crate::both::{Signatures, both_signatures};
pub use crate::cuts::{Cut, best_cut};
pub use crate::rows::signature;
pub use crate::words::signature_bits;
