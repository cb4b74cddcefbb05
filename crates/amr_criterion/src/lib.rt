//! The criterion of refinement: which cells of a level differ so much from a neighbour that they are to be refined (the tags of
//! Berger and Colella 1989).
//!
//! - [`tags`]: the tagged cells of a level, as rows of bits.
#![tactic(auto)]

mod firsts;
mod level;
mod pair_rows;
mod patches;
mod spread;

pub use level::tags;
