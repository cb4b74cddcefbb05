//! Subcycling in time (Berger and Colella 1989): a step of a state, level by level. After its own step with plain fluxes a level's
//! next finer one makes two, with the masses of before at its coarse-fine edges. Then the level's flux register corrects the cells
//! beside finer ones, and covered cells become the sums of their children.
#![tactic(auto)]

mod context;
mod correction;
mod kept;
mod levels;
mod steps;

pub use kept::Kept;
pub use steps::{step, step_kept};
