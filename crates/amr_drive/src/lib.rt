//! Runs of a problem with any number of levels: their start, their steps, and what is called after each step.
//!
//! - [`start`]: the start of a run, with its finer levels.
//! - [`drive`]: the steps up to a given one, with the regrids that are due.
//! - [`Flock`]: the meshes of all species of a problem, from the start of their run; [`drive_all`]: their steps up to a given one.
//! - [`start_holds_tags`] and [`run_holds_tags`]: laws of the regrids in both.
//! - [`AfterStep`]: what is called after each step, and [`Nothing`], which does nothing.
#![tactic(auto)]

mod after;
mod drives;
mod flocks;
mod intervals;
mod lanes;
mod laws;
mod nexts;
mod species;
mod starts;
mod teams;
mod together;

pub use after::{AfterStep, Nothing};
pub use drives::{DriveFault, drive};
pub use flocks::Flock;
pub use laws::{run_holds_tags, start_holds_tags};
pub use starts::start;
pub use together::drive_all;
