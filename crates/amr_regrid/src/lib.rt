//! Regrids (Berger and Colella 1989): new boxes above level 0, which cover the tags of a mesh and are nested. The
//! masses of their cells are kept or shared out. Meshes of several species share their boxes.
//!
//! - [`regrid_all`]: meshes of several species regridded, by the tags of all of them.
//! - [`regrid_all_in_threads`]: the same, with the masses shared out among threads.
//! - [`regrid`] and [`regrid_in_threads`]: the same of one mesh.
#![tactic(auto)]

mod blocks;
mod boxes;
mod masses;
mod plans;
mod regrids;

pub use regrids::{regrid, regrid_all, regrid_all_in_threads, regrid_in_threads};
