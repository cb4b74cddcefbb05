//! A step of a state as plainly as its definition reads. Levels are ordered maps, and each flux is worked out
//! anew where it is used: beside a covered cell, from fresh steps of the finer levels. It is there to be
//! compared with, and slow; no program calls it.
#![tactic(auto)]

mod advance;
mod faces;
mod ledger;
mod value;

pub use advance::slow_step;
use amr_box::{Bx, Cell};
use amr_def::Row;
pub use ledger::total_mass;
use std::collections::BTreeMap;
pub use value::{Masses, columns, mass_in, rows, value_at};

/// A level: its boxes, in order, and the masses of their cells.
#[derive(Drop)]
pub struct PlainLevel {
    pub boxes: Vec<Bx>,
    pub masses: BTreeMap<Cell, u64>,
}

/// A state as ordered maps.
#[derive(Drop)]
pub struct Plain {
    /// How many steps of level 0 were made.
    pub step: u32,
    /// The ledger, a row for each step and one for the start.
    pub rows: Vec<Row>,
    /// The levels, the coarsest first.
    pub levels: Vec<PlainLevel>,
}
