//! The layout of a level's step on a board: which patch puts and reads which border face, and what it adds to which word.
//!
//! It depends on boxes alone, so one serves each step until the next regrid.
#![tactic(auto)]

mod adds;
mod faces;
mod in_threads;
mod layouts;
mod level_flows;
mod lookup;
mod parts;
mod places;
mod registers;
mod stretches;

pub use crate::adds::Surroundings;
pub use crate::in_threads::plan_adds_in_threads;
pub use crate::layouts::plan;
pub use crate::level_flows::{LevelFlows, plan_adds};
pub use crate::parts::{RunFlows, flows_of_part};
use amr_box::Face;

/// A put: the size of the flux through a face goes to a place.
#[derive(Clone, Copy, Debug, PartialEq, Eq)]
pub struct PutAt {
    pub place: u32,
    /// The face at the low side of a cell of the patch.
    pub face: Face,
}

/// What flows through a face on a patch's edges is added to a word.
#[derive(Clone, Copy)]
pub struct FlowTo {
    pub word: u32,
    pub face: Face,
}

/// What a patch puts and reads in the step of its level.
#[derive(Drop)]
pub struct PatchLayout {
    /// Its puts: of the faces at the low side of its cells that patches of other groups read, by their places.
    pub puts: Vec<PutAt>,
    /// The places of the border faces that it reads from other groups, in the order in which `amr_flux::update_by` takes them.
    pub border: Vec<u32>,
    /// Which ghost cells lie beyond these faces, in the places of the patch's marks. It is empty where the patch reads none.
    pub mask: Vec<bool>,
}

/// The places of a level's board, numbered from 0, and what each patch puts and reads.
#[derive(Drop)]
pub struct Layout {
    /// How many border faces lie between groups: a place for each.
    pub places: u32,
    /// By patch.
    pub patches: Vec<PatchLayout>,
}
