//! Flux registers (Berger and Colella 1989; AMReX's `FluxRegister`): what corrects the step of a level beside the cells
//! that a finer level covers. So each unit of mass that the finer faces carried is accounted for.
//!
//! A [`Register`] has an entry for each register cell, a cell that is not covered beside one that is. It also has a list of
//! them for each patch of the level, as [`EdgeCell`]s, each with its number in the register. So a step goes patch by patch, and
//! looks no cell up. The coarse step works out what flows into them through the coarse-fine edges by the values of their patch
//! ([`find_nets_of_all`]), and takes it away from the entries
//! ([`Register::take_nets`]). What flowed through the finer faces there is added ([`Register::absorb`]). In the end each entry
//! is added to its cell ([`Register::reflux`], or [`Register::reflux_patch`] for one patch). [`Register::clear`] makes it ready for
//! the next step.
//!
//! [`Register::coarse_part`] is the same by owners of faces: what one patch takes away.
#![tactic(auto)]

mod bands;
mod bars;
mod belts;
mod beside;
mod cells;
mod cover;
mod edge_lists;
mod edges;
mod flows;
mod laws;
mod order;
mod pair;
mod reflux;
mod register;
mod sides;

pub use edges::{EdgeCell, find_nets_of_all};
pub use laws::{edges_are_taken_once, registers_go_by_cells};
pub use register::Register;
