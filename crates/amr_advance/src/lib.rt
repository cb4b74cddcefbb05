//! A step of a level by workers (Berger and Colella 1989: the integration of the grids of one level). The level's patches are in lots, runs of
//! them in their order, as many as workers are invited. A step is a phase of a board: each lot is the piece of a task that a worker draws,
//! takes, works on and gives back. What flows through the faces between lots goes over the board, and so do the sums for the ledger and for
//! the flux register of the next coarser level. Where one lot is all of the level, its step is the same without a board.
#![tactic(auto)]

mod before;
mod correction;
mod crew;
mod kept_layout;
mod level;
mod lots;
mod outer;
mod phases;
mod registers;
mod steps;
mod totals;
mod workspaces;

pub use before::keep_masses;
pub use correction::correct_kept;
pub use crew::{Crew, Workers};
pub use kept_layout::{KeptLayout, Stale, forget, layout_for};
pub use level::{StepInput, give_up, open_step, ready_lots, run_opened, take_from_lots};
pub use lots::{Lots, is_one, lots_of};
pub use registers::Regs;
pub use steps::{advance, advance_kept};
