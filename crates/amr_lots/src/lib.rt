//! The work on the patches of a level in lots, each a run of them that one worker works on: the piece of a task, and what a worker does with
//! it. Where one lot is all of the level a worker makes its step without a board ([`step_alone`]).
//! (Berger and Colella 1989: the integration of the grids of one level)
#![tactic(auto)]

mod alone;
mod border;
mod counts;
mod delivery;
mod duties;
mod exchange;
mod finished;
mod frames;
mod job;
mod lot;
mod patches;
mod sweep;

pub use alone::step_alone;
pub use border::finish;
pub use counts::{lot_count, lot_size};
pub use delivery::exchange_messages;
pub use duties::serve;
pub use exchange::{exchange_before, exchange_edges, exchange_runs};
pub use finished::complete;
pub use frames::fill_lot;
pub use job::LevelWork;
pub use lot::{Correction, Duty, Lot, LotStage, StepBasis, Work, Workspace};
pub use patches::sides_of;
