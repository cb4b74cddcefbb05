//! Workers in threads that draw the tasks of a board until none is left. (profile)
#![tactic(auto)]

mod asked;
mod gate;
mod helper;
mod job;
mod kept_worker;
mod order;
mod phase;
mod shared;
mod shares;
mod team;

pub use asked::Asked;
pub use gate::{Gate, OpenGate};
pub use helper::{Helper, Recruit};
pub use job::Job;
pub use kept_worker::serve_all;
pub use order::{DrawErrand, DrawOrder, OrderAsker, OrderBox, OrderWorker, WorkerSetup};
pub use phase::run_phase;
pub use shared::sole;
pub use team::Team;
