//! The program as one call: from words and the bytes of a problem to the answer of a command, or to a refusal.
#![tactic(auto)]

mod batch;
mod checkpoints;
mod commands;
mod keeper;
mod laws;
mod line;
mod message;
mod run;
mod source;
mod status;
mod views;

pub use laws::replies_stand_alone;
pub use run::{amr, amr_gated};
pub use status::Status;
pub use views::ViewPart;
