//! Checkpoints as a program has them: what an image of the store's file holds for it, how a run goes on from there, and what it puts.
//!
//! - `specs/Contents.antt`: what an image holds, over the readings of `amr_store`; how far it has come; which of it a run reaches.
//! - `specs/Marks.antt`: the steps at which a checkpoint is put, what a run makes of a store, and the answers.
//! - `specs/Refusals.antt`: why a run does not go on, why nothing is shown, and the texts.
//! - `specs/Times.antt`: a stop at any moment of a run.
//! - `specs/Made.antt`: the bytes of a disk after calls that make a store or put a state, each whole.
//! - `specs/Kept.antt`: which checkpoints of a run stand, what was said of them, and what a stop leaves.
//! - `specs/Laws.antt`: laws of these, each of which a call with an empty body ensures.
#![tactic(auto)]

mod acknowledgement;
mod checkpoint;
mod contents;
mod difference;
mod exchange;
mod faults;
mod latest;
mod laws;
mod lines;
mod marks;
mod refusal;
mod resumption;

pub use acknowledgement::{Keeping, keep_state};
pub use checkpoint::{KeptStore, make_store, put_checkpoint};
pub use contents::{Checkpoint, read_checkpoint};
pub use difference::first_difference;
pub use faults::{CheckpointFault, KeepFault, ResumeFault};
pub use laws::{
    checkpoints_rise, image_holds_one, run_goes_on_or_is_refused, same_run, stops_leave_the_run,
    stored_state_is_sound, what_is_made_is_held,
};
pub use lines::{put_checkpoint_line, put_refusal};
pub use marks::is_mark;
pub use refusal::Refusal;
pub use resumption::{Resumed, Shown, resume, show};
