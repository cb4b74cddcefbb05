//! The judgement of problem bytes: the problem that they are, or the first fault of the table of faults that they have.
//!
//! - `specs/Keys.antt`: the table of keys.
//! - `specs/Values.antt`: the values of a document, each read by the kind of its key.
//! - `specs/Faults.antt`: the faults, in the order in which they are looked for.
//! - `specs/Judgement.antt`: the fault of bytes, and the problem that they are.
//! - `specs/Laws.antt`: that bytes without a fault are exactly one problem.
#![tactic(auto)]

mod checks;
mod document;
mod entries;
mod fault;
mod judgement;
mod key;
mod key_text;
mod kinds;
mod laws;
mod limits;
mod problem;
mod range;
mod ranges;
mod values;

pub use fault::{JudgeFault, ProblemFault};
pub use judgement::judge;
pub use key::Key;
pub use key_text::KeyText;
pub use laws::{bytes_are_one_problem, clean_bytes_are_a_problem};
