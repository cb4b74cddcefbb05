//! Batches of problems: their bytes as a list of jobs, and each job solved in isolation, several at once.
//!
//! - [`jobs`]: where the jobs of a batch stand in its bytes.
//! - [`run_all`]: the reply of each job, by what solves one ([`Solve`]).
//! - [`put_answer`]: the replies ([`Reply`]) in order, and the end.
//!
//! The definitions stand in `specs/Batch` and `specs/Answer`, and the laws in `specs/Laws`: each is what a call with an empty body ensures.
#![tactic(auto)]

ghost use Rattle.amr_batch.specs.Laws.{HasOnePlace, HasOneReading, IsOneOrTheOther, RepliesStandAlone};

mod answer;
mod numeral;
mod replies;
mod spans;

pub use answer::{Reply, put_answer};
pub use replies::{Solve, run_all};
pub use spans::{JobsFault, Span, jobs};

/// Bytes are a batch of one list of jobs; or they are malformed, at one place; and not both.
pub fn batches_are_read_in_one_way()
    ensures one_reading { HasOneReading }
    ensures one_or_the_other { IsOneOrTheOther }
    ensures one_place { HasOnePlace }
{}

/// Where a job may have one reply only, it has the same reply in every batch that has the job, whatever jobs stand beside it and
/// however many workers solve them.
pub fn replies_stand_alone<S: Solve>()
    ensures { RepliesStandAlone S.answers }
{}
