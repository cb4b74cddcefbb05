//! Why a store is not gone on with, or not shown.
use amr_store::Part;

/// What is stored refuses a run, or has nothing to show. The causes stand in the order in which they are looked for.
#[derive(Clone, Copy, Debug, PartialEq, Eq, Drop)]
pub enum Refusal {
    /// A part of the store is damaged, the first one found.
    Damaged(Part),
    /// The store holds another problem.
    WrongProblem {
        /// How many bytes the stored problem has.
        kept: u64,
        /// How many bytes the problem of the run has.
        given: u64,
        /// The first place, from 0, at which they differ.
        place: u64,
    },
    /// The stored state is past the step that the run is to go to.
    Ahead {
        /// The step of the stored state.
        stored: u32,
        /// The step that the run is to go to.
        target: u32,
    },
    /// No state is stored.
    Empty,
}
