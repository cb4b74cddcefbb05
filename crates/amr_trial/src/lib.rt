//! Trials: problems that are drawn from two numbers, so that a run and its answer are told by one line. This crate has the
//! generator, the text of a trial's problem, and the line that a trial prints of a mesh's state.
#![tactic(auto)]

ghost use Rattle.amr_trial.specs.Laws.{BlocksLieInside, CourantNumbersFit, TextsAreAccepted, TextsAreDocuments};
ghost use Rattle.amr_trial.specs.Laws.{TextsAreShort, TextsAreUtf8, TrialsHaveSixteenSteps};

mod digest;
mod fragments;
mod generator;
mod line;
mod problem;

pub use digest::DigestSink;
pub use generator::Generator;
pub use line::summary;
pub use problem::text;

/// The Courant numbers of a trial add up to at most seven eighths.
pub fn courant_numbers_fit()
    ensures { CourantNumbersFit }
{}

/// The blocks of a trial lie in its domain, with masses below 4,096.
pub fn blocks_lie_inside()
    ensures { BlocksLieInside }
{}

/// The text of a trial is UTF-8 of at most 512 bytes, and as TOML it is the defined table.
pub fn texts_are_documents()
    ensures documents { TextsAreDocuments }
    ensures utf8 { TextsAreUtf8 }
    ensures short { TextsAreShort }
{}

/// The judgement accepts the text of a trial as a problem.
pub fn texts_are_accepted()
    ensures { TextsAreAccepted }
{}

/// The problem of a trial has 16 steps, after which its line is told.
pub fn trials_have_sixteen_steps()
    ensures { TrialsHaveSixteenSteps }
{}
