//! The worked examples of the definitions: theorems of `proofs/` that hold by computing, one module a subject. `Examples` has the
//! problems and states that they are about.
//!
//! Nothing stands on this crate, so that no crate waits for it.
#![tactic(auto)]

ghost use Rattle.std.specs.Prelude.{◌≡◌, pos};
ghost use Rattle.amr_def.specs.Flux.{flow};

/// The least example: of a mass of 9 a quarter flows on, rounded down.
pub fn a_quarter_of_nine_flows()
    ensures { flow (pos 1) 4 9 0 ≡ pos 2 }
{}
