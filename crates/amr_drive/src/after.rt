//! What is called after each step of a run.

ghost use Rattle.std.specs.Prelude.{◌≡◌, ◌<◌, ◌++◌, ◌∷◌, [], ℕ, false, List, Result, Ok, OnOk};
ghost use Rattle.amr_def.specs.declared.problem.Problem.{Problem};
ghost use Rattle.amr_def.specs.Run.{finish};
ghost use Rattle.amr_def.specs.State.{State};
ghost use Rattle.amr_patch.specs.Meshes.{is_spent, state_of};

use amr_patch::Mesh;
use std::convert::Infallible;

/// What a run calls after each step, with the mesh: to keep checkpoints, to show how far it is, to look at it in a test.
///
/// An implementation says what it does by three meanings, of which the third has two laws.
/// - `ready`: a condition on itself and a state. A call asks it of the state that is handed in, and one that is done keeps it for
///   later states of a run.
/// - `answers`: the relation of one call, between itself before, the state, the answer and itself after.
/// - `made`: the relation of several calls, between itself before the first, the states in their order, the last answer and itself
///   after the last. It holds of no states (`made_none`). Where it holds with `Ok`, a further call adds its state and its answer
///   (`made_more`).
pub trait AfterStep {
    /// Why a call was refused. It ends the run.
    type Fault;

    ghost ready: { Self → State → Type 0 };

    ghost answers: { Self → State → Result Unit Self.Fault → Self → Type 0 };

    ghost made: { Self → List State → Result Unit Self.Fault → Self → Type 0 };

    /// Called once after each step, with the mesh as it is then.
    fn after(&mut self, mesh: &Mesh) -> Result<(), Self::Fault>
        requires whole { is_spent mesh.now ≡ false }
        requires ready { ready self.old (state_of mesh.now) }
        ensures answer { answers self.old (state_of mesh.now) result self.new }
        ensures ready { OnOk result ((p : Problem) (k : ℕ) → (state_of mesh.now).step < k → ready self.old (finish p (state_of mesh.now) k)
            → ready self.new (finish p (state_of mesh.now) k)) };

    ghost made_none: { (a : Self) → made a [] (Ok tt) a };

    ghost made_more: { (a b c : Self) (states : List State) (s : State) (answer : Result Unit Self.Fault) → made a states (Ok tt) b → answers b s answer c
        → made a (states ++ s ∷ []) answer c };
}

/// Does nothing after a step, and is never refused.
#[derive(Clone, Copy, Debug)]
pub struct Nothing;

impl AfterStep for Nothing {
    ghost use Rattle.std.specs.Prelude.{◌≡◌, Ok, refl};

    type Fault = Infallible;

    ghost ready = { λ _ _. Unit {0} };

    ghost answers = { λ _ _ answer _. answer ≡ Ok tt };

    ghost made = { λ _ _ answer _. answer ≡ Ok tt };

    ghost made_none = { λ _. refl };

    ghost made_more = { λ _ _ _ _ _ _ _ one. one };

    fn after(&mut self, _mesh: &Mesh) -> Result<(), Infallible> {
        Ok(())
    }
}
