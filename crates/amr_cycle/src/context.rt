//! What steps of levels are made with.

ghost use Rattle.std.specs.Prelude.{◌≡◌, ◌+◌, ◌≤◌, Some};
ghost use Rattle.std.specs.Arc.{arc_value};
ghost use Rattle.std.specs.Option.{option_copied};
ghost use Rattle.amr_advance.specs.Outer.{IsSharedOf};

use amr_def::Problem;
use amr_patch::Level;
use std::alloc::Global;
use std::sync::Arc;

/// What each step of a level is made with: memory, the problem, and the number of the level. And the next coarser level with the masses
/// before its own step, above level 0. Workers can have shares of it (`shared`).
#[derive(Clone, Copy)]
pub(crate) struct LevelContext<'a> {
    pub alloc: Global,
    pub problem: &'a Problem,
    pub level: u32,
    pub old: Option<&'a Level>,
    pub shared: Option<&'a Arc<Level, Global>>,
}

impl LevelContext<'_> {
    /// What the steps of the next finer level are made with, given this one with the masses before its own step.
    pub(crate) fn for_finer<'a>(&'a self, before: &'a Arc<Level, Global>) -> LevelContext<'a>
        requires { self.now.level ≤ 3 }
        ensures problem { result.problem.now ≡ self.now.problem.now }
        ensures level { result.level ≡ self.now.level + 1 }
        ensures old { option_copied result.old ≡ Some (arc_value before.now) }
        ensures shared { IsSharedOf result.old result.shared }
    {
        LevelContext {
            alloc: self.alloc,
            problem: self.problem,
            level: self.level + 1,
            old: Some(&**before),
            shared: Some(before),
        }
    }
}
