//! The next state of a run: the regrid that is due, and a step.

ghost use Rattle.std.specs.Prelude.{◌≡◌, ◌⊎◌, ◌<◌, ◌%◌, ◌&&◌, ◌==◌, ℕ, cond, false, true, nat_lt, OnErr, OnOk};
ghost use Rattle.std.specs.List.{All};
ghost use Rattle.amr_def.specs.Facts.{IsSound};
ghost use Rattle.amr_def.specs.Regrid.{regrid};
ghost use Rattle.amr_def.specs.Run.{next, regrid_is_due, stepped};
ghost use Rattle.amr_patch.specs.Meshes.{is_spent, levels_of, state_of};
ghost use Rattle.amr_start.specs.PatchBoxes.{IsChopped};
ghost use Rattle.amr_advance.specs.Crews.{MayRun};
ghost use Rattle.amr_cycle.specs.Cycles.{AreCoarsenableAbove};
ghost use Rattle.amr_cycle.specs.KeptLevels.{IsKeptFor};

use amr_advance::Workers;
use amr_causes::NoMemory;
use amr_cycle::{Kept, step_kept};
use amr_def::Problem;
use amr_lots::LevelWork;
use amr_patch::Mesh;
use amr_regrid::regrid_in_threads;
use amr_workers::Gate;
use std::alloc::Global;
use std::sync::Wait;
use std::thread::Threads;

/// Whether a regrid is due before the step from step `number` is made.
pub(crate) fn is_due(p: &Problem, number: u32) -> bool
    ensures { result ≡ (nat_lt 0 number && ((number % p.now.regrid_int) == 0)) }
{
    number > 0 && number % p.regrid_int == 0
}

/// Regrids a mesh where that is due, in so many threads, and has what steps keep of its masses forgotten. One level alone stays as it is. After
/// `NoMemory` the mesh has the state of before.
#[tactic(auto, using(crate::proofs::NextStates::alone_is))]
fn regrid_if_due<R: Threads + Sync>(
    rt: &R,
    threads: usize,
    alloc: Global,
    p: &Problem,
    mesh: &mut Mesh,
    kept: &mut Kept,
) -> Result<(), NoMemory>
    requires whole { is_spent mesh.old ≡ false }
    requires sound { IsSound p.now (state_of mesh.old) }
    requires coarsenable { AreCoarsenableAbove (levels_of mesh.old) }
    requires kept { IsKeptFor p.now (state_of mesh.old).levels kept.old }
    ensures value { OnOk result (state_of mesh.new ≡ cond (regrid_is_due p.now (state_of mesh.old)) (regrid p.now (state_of mesh.old)) (state_of mesh.old)) }
    ensures sound { OnOk result (IsSound p.now (state_of mesh.new)) }
    ensures patches { All (IsChopped p.now.max_grid_size) (levels_of mesh.old) → All (IsChopped p.now.max_grid_size) (levels_of mesh.new) }
    ensures coarsenable { AreCoarsenableAbove (levels_of mesh.new) }
    ensures kept { OnOk result (IsKeptFor p.now (state_of mesh.new).levels kept.new) }
    ensures whole { is_spent mesh.new ≡ false }
    ensures refused { OnErr result (state_of mesh.new ≡ state_of mesh.old) }
{
    let number = mesh.step();
    if p.max_level > 0 && is_due(p, number) {
        regrid_in_threads(rt, threads, alloc, p, mesh)?;
        kept.forget_masses();
    }
    Ok(())
}

/// Makes the step that is to come, with no regrid before it. After `NoMemory` the mesh is spent.
pub(crate) fn make_plain_step<R: Threads + Wait + Sync, G: Gate + Sync>(
    workers: &mut Workers<'_, R, G>,
    p: &Problem,
    mesh: &mut Mesh,
    kept: &mut Kept,
) -> Result<(), NoMemory>
    requires whole { is_spent mesh.old ≡ false }
    requires sound { IsSound p.now (state_of mesh.old) }
    requires to_come { (state_of mesh.old).step < p.now.steps }
    requires coarsenable { AreCoarsenableAbove (levels_of mesh.old) }
    requires kept { IsKeptFor p.now (state_of mesh.old).levels kept.old }
    requires crew { (tasks : ℕ) → MayRun G.admits p.now tasks workers.old }
    ensures workers { workers.new ≡ workers.old }
    ensures value { OnOk result (state_of mesh.new ≡ stepped p.now (state_of mesh.old)) }
    ensures sound { OnOk result (IsSound p.now (state_of mesh.new)) }
    ensures patches { is_spent mesh.new ≡ false → All (IsChopped p.now.max_grid_size) (levels_of mesh.old)
        → All (IsChopped p.now.max_grid_size) (levels_of mesh.new) }
    ensures coarsenable { is_spent mesh.new ≡ false → AreCoarsenableAbove (levels_of mesh.new) }
    ensures whole { OnOk result (is_spent mesh.new ≡ false) }
    ensures spent { OnErr result (is_spent mesh.new ≡ true) }
    ensures kept { OnOk result (IsKeptFor p.now (state_of mesh.new).levels kept.new) }
{
    step_kept(workers, p, mesh, kept)
}

/// What a run is made with: memory, the work of its steps with the problem, and the step that it goes up to.
#[derive(Clone, Copy)]
pub(crate) struct Run<'a> {
    pub alloc: Global,
    pub job: LevelWork<'a>,
    pub target: u32,
}

/// Makes the next state of a run. `kept` is what steps keep from one to the next. After `NoMemory` the mesh is spent, or has the
/// state of before.
pub(crate) fn make_next<R: Threads + Wait + Sync, G: Gate + Sync>(
    run: &Run<'_>,
    workers: &mut Workers<'_, R, G>,
    mesh: &mut Mesh,
    kept: &mut Kept,
) -> Result<(), NoMemory>
    requires whole { is_spent mesh.old ≡ false }
    requires sound { IsSound run.now.job.problem.now (state_of mesh.old) }
    requires to_come { (state_of mesh.old).step < run.now.job.problem.now.steps }
    requires coarsenable { AreCoarsenableAbove (levels_of mesh.old) }
    requires kept { IsKeptFor run.now.job.problem.now (state_of mesh.old).levels kept.old }
    requires crew { (tasks : ℕ) → MayRun G.admits run.now.job.problem.now tasks workers.old }
    ensures workers { workers.new ≡ workers.old }
    ensures value { OnOk result (state_of mesh.new ≡ next run.now.job.problem.now (state_of mesh.old)) }
    ensures sound { OnOk result (IsSound run.now.job.problem.now (state_of mesh.new)) }
    ensures patches { is_spent mesh.new ≡ false → All (IsChopped run.now.job.problem.now.max_grid_size) (levels_of mesh.old)
        → All (IsChopped run.now.job.problem.now.max_grid_size) (levels_of mesh.new) }
    ensures coarsenable { is_spent mesh.new ≡ false → AreCoarsenableAbove (levels_of mesh.new) }
    ensures whole { OnOk result (is_spent mesh.new ≡ false) }
    ensures kept { OnOk result (IsKeptFor run.now.job.problem.now (state_of mesh.new).levels kept.new) }
    ensures refused { OnErr result ((is_spent mesh.new ≡ true) ⊎ ((is_spent mesh.new ≡ false) × (state_of mesh.new ≡ state_of mesh.old))) }
{
    regrid_if_due(
        workers.runtime,
        workers.count as usize,
        run.alloc,
        run.job.problem,
        mesh,
        kept,
    )?;
    make_plain_step(workers, run.job.problem, mesh, kept)
}
