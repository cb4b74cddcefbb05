//! A run up to a step.

ghost use Rattle.std.specs.Prelude.{◌≡◌, ◌⊎◌, ◌+◌, ◌-◌, ◌<◌, ◌≤◌, ℕ, false, true, Ok, Err, OnOk, IsErrOf};
ghost use Rattle.std.specs.List.{All};
ghost use Rattle.amr_def.specs.declared.problem.Problem.{Problem};
ghost use Rattle.amr_def.specs.Facts.{IsSound};
ghost use Rattle.amr_def.specs.Run.{finish, next};
ghost use Rattle.amr_patch.specs.Meshes.{is_spent, levels_of, state_of};
ghost use Rattle.amr_start.specs.PatchBoxes.{IsChopped};
ghost use Rattle.amr_advance.specs.Crews.{MayRun};
ghost use Rattle.amr_cycle.specs.Cycles.{AreCoarsenableAbove};
ghost use Rattle.amr_cycle.specs.KeptLevels.{IsKeptFor};
ghost use Rattle.amr_drive.specs.Drives.{HasDriven, MayDrive};
ghost use Rattle.amr_drive.specs.States.{states_after};

use crate::after::AfterStep;
use crate::nexts::{Run, make_next};
use crate::teams::{dismiss, gather, hire, while_served};
use amr_advance::{Crew, Workers};
use amr_causes::NoMemory;
use amr_cycle::Kept;
use amr_def::Problem;
use amr_lots::LevelWork;
use amr_patch::Mesh;
use amr_workers::Gate;
use std::alloc::Global;
use std::sync::Wait;
use std::thread::Threads;

/// Why a run was not made to its end.
#[derive(Debug, Drop)]
pub enum DriveFault<F> {
    /// What is called after each step refused one.
    After(F),
    /// Memory ran out.
    NoMemory,
}

impl<F> From<NoMemory> for DriveFault<F> {
    ghost use Rattle.amr_drive.specs.declared.drives.DriveFault.TheVariants.{NoMemory as no_memory};

    ghost from_gives = { λ _ fault. fault ≡ no_memory };

    fn from(_: NoMemory) -> Self {
        DriveFault::NoMemory
    }
}

/// Makes the next state of a run, and has `after` called on it.
fn make_step<R: Threads + Wait + Sync, G: Gate + Sync, A: AfterStep>(
    run: &Run<'_>,
    workers: &mut Workers<'_, R, G>,
    mesh: &mut Mesh,
    kept: &mut Kept,
    after: &mut A,
) -> Result<(), DriveFault<A::Fault>>
    requires whole { is_spent mesh.old ≡ false }
    requires sound { IsSound run.now.job.problem.now (state_of mesh.old) }
    requires to_come { (state_of mesh.old).step < run.now.job.problem.now.steps }
    requires coarsenable { AreCoarsenableAbove (levels_of mesh.old) }
    requires ready { A.ready after.old (next run.now.job.problem.now (state_of mesh.old)) }
    requires kept { IsKeptFor run.now.job.problem.now (state_of mesh.old).levels kept.old }
    requires crew { (tasks : ℕ) → MayRun G.admits run.now.job.problem.now tasks workers.old }
    ensures workers { workers.new ≡ workers.old }
    ensures value { OnOk result (state_of mesh.new ≡ next run.now.job.problem.now (state_of mesh.old)) }
    ensures patches { is_spent mesh.new ≡ false → All (IsChopped run.now.job.problem.now.max_grid_size) (levels_of mesh.old)
        → All (IsChopped run.now.job.problem.now.max_grid_size) (levels_of mesh.new) }
    ensures coarsenable { is_spent mesh.new ≡ false → AreCoarsenableAbove (levels_of mesh.new) }
    ensures whole { OnOk result (is_spent mesh.new ≡ false) }
    ensures answer { OnOk result (A.answers after.old (next run.now.job.problem.now (state_of mesh.old)) (Ok tt) after.new) }
    ensures ready { OnOk result ((p : Problem) (k : ℕ) → let s = next run.now.job.problem.now (state_of mesh.old) in
        s.step < k → A.ready after.old (finish p s k) → A.ready after.new (finish p s k)) }
    ensures kept { OnOk result (IsKeptFor run.now.job.problem.now (state_of mesh.new).levels kept.new) }
    ensures refused { (f : _) → IsErrOf result (DriveFault.After f) → (state_of mesh.new ≡ next run.now.job.problem.now (state_of mesh.old))
        × (is_spent mesh.new ≡ false) × A.answers after.old (next run.now.job.problem.now (state_of mesh.old)) (Err f) after.new }
    ensures memory { IsErrOf result DriveFault.NoMemory → (after.new ≡ after.old)
        × ((is_spent mesh.new ≡ true) ⊎ ((is_spent mesh.new ≡ false) × (state_of mesh.new ≡ state_of mesh.old))) }
{
    make_next(run, workers, mesh, kept)?;
    match after.after(mesh) {
        Ok(()) => Ok(()),
        Err(fault) => Err(DriveFault::After(fault)),
    }
}

/// Makes the steps of a run, and has `after` called after each.
pub(crate) fn make_steps<R: Threads + Wait + Sync, G: Gate + Sync, A: AfterStep>(
    run: &Run<'_>,
    workers: &mut Workers<'_, R, G>,
    mesh: &mut Mesh,
    after: &mut A,
) -> Result<(), DriveFault<A::Fault>>
    requires may { MayDrive A.ready run.now.job.problem.now run.now.target mesh.old after.old }
    requires crew { (tasks : ℕ) → MayRun G.admits run.now.job.problem.now tasks workers.old }
    ensures { HasDriven A.made run.now.job.problem.now run.now.target mesh.old after.old result mesh.new after.new }
{
    let mut kept = Kept::nothing();
    for _step in mesh.step()..run.target {
        make_step(run, workers, mesh, &mut kept, after)?;
    }
    Ok(())
}

/// Makes the steps of a run once its kept workers are there, and then lets them go: also where a step was refused.
fn lead<R: Threads + Wait + Sync, G: Gate + Sync, A: AfterStep>(
    run: &Run<'_>,
    workers: &mut Workers<'_, R, G>,
    mesh: &mut Mesh,
    after: &mut A,
) -> Result<(), DriveFault<A::Fault>>
    requires may { MayDrive A.ready run.now.job.problem.now run.now.target mesh.old after.old }
    requires crew { (tasks : ℕ) → MayRun G.admits run.now.job.problem.now tasks workers.old }
    ensures { HasDriven A.made run.now.job.problem.now run.now.target mesh.old after.old result mesh.new after.new }
{
    gather(workers);
    let done = make_steps(run, workers, mesh, after);
    dismiss(workers);
    done
}

/// Makes the steps of a run by so many workers, who last from the first step to the last.
fn drive_by<'a, R: Threads + Wait + Sync, G: Gate + Sync, A: AfterStep>(
    rt: &'a R,
    run: &'a Run<'a>,
    count: u32,
    gate: &'a G,
    mesh: &mut Mesh,
    after: &mut A,
) -> Result<(), DriveFault<A::Fault>>
    requires may { MayDrive A.ready run.now.job.problem.now run.now.target mesh.old after.old }
    requires some_workers { 1 ≤ count }
    requires few_workers { count ≤ 64 }
    requires gate { (worker task : ℕ) → worker < count → G.admits gate.now worker task }
    ensures { HasDriven A.made run.now.job.problem.now run.now.target mesh.old after.old result mesh.new after.new }
{
    let job = &run.job;
    let (mut workers, recruits) = hire(rt, run.alloc, job, count, gate);
    while_served(
        rt,
        job,
        gate,
        recruits,
        &mut || -> Result<(), DriveFault<A::Fault>>
            requires { MayDrive A.ready run.now.job.problem.now run.now.target mesh.now after.now
                × ((tasks : ℕ) → MayRun G.admits run.now.job.problem.now tasks workers) }
            ensures { HasDriven A.made run.entry.now.job.problem.now run.entry.now.target mesh.entry.now after.entry.now result mesh.exit.now after.exit.now }
        { lead(run, &mut workers, mesh, after) },
    )
}

/// Makes the steps of a run up to step `target` (Berger and Colella 1989). Before a step the mesh is regridded, where that is due:
/// at each step above 0 that is a multiple of `regrid_int`. After each step `after` is called once, with the mesh as it is then.
/// The outcome is the same for any number of workers, whoever draws which task. Several workers last from the first step to the
/// last.
///
/// No patch of a level above level 0 cuts a cell of the next coarser level. Levels that are in the patches that the problem asks for
/// are so afterwards. Both hold after a refusal too, where the mesh is not spent: the run can be gone on with from there.
///
/// `After` comes exactly where a call of `after` was refused; the mesh is then as after that step. After `NoMemory` the mesh is
/// spent, or as after the last step made, and `spent` tells which. The crew has one rank, and from 1 to 64 workers. The call
/// joins its workers, and keeps this promise if it returns.
pub fn drive<R: Threads + Wait + Sync, G: Gate + Sync, A: AfterStep>(
    rt: &R,
    alloc: Global,
    p: &Problem,
    mesh: &mut Mesh,
    target: u32,
    crew: Crew,
    gate: &G,
    after: &mut A,
) -> Result<(), DriveFault<A::Fault>>
    requires whole { is_spent mesh.old ≡ false }
    requires sound { IsSound p.now (state_of mesh.old) }
    requires ahead { (state_of mesh.old).step ≤ target }
    requires within { target ≤ p.now.steps }
    requires coarsenable { AreCoarsenableAbove (levels_of mesh.old) }
    requires ready { (k : ℕ) → (state_of mesh.old).step < k → k ≤ target → A.ready after.old (finish p.now (state_of mesh.old) k) }
    requires one_rank { crew.ranks ≡ 1 }
    requires some_workers { 1 ≤ crew.workers }
    requires few_workers { crew.workers ≤ 64 }
    requires gate { (worker task : ℕ) → worker < crew.workers → G.admits gate.now worker task }
    ensures value { OnOk result (state_of mesh.new ≡ finish p.now (state_of mesh.old) target) }
    ensures sound { OnOk result (IsSound p.now (state_of mesh.new)) }
    ensures patches { is_spent mesh.new ≡ false → All (IsChopped p.now.max_grid_size) (levels_of mesh.old)
        → All (IsChopped p.now.max_grid_size) (levels_of mesh.new) }
    ensures coarsenable { is_spent mesh.new ≡ false → AreCoarsenableAbove (levels_of mesh.new) }
    ensures whole { OnOk result (is_spent mesh.new ≡ false) }
    ensures made { OnOk result (A.made after.old (states_after p.now (state_of mesh.old) (target - (state_of mesh.old).step)) (Ok tt) after.new) }
    ensures refused { (f : _) → IsErrOf result (DriveFault.After f) → (n : ℕ) × (0 < n) × ((state_of mesh.old).step + n ≤ target)
        × (is_spent mesh.new ≡ false) × (state_of mesh.new ≡ finish p.now (state_of mesh.old) ((state_of mesh.old).step + n))
        × A.made after.old (states_after p.now (state_of mesh.old) n) (Err f) after.new }
    ensures memory { IsErrOf result DriveFault.NoMemory → (n : ℕ) × ((state_of mesh.old).step + n < target)
        × ((is_spent mesh.new ≡ true) ⊎ ((is_spent mesh.new ≡ false) × (state_of mesh.new ≡ finish p.now (state_of mesh.old) ((state_of mesh.old).step + n))))
        × A.made after.old (states_after p.now (state_of mesh.old) n) (Ok tt) after.new }
{
    let run = Run {
        alloc,
        job: LevelWork { problem: p },
        target,
    };
    drive_by(rt, &run, crew.workers, gate, mesh, after)
}
