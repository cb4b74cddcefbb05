//! A step of a state.

ghost use Rattle.std.specs.Prelude.{◌≡◌, ℕ, ◌+◌, ◌<◌, ◌≤◌, false, true, IfOk, OnErr, OnOk, length, map};
ghost use Rattle.amr_def.specs.Facts.{IsSound};
ghost use Rattle.amr_def.specs.Run.{stepped};
ghost use Rattle.amr_def.specs.State.{no_masses};
ghost use Rattle.amr_laws.specs.Sides.{inflow_beside, outflow_beside};
ghost use Rattle.amr_laws.specs.Substeps.{after_step};
ghost use Rattle.amr_patch.specs.Levels.{level_of};
ghost use Rattle.amr_patch.specs.Meshes.{is_spent, levels_of, state_of};
ghost use Rattle.amr_flows.specs.Subcycle.{flows_of_step};
ghost use Rattle.amr_advance.specs.Crews.{MayRun};
ghost use Rattle.amr_cycle.specs.KeptLevels.{AreKept, IsKeptFor};
ghost use Rattle.amr_cycle.specs.Cycles.{AreCoarsenableAbove, HasStepToCome, patch_boxes};

use crate::context::LevelContext;
use crate::kept::{Kept, KeptLevel, make_room};
use crate::levels::step_levels;
use amr_advance::{Crew, Regs, Workers};
use amr_causes::NoMemory;
use amr_def::{Problem, Row};
use amr_patch::{Level, Mesh};
use amr_workers::Gate;
use std::alloc::Global;
use std::sync::Wait;
use std::thread::Threads;

/// What flowed through the open sides of the domain.
#[derive(Clone, Copy, Debug)]
struct Flows {
    inflow: u64,
    outflow: u64,
}

/// Makes a step of all levels of a state.
fn step_all<R: Threads + Wait + Sync, G: Gate + Sync>(
    alloc: Global,
    p: &Problem,
    workers: &mut Workers<'_, R, G>,
    levels: &mut [Level],
    kept: &mut [KeptLevel],
) -> Result<Flows, NoMemory>
    requires to_come { HasStepToCome p.now (map level_of levels.old) }
    requires coarsenable { AreCoarsenableAbove levels.old }
    requires crew { (tasks : ℕ) → MayRun G.admits p.now tasks workers.old }
    requires kept { AreKept p.now 0 (map level_of levels.old) kept.old }
    requires room { length levels.old ≤ length kept.old }
    ensures workers { workers.new ≡ workers.old }
    ensures kept { OnOk result (AreKept p.now 0 (map level_of levels.new) kept.new) }
    ensures kept_count { OnOk result (length kept.new ≡ length kept.old) }
    ensures levels { OnOk result (map level_of levels.new ≡ after_step p.now 0 (map level_of levels.old) no_masses) }
    ensures patches { OnOk result (patch_boxes levels.new ≡ patch_boxes levels.old) }
    ensures inflow { IfOk result (λ f. f.inflow ≡ flows_of_step (inflow_beside p.now) p.now 0 (map level_of levels.old) no_masses) }
    ensures outflow { IfOk result (λ f. f.outflow ≡ flows_of_step (outflow_beside p.now) p.now 0 (map level_of levels.old) no_masses) }
{
    let given = LevelContext {
        alloc,
        problem: p,
        level: 0,
        old: None,
        shared: None,
    };
    let mut regs = Regs {
        coarser: None,
        finer: None,
        inflow: 0,
        outflow: 0,
    };
    match levels.split_first_mut() {
        None => unreachable!(),
        Some((base, finer)) => {
            step_levels(&given, false, workers, base, finer, &mut regs, kept)?;
        }
    }
    Ok(Flows {
        inflow: regs.inflow,
        outflow: regs.outflow,
    })
}

/// Makes the next step of a sound state that has a step to come (Berger and Colella 1989: subcycling, refluxing, averaging down). The
/// ledger gets one more row: what flowed in and out, and the mass after it. The outcome is the same for any number of workers,
/// whoever draws which task. The regrid that may be due before the step is `amr_regrid`'s.
///
/// No patch of a level above level 0 cuts a cell of the next coarser level. The crew has one rank, and from 1 to 64 workers.
/// Boxes and patch boxes stay. After `NoMemory`, the only refusal, the mesh is spent. The call joins its workers, and keeps this
/// promise if it returns.
pub fn step<R: Threads + Wait + Sync, G: Gate + Sync>(
    rt: &R,
    p: &Problem,
    mesh: &mut Mesh,
    crew: Crew,
    gate: &G,
) -> Result<(), NoMemory>
    requires whole { is_spent mesh.old ≡ false }
    requires sound { IsSound p.now (state_of mesh.old) }
    requires to_come { (state_of mesh.old).step < p.now.steps }
    requires coarsenable { AreCoarsenableAbove (levels_of mesh.old) }
    requires one_rank { crew.ranks ≡ 1 }
    requires some_workers { 1 ≤ crew.workers }
    requires few_workers { crew.workers ≤ 64 }
    requires gate { (worker task : ℕ) → worker < crew.workers → G.admits gate.now worker task }
    ensures value { OnOk result (state_of mesh.new ≡ stepped p.now (state_of mesh.old)) }
    ensures sound { OnOk result (IsSound p.now (state_of mesh.new)) }
    ensures patches { OnOk result (patch_boxes (levels_of mesh.new) ≡ patch_boxes (levels_of mesh.old)) }
    ensures whole { OnOk result (is_spent mesh.new ≡ false) }
    ensures spent { OnErr result (is_spent mesh.new ≡ true) }
{
    let mut workers = Workers {
        runtime: rt,
        gate,
        count: crew.workers,
        team: None,
    };
    step_kept(&mut workers, p, mesh, &mut Kept::nothing())
}

/// The same as `step`, for a run of many steps: what depends on boxes alone is taken from `kept`, and left there for the next step.
/// What no longer fits the boxes is made anew. There are from 1 to 64 workers, who may be a team that lasts. `kept` and the team are
/// of the same problem, and `kept` is of the levels that the mesh has. After `NoMemory` what is kept is only dropped.
pub fn step_kept<R: Threads + Wait + Sync, G: Gate + Sync>(
    workers: &mut Workers<'_, R, G>,
    p: &Problem,
    mesh: &mut Mesh,
    kept: &mut Kept,
) -> Result<(), NoMemory>
    requires whole { is_spent mesh.old ≡ false }
    requires sound { IsSound p.now (state_of mesh.old) }
    requires to_come { (state_of mesh.old).step < p.now.steps }
    requires coarsenable { AreCoarsenableAbove (levels_of mesh.old) }
    requires crew { (tasks : ℕ) → MayRun G.admits p.now tasks workers.old }
    requires kept { IsKeptFor p.now (state_of mesh.old).levels kept.old }
    ensures workers { workers.new ≡ workers.old }
    ensures value { OnOk result (state_of mesh.new ≡ stepped p.now (state_of mesh.old)) }
    ensures sound { OnOk result (IsSound p.now (state_of mesh.new)) }
    ensures patches { OnOk result (patch_boxes (levels_of mesh.new) ≡ patch_boxes (levels_of mesh.old)) }
    ensures whole { OnOk result (is_spent mesh.new ≡ false) }
    ensures spent { OnErr result (is_spent mesh.new ≡ true) }
    ensures kept { OnOk result (IsKeptFor p.now (state_of mesh.new).levels kept.new) }
{
    let number = mesh.step();
    let (mut rows, mut levels) = mesh.take();
    let alloc = *rows.allocator();
    let mut of_levels = make_room(alloc, kept.levels.take(), levels.len())?;
    let flows = step_all(
        alloc,
        p,
        workers,
        levels.as_mut_slice(),
        of_levels.as_mut_slice(),
    )?;
    kept.levels = Some(of_levels);
    let last = rows[number as usize];
    rows.push(Row {
        mass: last.mass + flows.inflow - flows.outflow,
        inflow: flows.inflow,
        outflow: flows.outflow,
    })?;
    *mesh = Mesh::of(number + 1, rows, levels);
    Ok(())
}
