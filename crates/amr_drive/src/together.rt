//! A run of all species up to a step.

ghost use Rattle.std.specs.Prelude.{◌≡◌, ◌<◌, ◌≤◌, ◌%◌, ◌==◌, ℕ, false, length, map, IfOk, OnOk};
ghost use Rattle.std.specs.List.{All};
ghost use Rattle.amr_def.specs.Species.{finish_all, regrid_all, step_of};
ghost use Rattle.amr_patch.specs.Meshes.{is_spent, state_of};
ghost use Rattle.amr_advance.specs.Crews.{MayRun};
ghost use Rattle.amr_drive.specs.Flocks.{AreMeshesOf, IsFlockOf, problems_of, states_of};
ghost use Rattle.amr_drive.specs.Lanes.{IsRegriddedIfDue, StandsAt};

use crate::after::Nothing;
use crate::drives::drive;
use crate::flocks::Flock;
use crate::intervals::go_to;
use crate::lanes::{Lane, forget_all, lanes_of};
use crate::nexts::is_due;
use amr_advance::{Crew, Workers};
use amr_causes::NoMemory;
use amr_def::Problem;
use amr_patch::Mesh;
use amr_regrid::regrid_all_in_threads;
use amr_workers::Gate;
use std::alloc::Global;
use std::sync::Wait;
use std::thread::Threads;

/// Up to which step species go by themselves from a step: that of the next regrid that is due, or the target. One level alone stays as
/// it is whatever is due, so there it is the target.
fn interval_end(p: &Problem, step: u32, target: u32) -> u32
    requires ahead { step < target }
    requires within { target ≤ p.now.steps }
    ensures later { step < result }
    ensures within { result ≤ target }
    ensures none_due { 0 < p.now.max_level → (j : ℕ) → step < j → j < result → ((j % p.now.regrid_int) == 0) ≡ false }
{
    if p.max_level == 0 {
        return target;
    }
    let next = step - step % p.regrid_int + p.regrid_int;
    next.min(target)
}

/// Regrids all meshes together, and has what is kept of their masses forgotten.
fn regrid_lanes<R: Threads + Sync>(
    rt: &R,
    workers: u32,
    alloc: Global,
    p: &Problem,
    step: u32,
    meshes: &mut [Mesh],
    lanes: &mut [Lane<'_>],
) -> Result<(), NoMemory>
    requires { StandsAt p.now workers step meshes.old lanes.old }
    ensures value { OnOk result (map state_of meshes.new ≡ regrid_all p.now (map state_of meshes.old)) }
    ensures stands { OnOk result (StandsAt p.now workers step meshes.new lanes.new) }
{
    regrid_all_in_threads(rt, workers as usize, alloc, p, meshes)?;
    forget_all(lanes);
    Ok(())
}

/// The same where it is due at this step. One level alone stays as it is.
fn regrid_all_if_due<R: Threads + Sync>(
    rt: &R,
    workers: u32,
    alloc: Global,
    p: &Problem,
    step: u32,
    meshes: &mut [Mesh],
    lanes: &mut [Lane<'_>],
) -> Result<(), NoMemory>
    requires { StandsAt p.now workers step meshes.old lanes.old }
    ensures value { OnOk result (IsRegriddedIfDue p.now (map state_of meshes.old) (map state_of meshes.new)) }
    ensures stands { OnOk result (StandsAt p.now workers step meshes.new lanes.new) }
{
    if p.max_level == 0 {
        return Ok(());
    }
    if !is_due(p, step) {
        return Ok(());
    }
    regrid_lanes(rt, workers, alloc, p, step, meshes, lanes)
}

/// Makes the steps of all species up to the next regrid that may change them, or to the target: the regrid that may be due at this step, and
/// then each species by itself. Gives the step that they are at.
fn go_on<R: Threads + Wait + Sync, G: Gate + Sync>(
    workers: &Workers<'_, R, G>,
    alloc: Global,
    p: &Problem,
    step: u32,
    target: u32,
    meshes: &mut [Mesh],
    lanes: &mut [Lane<'_>],
) -> Result<u32, NoMemory>
    requires crew { (tasks : ℕ) → MayRun G.admits p.now tasks workers.now }
    requires ahead { step < target }
    requires within { target ≤ p.now.steps }
    requires stands { StandsAt p.now workers.now.count step meshes.old lanes.old }
    ensures later { IfOk result (λ end. step < end) }
    ensures within { IfOk result (λ end. end ≤ target) }
    ensures value { IfOk result (λ end. map state_of meshes.new ≡ finish_all p.now (map state_of meshes.old) end) }
    ensures stands { IfOk result (λ end. StandsAt p.now workers.now.count end meshes.new lanes.new) }
{
    regrid_all_if_due(
        workers.runtime,
        workers.count,
        alloc,
        p,
        step,
        meshes,
        lanes,
    )?;
    let end = interval_end(p, step, target);
    go_to(
        workers.runtime,
        alloc,
        workers.gate,
        workers.count,
        end,
        meshes,
        lanes,
    )?;
    Ok(end)
}

/// The step that all meshes are at.
fn step_in(meshes: &[Mesh]) -> u32
    requires some { 0 < length meshes.now }
    requires whole { All (λ m. is_spent m ≡ false) meshes.now }
    ensures { result ≡ step_of (map state_of meshes.now) }
{
    meshes[0].step()
}

/// Makes the steps of the only species there is: those of a run, by workers who last from the first step to the last.
fn drive_only<R: Threads + Wait + Sync, G: Gate + Sync>(
    workers: &Workers<'_, R, G>,
    alloc: Global,
    p: &Problem,
    target: u32,
    meshes: &mut [Mesh],
) -> Result<(), NoMemory>
    requires crew { (tasks : ℕ) → MayRun G.admits p.now tasks workers.now }
    requires only { length meshes.old ≡ 1 }
    requires meshes { AreMeshesOf p.now meshes.old }
    requires ahead { step_of (map state_of meshes.old) ≤ target }
    requires within { target ≤ p.now.steps }
    ensures value { OnOk result (map state_of meshes.new ≡ finish_all p.now (map state_of meshes.old) target) }
    ensures meshes { OnOk result (AreMeshesOf p.now meshes.new) }
{
    let crew = Crew {
        ranks: 1,
        workers: workers.count,
    };
    let driven = drive(
        workers.runtime,
        alloc,
        p,
        &mut meshes[0],
        target,
        crew,
        workers.gate,
        &mut Nothing,
    );
    match driven {
        Ok(()) => Ok(()),
        Err(_) => Err(NoMemory),
    }
}

/// Makes the steps of all species up to a step, by the problems of each alone.
fn drive_meshes<R: Threads + Wait + Sync, G: Gate + Sync>(
    workers: &Workers<'_, R, G>,
    alloc: Global,
    p: &Problem,
    target: u32,
    problems: &[Problem],
    meshes: &mut [Mesh],
) -> Result<(), NoMemory>
    requires crew { (tasks : ℕ) → MayRun G.admits p.now tasks workers.now }
    requires problems { problems.now ≡ problems_of p.now }
    requires meshes { AreMeshesOf p.now meshes.old }
    requires ahead { step_of (map state_of meshes.old) ≤ target }
    requires within { target ≤ p.now.steps }
    ensures value { OnOk result (map state_of meshes.new ≡ finish_all p.now (map state_of meshes.old) target) }
    ensures meshes { OnOk result (AreMeshesOf p.now meshes.new) }
{
    if meshes.len() == 1 {
        return drive_only(workers, alloc, p, target, meshes);
    }
    let mut lanes = lanes_of(alloc, problems, workers.count)?;
    let mut step = step_in(meshes);
    while step < target {
        step = go_on(
            workers,
            alloc,
            p,
            step,
            target,
            meshes,
            lanes.as_mut_slice(),
        )?;
    }
    Ok(())
}

/// Makes the steps of all species up to step `target`. Before a step all are regridded together, where that is due: at each step above 0
/// that is a multiple of `regrid_int`. Until the next one each goes by itself, and all the way where there is one level alone. The
/// workers are shared out among the species, who go side by side; where there are fewer workers than species, some go in turn. One
/// species alone goes as [`drive`] has it go. The outcome is the same for any number of workers, whoever draws which task.
///
/// `NoMemory` is the only refusal. After it the flock is spent: it is only dropped, and nothing is promised of it. The crew has one rank,
/// and from 1 to 64 workers. The call joins its workers, and keeps this promise if it returns.
pub fn drive_all<R: Threads + Wait + Sync, G: Gate + Sync>(
    rt: &R,
    alloc: Global,
    p: &Problem,
    flock: &mut Flock,
    target: u32,
    crew: Crew,
    gate: &G,
) -> Result<(), NoMemory>
    requires flock { IsFlockOf p.now flock.old }
    requires ahead { step_of (states_of flock.old) ≤ target }
    requires within { target ≤ p.now.steps }
    requires one_rank { crew.ranks ≡ 1 }
    requires some_workers { 1 ≤ crew.workers }
    requires few_workers { crew.workers ≤ 64 }
    requires gate { (worker task : ℕ) → worker < crew.workers → G.admits gate.now worker task }
    ensures value { OnOk result (states_of flock.new ≡ finish_all p.now (states_of flock.old) target) }
    ensures flock { OnOk result (IsFlockOf p.now flock.new) }
{
    let workers = Workers {
        runtime: rt,
        gate,
        count: crew.workers,
        team: None,
    };
    drive_meshes(
        &workers,
        alloc,
        p,
        target,
        flock.problems.as_slice(),
        flock.meshes.as_mut_slice(),
    )
}
