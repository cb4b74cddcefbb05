//! The steps of species from one regrid that is due to the next.

ghost use Rattle.std.specs.Prelude.{◌≡◌, ◌<◌, ◌≤◌, ℕ, length, slice_index_or, true, OnOk};
ghost use Rattle.std.specs.List.{All};
ghost use Rattle.amr_advance.specs.Crews.{MayRun};
ghost use Rattle.amr_drive.specs.declared.lanes.Lane.{Lane};
ghost use Rattle.amr_drive.specs.Lanes.{AtEach, HasGone, HasStepped, HaveGone, MayGo, MayStep};

use crate::lanes::{Lane, all_done, change_all};
use crate::nexts::make_plain_step;
use crate::teams::{dismiss, gather, hire, while_served};
use amr_advance::Workers;
use amr_causes::NoMemory;
use amr_cycle::Kept;
use amr_def::Problem;
use amr_lots::LevelWork;
use amr_patch::Mesh;
use amr_workers::Gate;
use std::alloc::Global;
use std::sync::Wait;
use std::thread::{Threads, for_each_mut};

/// Makes the steps of a mesh up to step `end`, with no regrid between them.
fn make_plain_steps<R: Threads + Wait + Sync, G: Gate + Sync>(
    workers: &mut Workers<'_, R, G>,
    p: &Problem,
    mesh: &mut Mesh,
    kept: &mut Kept,
    end: u32,
) -> Result<(), NoMemory>
    requires steps { MayStep p.now end mesh.old kept.old }
    requires crew { (tasks : ℕ) → MayRun G.admits p.now tasks workers.old }
    ensures { OnOk result (HasStepped p.now end mesh.old mesh.new kept.new) }
{
    for _step in mesh.step()..end {
        make_plain_step(workers, p, mesh, kept)?;
    }
    Ok(())
}

/// Makes them once the kept workers are there, and then lets these go: also where a step was refused.
fn lead<R: Threads + Wait + Sync, G: Gate + Sync>(
    workers: &mut Workers<'_, R, G>,
    p: &Problem,
    mesh: &mut Mesh,
    kept: &mut Kept,
    end: u32,
) -> Result<(), NoMemory>
    requires steps { MayStep p.now end mesh.old kept.old }
    requires crew { (tasks : ℕ) → MayRun G.admits p.now tasks workers.old }
    ensures { OnOk result (HasStepped p.now end mesh.old mesh.new kept.new) }
{
    gather(workers);
    let made = make_plain_steps(workers, p, mesh, kept, end);
    dismiss(workers);
    made
}

/// Makes them by so many workers, who last from the first step to the last.
fn make_steps_by<'a, R: Threads + Wait + Sync, G: Gate + Sync>(
    rt: &'a R,
    alloc: Global,
    job: &'a LevelWork<'a>,
    count: u32,
    gate: &'a G,
    mesh: &mut Mesh,
    kept: &mut Kept,
    end: u32,
) -> Result<(), NoMemory>
    requires steps { MayStep job.now.problem.now end mesh.old kept.old }
    requires some_workers { 1 ≤ count }
    requires few_workers { count ≤ 64 }
    requires gate { (worker task : ℕ) → worker < count → G.admits gate.now worker task }
    ensures { OnOk result (HasStepped job.now.problem.now end mesh.old mesh.new kept.new) }
{
    let (mut workers, recruits) = hire(rt, alloc, job, count, gate);
    while_served(
        rt,
        job,
        gate,
        recruits,
        &mut || -> Result<(), NoMemory>
            requires { MayStep job.now.problem.now end mesh.now kept.now × ((tasks : ℕ) → MayRun G.admits job.now.problem.now tasks workers) }
            ensures { OnOk result (HasStepped job.entry.now.problem.now end mesh.entry.now mesh.exit.now kept.exit.now) }
        { lead(&mut workers, job.problem, mesh, kept, end) },
    )
}

/// Makes the steps of a species up to step `end`, by its own workers, who last from the first of them to the last.
fn go_alone<R: Threads + Wait + Sync, G: Gate + Sync>(
    rt: &R,
    alloc: Global,
    gate: &G,
    end: u32,
    lane: &mut Lane<'_>,
)
    requires { MayGo G.admits gate.now end lane.old.mesh lane.old }
    ensures { lane.new.done ≡ true → HasGone end lane.old.mesh lane.old lane.new.mesh lane.new }
{
    let job = LevelWork {
        problem: lane.problem,
    };
    let made = make_steps_by(
        rt,
        alloc,
        &job,
        lane.workers,
        gate,
        &mut lane.mesh,
        &mut lane.kept,
        end,
    );
    match made {
        Ok(()) => lane.done = true,
        Err(_) => lane.done = false,
    }
}

/// Makes the steps of all lanes up to step `end`, side by side in as many threads as there are workers, or in turn by one.
fn go_side_by_side<R: Threads + Wait + Sync, G: Gate + Sync>(
    rt: &R,
    alloc: Global,
    gate: &G,
    threads: u32,
    end: u32,
    lanes: &mut [Lane<'_>],
)
    requires some { 0 < threads }
    requires ready { All (λ lane. MayGo G.admits gate.now end lane.mesh lane) lanes.old }
    ensures { (k : ℕ) (e : Lane) → k < length lanes.old → (slice_index_or lanes.new k e).done ≡ true
        → HasGone end (slice_index_or lanes.old k e).mesh (slice_index_or lanes.old k e) (slice_index_or lanes.new k e).mesh (slice_index_or lanes.new k e) }
{
    let go = move |_: usize, lane: &mut Lane<'_>|
        requires { MayGo G.admits gate.now end lane.now.mesh lane.now }
        ensures { lane.exit.now.done ≡ true → HasGone end lane.entry.now.mesh lane.entry.now lane.exit.now.mesh lane.exit.now }
    { go_alone(rt, alloc, gate, end, lane) };
    for_each_mut(rt, lanes, threads as usize, &go);
}

/// Makes the steps of all species up to step `end`, with no regrid between them: side by side, each in its lane.
pub(crate) fn go_to<R: Threads + Wait + Sync, G: Gate + Sync>(
    rt: &R,
    alloc: Global,
    gate: &G,
    threads: u32,
    end: u32,
    meshes: &mut [Mesh],
    lanes: &mut [Lane<'_>],
) -> Result<(), NoMemory>
    requires some { 0 < threads }
    requires one_each { length lanes.old ≡ length meshes.old }
    requires ready { AtEach (MayGo G.admits gate.now end) meshes.old lanes.old }
    ensures { OnOk result (HaveGone end meshes.old lanes.old meshes.new lanes.new) }
{
    change_all(meshes, lanes);
    go_side_by_side(rt, alloc, gate, threads, end, lanes);
    all_done(lanes)?;
    change_all(meshes, lanes);
    Ok(())
}
