//! Species that go by themselves, each by its own workers.

ghost use Rattle.std.specs.Prelude.{◌≡◌, ℕ, ◌<◌, ◌≤◌, true, List, length, slice_index_or, IfOk, OnOk};
ghost use Rattle.std.specs.List.{All};
ghost use Rattle.amr_def.specs.declared.problem.Problem.{Problem};
ghost use Rattle.amr_def.specs.State.{Level};
ghost use Rattle.amr_cycle.specs.KeptLevels.{IsKeptFor};
ghost use Rattle.amr_drive.specs.declared.lanes.Lane.{Lane};
ghost use Rattle.amr_drive.specs.Lanes.{HasForgotten, HaveChanged, IsNewLane};

use amr_causes::NoMemory;
use amr_cycle::Kept;
use amr_def::Problem;
use amr_patch::Mesh;
use std::alloc::Global;
use std::mem::swap;

/// A species as it goes by itself, from one regrid that is due to the next.
#[derive(Drop)]
pub(crate) struct Lane<'a> {
    /// The problem of the species alone.
    pub problem: &'a Problem,
    /// How many workers make its steps.
    pub workers: u32,
    /// What its steps keep from one to the next.
    pub kept: Kept,
    /// Its mesh, while it goes.
    pub mesh: Mesh,
    /// Whether the last steps asked of it were made.
    pub done: bool,
}

/// How many of so many workers species `k` of `count` gets: they are shared out, and each species has one at least.
#[tactic(auto, using(crate::proofs::LaneShares::share_some, crate::proofs::LaneShares::share_few, crate::proofs::LaneShares::share_more))]
fn share_of(workers: u32, count: u32, k: u32) -> u32
    requires some_workers { 1 ≤ workers }
    requires some_species { 0 < count }
    ensures some { 1 ≤ result }
    ensures few { result ≤ workers }
{
    if workers <= count {
        return 1;
    }
    let share = workers / count;
    if k < workers % count {
        share + 1
    } else {
        share
    }
}

/// A lane with nothing kept and no mesh.
fn new_lane<'a>(alloc: Global, problem: &'a Problem, workers: u32) -> Lane<'a>
    ensures problem { result.problem.now ≡ problem.now }
    ensures workers { result.workers ≡ workers }
    ensures kept { (p : Problem) (levels : List Level) → IsKeptFor p levels result.kept }
{
    Lane {
        problem,
        workers,
        kept: Kept::nothing(),
        mesh: Mesh::of(0, Vec::new(alloc), Vec::new(alloc)),
        done: true,
    }
}

/// A lane for each of these problems, with nothing kept and no mesh.
pub(crate) fn lanes_of<'a>(
    alloc: Global,
    problems: &'a [Problem],
    workers: u32,
) -> Result<Vec<Lane<'a>>, NoMemory>
    requires few { length problems.now ≤ 4 }
    requires some_workers { 1 ≤ workers }
    ensures one_each { IfOk result (λ v. length v.items ≡ length problems.now) }
    ensures new { IfOk result (λ v. (k : ℕ) (p : Problem) (e : Lane) → k < length problems.now
        → IsNewLane workers (slice_index_or problems.now k p) (slice_index_or v.items k e)) }
{
    let mut lanes = Vec::new(alloc);
    for k in 0..problems.len() {
        let share = share_of(workers, problems.len() as u32, k as u32);
        let lane = new_lane(alloc, &problems[k], share);
        lanes.push(lane)?;
    }
    Ok(lanes)
}

/// A mesh and that of a lane change places.
fn change(mesh: &mut Mesh, lane: &mut Lane<'_>)
    ensures mesh { mesh.new ≡ lane.old.mesh }
    ensures lane { lane.new ≡ record lane.old { mesh = mesh.old } }
{
    swap(mesh, &mut lane.mesh);
}

/// Each mesh and that of the lane at its place change places.
pub(crate) fn change_all(meshes: &mut [Mesh], lanes: &mut [Lane<'_>])
    requires { length lanes.old ≡ length meshes.old }
    ensures { HaveChanged meshes.old lanes.old meshes.new lanes.new }
{
    for k in 0..meshes.len() {
        change(&mut meshes[k], &mut lanes[k]);
    }
}

/// Has what is kept of masses forgotten, since a regrid changed them.
fn forget(lane: &mut Lane<'_>)
    ensures { HasForgotten lane.old lane.new }
{
    lane.kept.forget_masses();
}

/// The same for all.
pub(crate) fn forget_all(lanes: &mut [Lane<'_>])
    ensures { (k : ℕ) (e : Lane) → k < length lanes.old → HasForgotten (slice_index_or lanes.old k e) (slice_index_or lanes.new k e) }
{
    for k in 0..lanes.len() {
        forget(&mut lanes[k]);
    }
}

/// `NoMemory` where the steps of one were not made.
pub(crate) fn all_done(lanes: &[Lane<'_>]) -> Result<(), NoMemory>
    ensures { OnOk result (All (λ lane. lane.done ≡ true) lanes.now) }
{
    for lane in lanes {
        if !lane.done {
            return Err(NoMemory);
        }
    }
    Ok(())
}
