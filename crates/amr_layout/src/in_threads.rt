//! What the patches of a level add, worked out by several threads: each has a run of the patches.

ghost use Rattle.std.specs.Prelude.{◌≡◌, ℕ, ◌+◌, ◌*◌, ◌≤◌, ◌<◌, ◌^◌, ◌++◌, length, map, drop, slice_index_or, IfOk, OnOk};
ghost use Rattle.std.specs.List.{All};
ghost use Rattle.amr_def.specs.Domain.{domain};
ghost use Rattle.amr_patch.specs.Patches.{ArePatchesApart, box};
ghost use Rattle.amr_patch.specs.Orders.{IsOrderOf};
ghost use Rattle.amr_faces.specs.Faces.{IsInDomain};
ghost use Rattle.amr_patch.specs.Gaps.{HasStarts};
ghost use Rattle.amr_phase.specs.Plans.{total};
ghost use Rattle.amr_layout.specs.Arounds.{AreFlowsOfChunk, CanSearch, HasWordsFor, MayFindFlows, around_of, AreAll};
ghost use Rattle.amr_layout.specs.Surroundings.{edge_count};
ghost use Rattle.amr_layout.specs.Adds.{HasCellsBeyond, HasRegisterCells};
ghost use Rattle.amr_layout.specs.LevelFlowLists.{AreFlowsOf, AreFlowsOfRun};

use crate::adds::Surroundings;
use crate::level_flows::{LevelFlows, flows_of_run, plan_adds};
use amr_causes::NoMemory;
use amr_patch::Patch;
use std::alloc::Global;
use std::thread::{Threads, map_chunks};

/// From how many patches on threads save time.
const FEWEST: usize = 128;

/// Puts bounds behind a list, each raised by so many.
fn append_bounds(all: &mut Vec<usize>, before: usize, bounds: &[usize]) -> Result<(), NoMemory>
    requires { All (λ b. before + b < 2 ^ 64) bounds.now }
    ensures { OnOk result (all.new.items ≡ all.old.items ++ map (λ b. before + b) bounds.now) }
{
    for b in bounds {
        all.push(before + *b)?;
    }
    Ok(())
}

/// Puts the flows of a run behind those of the patches before it.
fn append_run(all: &mut LevelFlows, run: &LevelFlows) -> Result<(), NoMemory>
    requires some { 0 < length run.now.bounds.items }
    requires within { All (λ b. b ≤ length run.now.flows.items) run.now.bounds.items }
    ensures flows { OnOk result (all.new.flows.items ≡ all.old.flows.items ++ run.now.flows.items) }
    ensures bounds { OnOk result (all.new.bounds.items ≡ all.old.bounds.items ++ map (λ b. length all.old.flows.items + b) (drop 1 run.now.bounds.items)) }
{
    let before = all.flows.len();
    all.flows.extend_from_slice(&run.flows)?;
    append_bounds(&mut all.bounds, before, &run.bounds[1..])
}

/// The flows of all patches, where those of each run of so many patches are known. The last run may have fewer.
fn join_runs(
    alloc: Global,
    s: Surroundings<'_>,
    size: usize,
    runs: &[Result<LevelFlows, NoMemory>],
) -> Result<LevelFlows, NoMemory>
    requires all { length s.patches.now ≤ length runs.now * size }
    requires flows { (n : ℕ) (d : _) → n < length runs.now → IfOk (slice_index_or runs.now n d) (AreFlowsOfChunk (around_of s) size n) }
    ensures { IfOk result (AreFlowsOf (around_of s.entry)) }
{
    let mut bounds = Vec::with_capacity(alloc, s.patches.len() + 1)?;
    bounds.push(0)?;
    let mut all = LevelFlows {
        flows: Vec::new(alloc),
        bounds,
    };
    for k in 0..runs.len() {
        let Ok(run) = &runs[k] else {
            return Err(NoMemory);
        };
        append_run(&mut all, run)?;
    }
    Ok(all)
}

/// The flows of all patches, in runs of so many: each run in a thread of its own where one can be made.
pub(crate) fn flows_by_runs<R: Threads + Sync>(
    rt: &R,
    alloc: Global,
    s: Surroundings<'_>,
    size: usize,
) -> Result<LevelFlows, NoMemory>
    requires some { 0 < size }
    requires search { CanSearch s }
    requires inside { All (λ q. IsInDomain (domain s.problem.now s.level) (box q)) s.patches.now }
    requires there { All (λ q. HasCellsBeyond (around_of s) (box q)) s.patches.now }
    ensures { IfOk result (AreFlowsOf (around_of s.entry)) }
{
    let of_run = move |_start: usize, run: &[Patch]| -> Result<LevelFlows, NoMemory>
        requires { MayFindFlows s run.now }
        ensures { IfOk result (AreFlowsOfRun (around_of s.entry) run.entry.now) }
    { flows_of_run(alloc, s, run) };
    let runs = map_chunks(rt, alloc, s.patches, size, &of_run)?;
    join_runs(alloc, s, size, &runs)
}

/// The same as `plan_adds`, by so many threads at once. Few patches make no thread.
pub fn plan_adds_in_threads<R: Threads + Sync>(
    rt: &R,
    threads: usize,
    alloc: Global,
    surroundings: Surroundings<'_>,
) -> Result<LevelFlows, NoMemory>
    requires level { surroundings.level ≤ 4 }
    requires order { IsOrderOf surroundings.order surroundings.patches.now }
    requires apart { ArePatchesApart surroundings.patches.now }
    requires starts { HasStarts surroundings.patches.now surroundings.starts.now }
    requires inside { All (λ q. IsInDomain (domain surroundings.problem.now surroundings.level) (box q)) surroundings.patches.now }
    requires all { AreAll surroundings }
    requires cells { HasRegisterCells (around_of surroundings) }
    ensures flows { IfOk result (AreFlowsOf (around_of surroundings.entry)) }
    ensures words { IfOk result (HasWordsFor surroundings.entry) }
    ensures edges { OnOk result (total (λ q. edge_count (box q)) surroundings.entry.patches.now ≤ 2 ^ 30) }
    ensures few { OnOk result (length surroundings.entry.cells.now ≤ 2 ^ 30) }
{
    if threads < 2 || surroundings.patches.len() < FEWEST {
        return plan_adds(alloc, surroundings);
    }
    flows_by_runs(
        rt,
        alloc,
        surroundings,
        surroundings.patches.len().div_ceil(threads),
    )
}
