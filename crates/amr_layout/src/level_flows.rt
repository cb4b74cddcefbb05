//! What the patches of a level add where one worker makes the step alone, so that no border face has a place.

ghost use Rattle.std.specs.Prelude.{◌≡◌, ◌+◌, ◌*◌, ◌≤◌, ◌<◌, ◌^◌, length, IfOk, OnOk};
ghost use Rattle.std.specs.List.{All};
ghost use Rattle.amr_def.specs.Domain.{domain};
ghost use Rattle.amr_patch.specs.Patches.{ArePatchesApart, box};
ghost use Rattle.amr_patch.specs.Orders.{IsOrderOf};
ghost use Rattle.amr_faces.specs.Faces.{IsInDomain};
ghost use Rattle.amr_patch.specs.Gaps.{HasStarts};
ghost use Rattle.amr_phase.specs.Plans.{total};
ghost use Rattle.amr_layout.specs.Arounds.{CanSearch, around_of, AreAll};
ghost use Rattle.amr_layout.specs.Surroundings.{edge_count};
ghost use Rattle.amr_layout.specs.Adds.{HasCellsBeyond, HasRegisterCells};
ghost use Rattle.amr_layout.specs.LevelFlowLists.{AreFlowsOf, AreFlowsOfRun, AreFlowsPicked, HasFlowsAt, flows_at};

use crate::FlowTo;
use crate::adds::{Near, Surroundings, append_flows};
use crate::lookup::Trace;
use amr_causes::NoMemory;
use amr_patch::Patch;
use std::alloc::Global;

/// The flows through faces on the edges of a level's patches that are added to words, one patch after another.
#[derive(Drop)]
pub struct LevelFlows {
    pub(crate) flows: Vec<FlowTo>,
    /// How many flows stand before those of each patch, and last how many there are.
    pub(crate) bounds: Vec<usize>,
}

impl LevelFlows {
    /// The flows of patch `i`.
    pub fn of(&self, i: usize) -> &[FlowTo]
        requires { HasFlowsAt self.now i }
        ensures { result.now ≡ flows_at self.now i }
    {
        &self.flows[self.bounds[i]..self.bounds[i + 1]]
    }

    /// The flows of some of the patches, by their numbers, one patch after another. `NoMemory` is the only refusal.
    pub fn pick(&self, alloc: Global, numbers: &[u32]) -> Result<LevelFlows, NoMemory>
        requires there { All (HasFlowsAt self.now) numbers.now }
        requires few { length numbers.now < 2 ^ 32 }
        ensures { IfOk result (AreFlowsPicked self.now numbers.now) }
    {
        let mut flows = Vec::new(alloc);
        let mut bounds = Vec::with_capacity(alloc, numbers.len() + 1)?;
        bounds.push(0)?;
        for i in 0..numbers.len() {
            flows.extend_from_slice(self.of(numbers[i] as usize))?;
            bounds.push(flows.len())?;
        }
        Ok(LevelFlows { flows, bounds })
    }
}

/// The flows of each patch of a run of a level's patches.
pub(crate) fn flows_of_run(
    alloc: Global,
    s: Surroundings<'_>,
    run: &[Patch],
) -> Result<LevelFlows, NoMemory>
    requires search { CanSearch s }
    requires inside { All (λ q. IsInDomain (domain s.problem.now s.level) (box q)) run.now }
    requires there { All (λ q. HasCellsBeyond (around_of s) (box q)) run.now }
    ensures { IfOk result (AreFlowsOfRun (around_of s.entry) run.now) }
{
    let level = Trace {
        patch: 0,
        gap: None,
    };
    let mut near = Near {
        level,
        finer: 0,
        register: 0,
    };
    let mut flows = Vec::new(alloc);
    let mut bounds = Vec::with_capacity(alloc, run.len() + 1)?;
    bounds.push(0)?;
    for i in 0..run.len() {
        append_flows(s, &mut near, &run[i].bx(), &mut flows)?;
        bounds.push(flows.len())?;
    }
    Ok(LevelFlows { flows, bounds })
}

/// What each patch of a level adds, as in the tasks of `plan`, where one worker makes the step alone. Then no border
/// face has a place, and no patch puts or reads.
///
/// `NoMemory` is the only refusal.
pub fn plan_adds(alloc: Global, surroundings: Surroundings<'_>) -> Result<LevelFlows, NoMemory>
    requires level { surroundings.level ≤ 4 }
    requires order { IsOrderOf surroundings.order surroundings.patches.now }
    requires apart { ArePatchesApart surroundings.patches.now }
    requires starts { HasStarts surroundings.patches.now surroundings.starts.now }
    requires inside { All (λ q. IsInDomain (domain surroundings.problem.now surroundings.level) (box q)) surroundings.patches.now }
    requires all { AreAll surroundings }
    requires cells { HasRegisterCells (around_of surroundings) }
    ensures flows { IfOk result (AreFlowsOf (around_of surroundings.entry)) }
    ensures words { IfOk result (λ v. All (λ x. x.word < 2 + 2 * length surroundings.entry.cells.now) v.flows.items) }
    ensures edges { OnOk result (total (λ q. edge_count (box q)) surroundings.entry.patches.now ≤ 2 ^ 30) }
    ensures few { OnOk result (length surroundings.entry.cells.now ≤ 2 ^ 30) }
{
    flows_of_run(alloc, surroundings, surroundings.patches)
}
