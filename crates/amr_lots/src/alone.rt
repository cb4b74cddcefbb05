//! The step of a lot that is all of its level: no board is needed, since nobody reads what it would put there.

ghost use Rattle.std.specs.Prelude.{◌≡◌, ℕ, length, slice_index};
ghost use Rattle.std.specs.List.{AllZip};
ghost use Rattle.amr_flux.specs.Rooms.{widest};
ghost use Rattle.amr_layout.specs.LevelFlowLists.{flow_lists};
ghost use Rattle.amr_lots.specs.Lots.{AreReady, HasStepped, lot_total};
ghost use Rattle.amr_lots.specs.Ready.{CanStep, HasFlowsIn};
ghost use Rattle.amr_lots.specs.LotSteps.{HasSteppedAlone};

use crate::frames::begin;
use crate::lot::Workspace;
use crate::patches::step_patch;
use amr_def::Problem;
use amr_flux::{PatchSides, Room};
use amr_layout::LevelFlows;
use amr_patch::Patch;
use amr_register::EdgeCell;

/// Makes the step of patches whose frames are filled, one after another, each by its own values and those of its frame. The totals, whatever
/// they were, become the sums of what flows to each word.
fn step_patches(
    p: &Problem,
    l: u32,
    patches: &mut [Patch],
    flows: &LevelFlows,
    sides: &[PatchSides],
    room: &mut Room,
    totals: &mut [u64],
)
    requires ready { AreReady p.now l (widest room.old) (length totals.old) patches.old (flow_lists flows.now (length patches.old)) }
    requires flows { HasFlowsIn flows.now sides.now patches.old }
    ensures stepped { AllZip (HasStepped p.now l) patches.old patches.new }
    ensures room { widest room.new ≡ widest room.old }
    ensures count { length totals.new ≡ length totals.old }
    ensures totals { (word : ℕ) → slice_index totals.new word ≡ lot_total p.now l patches.old (flow_lists flows.now (length patches.old)) word }
{
    totals.fill(0);
    for k in 0..patches.len() {
        step_patch(p, l, &mut patches[k], flows.of(k), sides[k], room, totals);
    }
}

/// Makes the step of all patches of a level, one after another, each by its own values and those of its frame. The totals of the words become
/// the sums of what flows to each.
pub fn step_alone(
    p: &Problem,
    l: u32,
    patches: &mut [Patch],
    edges: &mut [Vec<EdgeCell>],
    workspace: &mut Workspace,
)
    requires { CanStep p.now l patches.old edges.old workspace.old }
    ensures { HasSteppedAlone p.now l patches.old edges.old workspace.old patches.new edges.new workspace.new }
{
    begin(p, l, patches, edges, workspace);
    let Workspace {
        flows,
        sides,
        totals,
        room,
        ..
    } = workspace;
    step_patches(p, l, patches, flows, sides, room, totals);
}
