//! The layout of a level.

ghost use Rattle.std.specs.Prelude.{◌≡◌, ℕ, ◌≤◌, ◌<◌, length, map, IfOk};
ghost use Rattle.std.specs.List.{All};
ghost use Rattle.amr_box.specs.declared.Face.{Face};
ghost use Rattle.amr_def.specs.Domain.{domain};
ghost use Rattle.amr_patch.specs.Patches.{ArePatchesApart, box};
ghost use Rattle.amr_patch.specs.Orders.{IsOrderOf};
ghost use Rattle.amr_faces.specs.Faces.{IsInDomain};
ghost use Rattle.amr_phase.specs.Plans.{IsPlan};
ghost use Rattle.amr_layout.specs.Arounds.{HaveMasks, all_borders, all_places_read, all_puts, around_of};
ghost use Rattle.amr_patch.specs.Gaps.{HasStarts};
ghost use Rattle.amr_layout.specs.Adds.{HasRegisterCells};
ghost use Rattle.amr_layout.specs.Posts.{AreSmallSizes, patch_plan};

use crate::Layout;
use crate::adds::Surroundings;
use crate::places::place_borders;
use amr_causes::NoMemory;
use std::alloc::Global;

/// What each patch of a level puts and reads on a board where the patches are shared out in groups: runs of `each` patches, in their
/// order, of which the last may have fewer.
///
/// - Each border face between patches of two groups has a place of its own. The patch that owns it puts its flux there, and the one
///   that reads it has the place in its list. The list goes in the order in which `amr_flux::update_by` takes border fluxes, and its
///   mask tells the ghost cells beyond them.
/// - Places are numbered as they are read: patch after patch, first the faces at the high side in x, by y, then those in y, by x.
/// - These puts, and the flows of each patch added to their words ([`LevelFlows`](crate::LevelFlows)), are a plan whatever flows: no place is
///   put twice, and the totals fit.
///
/// Time and memory grow with the faces on the patches' edges. A span of faces beside one patch takes one search. So does
/// one beside a gap between the columns and rows where patches start.
///
/// `NoMemory` is the only refusal.
pub fn plan(alloc: Global, surroundings: Surroundings<'_>, each: usize) -> Result<Layout, NoMemory>
    requires some { 0 < each }
    requires level { surroundings.level ≤ 4 }
    requires order { IsOrderOf surroundings.order surroundings.patches.now }
    requires apart { ArePatchesApart surroundings.patches.now }
    requires starts { HasStarts surroundings.patches.now surroundings.starts.now }
    requires inside { All (λ q. IsInDomain (domain surroundings.problem.now surroundings.level) (box q)) surroundings.patches.now }
    requires cells { HasRegisterCells (around_of surroundings) }
    ensures places { IfOk result (λ y. y.places ≡ length (all_borders (around_of surroundings.entry) each)) }
    ensures puts { IfOk result (λ y. map (λ t. t.puts.items) y.patches.items ≡ all_puts (around_of surroundings.entry) each) }
    ensures border { IfOk result (λ y. map (λ t. t.border.items) y.patches.items ≡ all_places_read (around_of surroundings.entry) each) }
    ensures masks { IfOk result (λ y. HaveMasks (around_of surroundings.entry) each y.patches.items) }
    ensures plan { (size : Face → ℕ) → AreSmallSizes size → IsPlan (patch_plan (around_of surroundings.entry) each size) }
{
    place_borders(
        alloc,
        &surroundings.problem.domain(surroundings.level),
        surroundings.patches,
        surroundings.order,
        surroundings.starts,
        each,
    )
}
