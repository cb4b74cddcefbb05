//! What comes before the sweep of a lot: the frames of its patches, and what flows into register cells over a finer level.

ghost use Rattle.std.specs.Prelude.{◌≡◌, ◌≤◌};
ghost use Rattle.std.specs.List.{All};
ghost use Rattle.amr_def.specs.Domain.{domain};
ghost use Rattle.amr_patch.specs.Patches.{box};
ghost use Rattle.amr_faces.specs.Faces.{IsInDomain};
ghost use Rattle.amr_ghost.specs.Outer.{HasOuterPlaces, IsOuterSpan};
ghost use Rattle.amr_lots.specs.FrameValues.{AreFilled, CanFill, HasFoundOuter, with_outer};
ghost use Rattle.amr_lots.specs.Ready.{HasEdges};
ghost use Rattle.amr_lots.specs.LotSteps.{HaveEdgeNets};

use crate::lot::Workspace;
use amr_def::Problem;
use amr_ghost::{OuterGhosts, fill_run};
use amr_patch::Patch;
use amr_register::{EdgeCell, find_nets_of_all};

/// Works out the values of ghost cells that get no mass of a patch of the level, where the coarser level was lent for that.
fn find_values(p: &Problem, l: u32, outer: &mut OuterGhosts)
    requires level { l ≤ 4 }
    requires spans { All (IsOuterSpan (domain p.now l)) outer.old.spans.items }
    requires places { HasOuterPlaces outer.old }
    ensures { HasFoundOuter p.now l outer.old outer.new }
{
    if outer.coarser.is_none() {
        return;
    }
    outer.find_lent_values(p, l);
}

/// Fills the frames of a lot's patches: with their own masses, with those that messages brought, and with outer values. The masses stay.
/// A task may skip it where it was done before.
pub fn fill_lot(p: &Problem, l: u32, patches: &mut [Patch], workspace: &mut Workspace)
    requires { CanFill p.now l patches.old workspace.old }
    ensures outer { HasFoundOuter p.now l workspace.old.outer workspace.new.outer }
    ensures filled { AreFilled workspace.old workspace.new.outer patches.old patches.new }
    ensures others { workspace.new ≡ with_outer workspace.new.outer workspace.old }
{
    find_values(p, l, &mut workspace.outer);
    fill_run(
        patches,
        &workspace.outer,
        &workspace.copies,
        &workspace.inbox,
    );
}

/// Works out what the level's fluxes carry into its register cells over a finer level, by the frames, which are filled. There are no lists
/// where there is no such level.
fn find_nets(p: &Problem, l: u32, patches: &[Patch], edges: &mut [Vec<EdgeCell>])
    requires level { l ≤ 4 }
    requires inside { All (λ q. IsInDomain (domain p.now l) (box q)) patches.now }
    requires edges { HasEdges patches.now edges.old }
    ensures { HaveEdgeNets p.now l patches.now edges.old edges.new }
{
    if edges.is_empty() {
        return;
    }
    find_nets_of_all(p, l, patches, edges);
}

/// What comes before the sweep: frames are filled, and by them it is worked out what flows into register cells.
pub(crate) fn begin(
    p: &Problem,
    l: u32,
    patches: &mut [Patch],
    edges: &mut [Vec<EdgeCell>],
    workspace: &mut Workspace,
)
    requires inside { All (λ q. IsInDomain (domain p.now l) (box q)) patches.old }
    requires fill { CanFill p.now l patches.old workspace.old }
    requires edges { HasEdges patches.old edges.old }
    ensures outer { HasFoundOuter p.now l workspace.old.outer workspace.new.outer }
    ensures filled { AreFilled workspace.old workspace.new.outer patches.old patches.new }
    ensures others { workspace.new ≡ with_outer workspace.new.outer workspace.old }
    ensures nets { HaveEdgeNets p.now l patches.new edges.old edges.new }
{
    fill_lot(p, l, patches, workspace);
    find_nets(p, l, patches, edges);
}
