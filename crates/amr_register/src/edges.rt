//! The register cells of each patch of a level, and the plain flows into them through their coarse-fine edges.

ghost use Rattle.std.specs.Prelude.{◌≡◌, ◌-◌, ◌≤◌, ◌^◌, ◌<ℤ◌, pos, negsuc, map, IsTrue};
ghost use Rattle.std.specs.List.{All, AllZip};
ghost use Rattle.amr_box.specs.Cells.{holds};
ghost use Rattle.amr_def.specs.Domain.{domain};
ghost use Rattle.amr_patch.specs.Patches.{box};
ghost use Rattle.amr_patch.specs.Places.{is_face_of};
ghost use Rattle.amr_faces.specs.Faces.{IsInDomain};
ghost use Rattle.amr_register.specs.EdgeCells.{AreEdgesIn, HasNet, HaveNets, IsSmallNet, flow_if, lists_of, net_beside};

use crate::flows::{high_face, low_face};
use crate::sides::CoveredSides;
use amr_box::{Axis, Cell, Face};
use amr_def::Problem;
use amr_faces::{Share, face_flux, first_share};
use amr_patch::Patch;

/// A register cell of a patch, the sides where covered cells lie beside it, its number in the register, and what flows into it
/// through those sides.
#[derive(Clone, Copy, Debug)]
pub struct EdgeCell {
    pub(crate) cell: Cell,
    pub(crate) sides: CoveredSides,
    pub(crate) number: u32,
    pub(crate) net: i64,
}

/// The flow through a face of a patch by its values, if it counts.
#[inline(always)]
fn flow_beside(p: &Problem, l: u32, patch: &Patch, counts: bool, f: Face, last: Share) -> i64
    requires level { l ≤ 4 }
    requires inside { IsInDomain (domain p.now l) (box patch.now) }
    requires of_box { IsTrue (is_face_of (box patch.now) f) }
    ensures value { result ≡ flow_if p.now l patch.now counts f }
    ensures low { negsuc (2 ^ 32 - 1) <ℤ result }
    ensures high { result <ℤ pos (2 ^ 32) }
{
    if !counts {
        return 0;
    }
    face_flux(p, l, patch, f, last)
}

/// What flows into a cell of a patch through its faces on these sides. No division is made where these shares are those of the faces.
fn net_beside(
    p: &Problem,
    l: u32,
    patch: &Patch,
    x: Share,
    y: Share,
    sides: CoveredSides,
    c: Cell,
) -> i64
    requires level { l ≤ 4 }
    requires inside { IsInDomain (domain p.now l) (box patch.now) }
    requires of_patch { IsTrue (holds (box patch.now) c) }
    ensures value { result ≡ net_beside p.now l patch.now sides c }
    ensures low { negsuc (2 ^ 34 - 1) <ℤ result }
    ensures high { result <ℤ pos (2 ^ 34) }
{
    let west = flow_beside(p, l, patch, sides.west, low_face(Axis::X, c), x);
    let east = flow_beside(p, l, patch, sides.east, high_face(Axis::X, c), x);
    let south = flow_beside(p, l, patch, sides.south, low_face(Axis::Y, c), y);
    let north = flow_beside(p, l, patch, sides.north, high_face(Axis::Y, c), y);
    (west - east) + (south - north)
}

/// Works out what flows into these cells of a patch through their coarse-fine edges, by the values of the patch and of its
/// frame. It takes no memory.
pub fn find_nets(p: &Problem, l: u32, patch: &Patch, edges: &mut [EdgeCell])
    requires level { l ≤ 4 }
    requires inside { IsInDomain (domain p.now l) (box patch.now) }
    requires edges { AreEdgesIn (box patch.now) edges.old }
    ensures nets { AllZip (HasNet p.now l patch.now) edges.old edges.new }
    ensures small { All IsSmallNet edges.new }
{
    let x = first_share(p, Axis::X);
    let y = first_share(p, Axis::Y);
    for k in 0..edges.len() {
        edges[k].net = net_beside(p, l, patch, x, y, edges[k].sides, edges[k].cell);
    }
}

/// The same for several patches, each with the list at its place.
pub fn find_nets_of_all(p: &Problem, l: u32, patches: &[Patch], lists: &mut [Vec<EdgeCell>])
    requires level { l ≤ 4 }
    requires inside { All (λ q. IsInDomain (domain p.now l) (box q)) patches.now }
    requires edges { AllZip AreEdgesIn (map box patches.now) (lists_of lists.old) }
    ensures nets { HaveNets p.now l patches.now (lists_of lists.old) (lists_of lists.new) }
    ensures small { All (All IsSmallNet) (lists_of lists.new) }
{
    for k in 0..patches.len() {
        find_nets(p, l, &patches[k], &mut lists[k]);
    }
}
