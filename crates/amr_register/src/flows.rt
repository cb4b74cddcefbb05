//! The plain flows of a patch through the coarse-fine edges that it owns.

ghost use Rattle.std.specs.Prelude.{◌≡◌, ℕ, ◌<◌, ◌≤◌, ◌^◌, ◌-ℤ◌, ◌<ℤ◌, pos, negsuc, length, slice_index_or, unsigned_abs};
ghost use Rattle.std.specs.List.{All};
ghost use Rattle.amr_box.specs.declared.Cell.{Cell};
ghost use Rattle.amr_def.specs.Domain.{domain, domain_of, home_cell};
ghost use Rattle.amr_def.specs.Flux.{high_cell};
ghost use Rattle.amr_patch.specs.Patches.{box};
ghost use Rattle.amr_faces.specs.Faces.{IsInDomain};
ghost use Rattle.amr_register.specs.declared.sides.CoveredSides.{CoveredSides};
ghost use Rattle.amr_register.specs.Beside.{IsDomainCell};
ghost use Rattle.amr_register.specs.CoarseFlows.{high_face, low_face, net_owned, owned_flow};

use crate::sides::CoveredSides;
use amr_box::{Axis, Cell, Face};
use amr_def::{Dom, Problem};
use amr_faces::{Share, face_flux, first_share};
use amr_patch::Patch;

/// Register cells in their order, with the sides of each where covered cells lie.
#[derive(Clone, Copy)]
pub(crate) struct Edge<'a> {
    pub(crate) cells: &'a [Cell],
    pub(crate) sides: &'a [CoveredSides],
}

/// The cell at the high side of a face.
fn high_cell(f: Face) -> Cell
    ensures { result ≡ high_cell f }
{
    Cell { x: f.x, y: f.y }
}

/// The face at the low side of a cell.
pub(crate) fn low_face(axis: Axis, c: Cell) -> Face
    ensures { result ≡ low_face axis c }
{
    Face {
        axis,
        x: c.x,
        y: c.y,
    }
}

/// The face at the high side of a cell.
pub(crate) fn high_face(axis: Axis, c: Cell) -> Face
    requires { IsDomainCell c }
    ensures { result ≡ high_face axis c }
{
    match axis {
        Axis::X => Face {
            axis,
            x: c.x + 1,
            y: c.y,
        },
        Axis::Y => Face {
            axis,
            x: c.x,
            y: c.y + 1,
        },
    }
}

/// The cell of the domain that a cell stands for. Most are of the domain, and stand for themselves.
fn home_of(dom: &Dom, c: Cell) -> Cell
    ensures { result ≡ home_cell (domain_of dom.now) c }
{
    if dom.in_domain(c) {
        return c;
    }
    dom.home_cell(c)
}

/// The flow through a face by the values of a patch, if it counts and the patch owns it; 0 else.
fn owned_flow(p: &Problem, l: u32, patch: &Patch, counts: bool, f: Face, last: Share) -> i64
    requires level { l ≤ 4 }
    requires inside { IsInDomain (domain p.now l) (box patch.now) }
    ensures value { result ≡ owned_flow p.now l patch.now counts f }
    ensures low { negsuc (2 ^ 32) <ℤ result }
    ensures high { result <ℤ pos (2 ^ 32) }
{
    if !counts {
        return 0;
    }
    let high = home_of(&p.domain(l), high_cell(f));
    if !patch.bx().holds(high) {
        return 0;
    }
    face_flux(p, l, patch, low_face(f.axis, high), last)
}

/// What comes into a cell by the flows through those of its faces that lie on these sides and that a patch owns.
fn net_owned(
    p: &Problem,
    l: u32,
    patch: &Patch,
    x: Share,
    y: Share,
    sides: CoveredSides,
    c: Cell,
) -> i64
    requires level { l ≤ 4 }
    requires near { IsDomainCell c }
    requires inside { IsInDomain (domain p.now l) (box patch.now) }
    ensures value { result ≡ net_owned p.now l patch.now sides c }
    ensures low { negsuc (2 ^ 34) <ℤ result }
    ensures high { result <ℤ pos (2 ^ 34) }
{
    let west = owned_flow(p, l, patch, sides.west, low_face(Axis::X, c), x);
    let east = owned_flow(p, l, patch, sides.east, high_face(Axis::X, c), x);
    let south = owned_flow(p, l, patch, sides.south, low_face(Axis::Y, c), y);
    let north = owned_flow(p, l, patch, sides.north, high_face(Axis::Y, c), y);
    (west - east) + (south - north)
}

/// Takes away from each entry what comes into its cell by the flows through those of its faces that lie on its sides and that a
/// patch owns.
pub(crate) fn take_away(p: &Problem, l: u32, patch: &Patch, edge: Edge<'_>, entries: &mut [i64])
    requires level { l ≤ 4 }
    requires inside { IsInDomain (domain p.now l) (box patch.now) }
    requires near { All IsDomainCell edge.cells.now }
    requires side_count { length edge.sides.now ≡ length edge.cells.now }
    requires entry_count { length entries.old ≡ length edge.cells.now }
    requires room { (k : ℕ) → k < length edge.cells.now → unsigned_abs (slice_index_or entries.old k (pos 0)) < 2 ^ 62 }
    ensures { (k : ℕ) (c : Cell) (s : CoveredSides) → k < length edge.entry.cells.now
        → slice_index_or entries.new k (pos 0)
        ≡ slice_index_or entries.old k (pos 0)
        -ℤ net_owned p.now l patch.now (slice_index_or edge.entry.sides.now k s) (slice_index_or edge.entry.cells.now k c) }
{
    let x = first_share(p, Axis::X);
    let y = first_share(p, Axis::Y);
    for k in 0..edge.cells.len() {
        entries[k] -= net_owned(p, l, patch, x, y, edge.sides[k], edge.cells[k]);
    }
}
