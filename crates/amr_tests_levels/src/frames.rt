//! Small patches and their frames, with which several crates are tested.

ghost use Rattle.std.specs.Prelude.{◌≡◌, ℕ, ◌<◌, ◌≤◌, length, slice_index_or, map, IsTrue, true, false};
ghost use Rattle.amr_box.specs.declared.Cell.{Cell};
ghost use Rattle.amr_box.specs.Cells.{holds};
ghost use Rattle.amr_def.specs.Domain.{domain, domain_of, in_domain};
ghost use Rattle.amr_patch.specs.declared.patches.Patch.{Patch};
ghost use Rattle.amr_patch.specs.Patches.{ArePatchesApart, box};
ghost use Rattle.amr_ghost.specs.Frames.{AreInDomain};

use amr_box::{Bx, Cell};
use amr_def::{Dom, Problem};
use amr_ghost::{fill, find_sources};
use amr_patch::{Level, Patch, order_of, starts_of};
use std::alloc::Global;
use std::test::Fail;

pub(crate) const fn cell(x: i32, y: i32) -> Cell {
    Cell { x, y }
}

/// The patch from column `x0` to `x1` and from row `y0` to `y1`, where there is such a box.
pub(crate) fn patch(alloc: Global, x0: u8, y0: u8, x1: u8, y1: u8) -> Result<Patch, Fail>
    requires wide { x0 ≤ x1 }
    requires high { y0 ≤ y1 }
{
    let lo = Cell {
        x: i32::from(x0),
        y: i32::from(y0),
    };
    let hi = Cell {
        x: i32::from(x1),
        y: i32::from(y1),
    };
    let b = Bx::try_new(lo, hi).unwrap();
    Ok(Patch::make(alloc, b)?)
}

/// Gives a cell of a patch a mass; false where the patch has no such cell.
pub(crate) fn set(patches: &mut [Patch], k: usize, c: Cell, m: u32) -> bool {
    if k >= patches.len() {
        return false;
    }
    if !patches[k].bx().holds(c) {
        return false;
    }
    patches[k].set_mass(c, u64::from(m));
    true
}

/// The value and the mark of a ghost cell of a patch.
pub(crate) fn ghost_at(patches: &[Patch], k: usize, c: Cell) -> Option<(u64, bool)> {
    if k >= patches.len() {
        return None;
    }
    if !patches[k].in_frame(c) {
        return None;
    }
    Some(patches[k].ghost_cell(c))
}

/// Fills the frames of the patches of level `l`.
pub(crate) fn fill_frames(
    alloc: Global,
    p: &Problem,
    l: u32,
    patches: &mut [Patch],
    old: Option<&Level>,
) -> Result<(), Fail>
    requires level { l ≤ 4 }
    requires apart { ArePatchesApart patches.old }
    requires inside { AreInDomain (domain p.now l) patches.old }
    ensures { map box patches.new ≡ map box patches.old }
{
    let starts = starts_of(alloc, patches)?;
    let sources = find_sources(alloc, p, l, patches, order_of(patches), &starts, old)?;
    fill(patches, &sources);
    Ok(())
}

/// Whether two patches have a cell in common.
fn meet(a: &Patch, b: &Patch) -> bool
    ensures { result ≡ false → (c : Cell) → IsTrue (holds (box a.now) c) → IsTrue (holds (box b.now) c) → ⊥ }
{
    a.bx().meet(&b.bx()).is_some()
}

/// Whether a patch has a cell in common with an earlier one.
fn meets_earlier(patches: &[Patch], k: usize) -> bool
    requires { k < length patches.now }
    ensures { result ≡ false → (j : ℕ) (d : Patch) → j < k → (c : Cell) → IsTrue (holds (box (slice_index_or patches.now j d)) c)
        → IsTrue (holds (box (slice_index_or patches.now k d)) c) → ⊥ }
{
    for j in 0..k {
        if meet(&patches[j], &patches[k]) {
            return true;
        }
    }
    false
}

/// Whether no cell is in two of the patches.
fn are_apart(patches: &[Patch]) -> bool
    ensures { result ≡ true → ArePatchesApart patches.now }
{
    for k in 0..patches.len() {
        if meets_earlier(patches, k) {
            return false;
        }
    }
    true
}

/// Whether both corners of a patch are cells of the domain, so that each of its cells is.
fn is_in_domain(dom: &Dom, patch: &Patch) -> bool
    ensures { result ≡ true → (c : Cell) → IsTrue (holds (box patch.now) c) → IsTrue (in_domain (domain_of dom.now) c) }
{
    let b = patch.bx();
    if !dom.in_domain(b.lo()) {
        return false;
    }
    dom.in_domain(b.hi())
}

/// Whether the patches lie in the domain of level `l`.
fn are_in_domain(p: &Problem, l: u32, patches: &[Patch]) -> bool
    requires { l ≤ 4 }
    ensures { result ≡ true → AreInDomain (domain p.now l) patches.now }
{
    let dom = p.domain(l);
    for patch in patches {
        if !is_in_domain(&dom, patch) {
            return false;
        }
    }
    true
}

/// Whether the patches are apart and lie in the domain of level `l`.
pub(crate) fn are_of_level(p: &Problem, l: u32, patches: &[Patch]) -> bool
    requires { l ≤ 4 }
    ensures apart { result ≡ true → ArePatchesApart patches.now }
    ensures inside { result ≡ true → AreInDomain (domain p.now l) patches.now }
{
    if !are_apart(patches) {
        return false;
    }
    are_in_domain(p, l, patches)
}
