//! What a level's step stands on that depends on boxes alone: worked out once, and kept until boxes change.

ghost use Rattle.std.specs.Prelude.{◌≡◌, ◌<◌, ◌≤◌, ◌^◌, ℕ, true, false, List, length, map, is_some, IfOk, IfSome, IsTrue};
ghost use Rattle.std.specs.List.{All};
ghost use Rattle.std.specs.Option.{option_copied};
ghost use Rattle.amr_box.specs.declared.Cell.{Cell};
ghost use Rattle.amr_box.specs.Cells.{in_boxes};
ghost use Rattle.amr_def.specs.Domain.{domain};
ghost use Rattle.amr_def.specs.State.{Masses};
ghost use Rattle.amr_patch.specs.Orders.{IsOrderOf};
ghost use Rattle.amr_patch.specs.Patches.{ArePatchesApart, box, masses_in};
ghost use Rattle.amr_layout.specs.Adds.{HasRegisterCells};
ghost use Rattle.amr_layout.specs.Grounds.{has_open_side};
ghost use Rattle.amr_layout.specs.Surroundings.{finer_masses};
ghost use Rattle.amr_ghost.specs.Frames.{AreInDomain};
ghost use Rattle.amr_lots.specs.Runs.{lot_count};
ghost use Rattle.amr_advance.specs.KeptLayouts.{Forgets, IsKeptLayout, IsKeptOf, IsLaidOut, ServesLevel};
ghost use Rattle.amr_advance.specs.Steps.{all_around, coarser_masses, whole_of};

use crate::level::StepInput;
use crate::lots::{Lots, make_lots};
use amr_alike::{boxes_of, have_boxes};
use amr_box::{Bx, Cell};
use amr_causes::NoMemory;
use amr_def::Problem;
use amr_ghost::plan_frames_in_threads;
use amr_layout::Surroundings;
use amr_lots::Lot;
use amr_patch::{Level, Order, Patch, starts_of};
use std::alloc::Global;
use std::boxed::Box;
use std::thread::Threads;

/// How many register cells are compared: of more, two lists count as other ones.
const MOST_CELLS: usize = 1 << 30;

/// The layout of a level's step, with a plan of the frames, and what it was made for. That is the boxes of the level's
/// patches, the register cells of the next coarser level, and the patch boxes of the next finer one. Those matter only
/// beside open sides. While these stay, each step of the level takes it as it is.
#[derive(Drop)]
pub struct KeptLayout {
    level: u32,
    pub(crate) boxes: Vec<Bx>,
    cells: Vec<Cell>,
    finer: Vec<Bx>,
    /// The lots of the level.
    pub lots: Lots,
}

/// Which masses changed otherwise than by the level's own step: those of the level, those of the next coarser one.
#[derive(Clone, Copy)]
pub struct Stale {
    pub own: bool,
    pub coarser: bool,
}

/// Forgets what is kept of stale masses, where something is. That is what lots have packed for others of the level's own, and the values of
/// ghost cells by the coarser level's. It is worked out anew at the next step.
pub fn forget(kept: &mut Option<KeptLayout>, stale: Stale)
    ensures { Forgets stale kept.old kept.new }
{
    if let Some(layout) = kept {
        layout.lots.packed &= !stale.own;
        layout.lots.valued &= !stale.coarser;
    }
}

/// How many coordinates of two cells differ.
fn differences(a: &Cell, b: &Cell) -> u32
    ensures few { result ≤ 2 }
    ensures none { result ≡ 0 → a.now ≡ b.now }
{
    u32::from(a.x != b.x) + u32::from(a.y != b.y)
}

/// Whether two lists have the same cells in the same order. It says yes of no others. It goes over all of them and counts what differs, so
/// that several are compared at once.
fn are_same_cells(a: &[Cell], b: &[Cell]) -> bool
    ensures { IsTrue result → a.now ≡ b.now }
{
    if a.len() != b.len() {
        return false;
    }
    if a.len() > MOST_CELLS {
        return false;
    }
    let mut count = 0u32;
    for k in 0..a.len() {
        count += differences(&a[k], &b[k]);
    }
    count == 0
}

/// Whether the patches of the finer level have these boxes. There are none where there is no such level.
fn has_finer_boxes(finer: Option<&Level>, boxes: &[Bx]) -> bool
    ensures { IsTrue result → (c : Cell) → is_some (finer_masses (option_copied finer.entry) c) ≡ in_boxes boxes.now c }
{
    match finer {
        None => boxes.is_empty(),
        Some(level) => have_boxes(level.patches(), boxes),
    }
}

/// Whether a side of the domain is open.
fn has_open_side(p: &Problem) -> bool
    ensures { result ≡ has_open_side p.now }
{
    !p.x_sides.is_periodic() | !p.y_sides.is_periodic()
}

/// Whether a layout made beside a finer level with these boxes serves beside this one. A layout goes by them only where a side of
/// the domain is open.
fn serves_beside(p: &Problem, finer: Option<&Level>, boxes: &[Bx]) -> bool
    ensures { IsTrue result → has_open_side p.now ≡ true → (c : Cell) → is_some (finer_masses (option_copied finer.entry) c) ≡ in_boxes boxes.now c }
{
    if !has_open_side(p) {
        return true;
    }
    has_finer_boxes(finer, boxes)
}

/// The boxes of the finer level's patches, none where there is no such level.
fn finer_boxes(alloc: Global, finer: Option<&Level>) -> Result<Vec<Bx>, NoMemory>
    ensures { IfOk result (λ bs. (c : Cell) → is_some (finer_masses (option_copied finer.entry) c) ≡ in_boxes bs.items c) }
{
    match finer {
        None => Ok(Vec::new(alloc)),
        Some(level) => boxes_of(alloc, level.patches()),
    }
}

/// Whether a layout that is kept is that of these patches.
fn serves(kept: &KeptLayout, given: StepInput<'_>, patches: &[Patch], wanted: usize) -> bool
    ensures laid_out { IsTrue result → IsKeptLayout given.entry.problem.now kept.now → IsLaidOut (all_around given.entry patches.now) kept.now }
    ensures wanted { IsTrue result → kept.now.lots.wanted ≡ wanted }
{
    if kept.lots.wanted != wanted {
        return false;
    }
    if kept.level != given.level {
        return false;
    }
    if !have_boxes(patches, &kept.boxes) {
        return false;
    }
    if !are_same_cells(&kept.cells, given.cells) {
        return false;
    }
    serves_beside(given.problem, given.finer, &kept.finer)
}

/// Lays out the step of these patches anew, with what old lots leave as far as it goes.
fn lay_out_anew<R: Threads + Sync>(
    rt: &R,
    given: StepInput<'_>,
    order: Order,
    patches: &[Patch],
    wanted: usize,
    old: Vec<Box<Lot>>,
) -> Result<KeptLayout, NoMemory>
    requires level { given.level ≤ 4 }
    requires all { whole_of given ≡ patches.now }
    requires unfilled { given.filled ≡ false }
    requires order { IsOrderOf order patches.now }
    requires apart { ArePatchesApart patches.now }
    requires inside { AreInDomain (domain given.problem.now given.level) patches.now }
    requires cells { HasRegisterCells (all_around given patches.now) }
    ensures layout { IfOk result (λ k. (own old : Masses) → ServesLevel (all_around given.entry patches.now) own old k) }
    ensures count { IfOk result (λ k. 0 < length patches.now → length k.lots.lots.items ≡ lot_count wanted (length patches.now)) }
{
    let alloc = given.alloc;
    let starts = starts_of(alloc, patches)?;
    let surroundings = Surroundings {
        problem: given.problem,
        level: given.level,
        patches,
        order,
        starts: &starts,
        cells: given.cells,
        finer: given.finer,
        filled: given.filled,
        whole: &given.basis.patches,
    };
    let frames = plan_frames_in_threads(
        rt,
        wanted,
        alloc,
        given.problem,
        given.level,
        patches,
        order,
        &starts,
    )?;
    let lots = make_lots(rt, alloc, surroundings, &frames, wanted, old)?;
    Ok(KeptLayout {
        level: given.level,
        boxes: boxes_of(alloc, patches)?,
        cells: Vec::from_slice(alloc, given.cells)?,
        finer: finer_boxes(alloc, given.finer)?,
        lots,
    })
}

/// The lots of a layout that serves no more.
fn lots_from(layout: KeptLayout) -> Vec<Box<Lot>> {
    let KeptLayout {
        level: _,
        boxes: _,
        cells: _,
        finer: _,
        lots,
    } = layout;
    let Lots {
        level: _,
        wanted: _,
        each: _,
        shape: _,
        packed: _,
        valued: _,
        lots,
        totals: _,
    } = lots;
    lots
}

/// The layout of the step of these patches, in as many lots as are wanted: the one that is kept, where it serves, else a new one. None is
/// kept afterwards.
pub fn layout_for<R: Threads + Sync>(
    rt: &R,
    given: StepInput<'_>,
    order: Order,
    patches: &[Patch],
    wanted: usize,
    kept: &mut Option<KeptLayout>,
) -> Result<KeptLayout, NoMemory>
    requires level { given.level ≤ 4 }
    requires all { whole_of given ≡ patches.now }
    requires unfilled { given.filled ≡ false }
    requires order { IsOrderOf order patches.now }
    requires apart { ArePatchesApart patches.now }
    requires inside { AreInDomain (domain given.problem.now given.level) patches.now }
    requires cells { HasRegisterCells (all_around given patches.now) }
    requires kept { IfSome kept.old (IsKeptOf given.problem.now given.level (masses_in patches.now) (coarser_masses given)) }
    ensures layout { IfOk result (ServesLevel (all_around given.entry patches.now) (masses_in patches.now) (coarser_masses given.entry)) }
    ensures count { IfOk result (λ k. 0 < length patches.now → length k.lots.lots.items ≡ lot_count wanted (length patches.now)) }
    ensures kept { kept.new ≡ None }
{
    let Some(layout) = kept.take() else {
        return lay_out_anew(rt, given, order, patches, wanted, Vec::new(given.alloc));
    };
    if serves(&layout, given, patches, wanted) {
        return Ok(layout);
    }
    lay_out_anew(rt, given, order, patches, wanted, lots_from(layout))
}
