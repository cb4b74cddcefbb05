//! The lots of a level: runs of its patches, each with what a worker needs.

ghost use Rattle.std.specs.Prelude.{◌≡◌, ◌+◌, ◌*◌, ◌<◌, ◌≤◌, ◌^◌, ℕ, true, false, [], IfOk, OnOk, length, slice_index_or};
ghost use Rattle.std.specs.List.{All};
ghost use Rattle.std.specs.Global.{Box as boxed};
ghost use Rattle.amr_box.specs.Cells.{IsNear};
ghost use Rattle.amr_def.specs.Domain.{domain};
ghost use Rattle.amr_def.specs.State.{Masses};
ghost use Rattle.amr_def.specs.declared.problem.Problem.{Problem as problem};
ghost use Rattle.amr_patch.specs.Patches.{box};
ghost use Rattle.amr_phase.specs.Plans.{total};
ghost use Rattle.amr_layout.specs.Adds.{HasRegisterCells};
ghost use Rattle.amr_layout.specs.Arounds.{AreAll, around_of};
ghost use Rattle.amr_layout.specs.Surroundings.{edge_count};
ghost use Rattle.amr_lots.specs.Runs.{lot_count};
ghost use Rattle.amr_lots.specs.declared.lot.Lot.{Lot as lot};
ghost use Rattle.amr_advance.specs.Cuts.{AreLayoutsFrom, AreLevelFlows, IsCut, IsSurroundings};
ghost use Rattle.amr_advance.specs.Lots.{AreLots, AreLotsOf, PlansUnlessFilled, IsLotOf, IsWholeLot, is_one, totals_of};

use crate::workspaces::{Cut, take_layouts, whole_workspace, workspace_for};
use amr_board::Shape;
use amr_box::{Bx, Cell};
use amr_causes::NoMemory;
use amr_ghost::{FrameParts, FramePlan, part_frames};
use amr_layout::{Layout, LevelFlows, PatchLayout, Surroundings, plan, plan_adds_in_threads};
use amr_lots::{Lot, lot_count, lot_size};
use amr_patch::Patch;
use amr_register::EdgeCell;
use std::alloc::Global;
use std::boxed::Box;
use std::mem::replace;
use std::thread::Threads;

/// The lots of a level, and what a phase of them needs.
#[derive(Drop)]
pub struct Lots {
    /// The number of the level, from 0 to 4.
    pub(crate) level: u32,
    /// How many lots were wanted.
    pub(crate) wanted: usize,
    /// How many patches each lot has; the last may have fewer.
    pub(crate) each: usize,
    /// How many places and words the board of a step has.
    pub(crate) shape: Shape,
    /// Whether the lots have packed the masses that other lots need at the next step.
    pub(crate) packed: bool,
    /// Whether they have the values of ghost cells that get no mass of a patch of the level, by the masses that the next coarser level
    /// has before its own step.
    pub(crate) valued: bool,
    /// The lots, in the order of the level's patches. A lot that is all of the level has no patches, and works on the level's own.
    pub(crate) lots: Vec<Box<Lot>>,
    /// What flowed to each word of the level in the last step, once one was made by several lots.
    pub(crate) totals: Vec<u64>,
}

/// A box of one cell.
fn one_cell() -> Bx
    ensures { IsNear result }
{
    let cell = Cell { x: 0, y: 0 };
    let Some(b) = Bx::try_new(cell, cell) else {
        unreachable!()
    };
    b
}

/// So many patches, which stand in a lot while no step is made: old ones as far as they go, and then such of one cell.
fn blank_patches(alloc: Global, old: Vec<Patch>, count: usize) -> Result<Vec<Patch>, NoMemory>
    ensures { IfOk result (λ qs. length qs.items ≡ count) }
{
    let mut patches = old;
    patches.truncate(count);
    'more: while patches.len() < count {
        patches.push(Patch::make(alloc, one_cell())?)?;
    }
    Ok(patches)
}

/// Patches that may stand in a lot while no step is made.
#[derive(Drop)]
struct Blank {
    patches: Vec<Patch>,
    /// In place of those that keep masses.
    before: Vec<Patch>,
}

/// The patches that stand in the last of these lots, which goes. There are none where there is no lot.
fn blank_of_last(alloc: Global, lots: &mut Vec<Box<Lot>>) -> Blank {
    match lots.pop() {
        Some(mut lot) => Blank {
            patches: replace(&mut lot.patches, Vec::new(alloc)),
            before: replace(&mut lot.before, Vec::new(alloc)),
        },
        None => Blank {
            patches: Vec::new(alloc),
            before: Vec::new(alloc),
        },
    }
}

/// So many empty lists of register cells, which stand in a lot while no step is made.
fn blank_edges(alloc: Global, count: usize) -> Result<Vec<Vec<EdgeCell>>, NoMemory>
    ensures count { IfOk result (λ xss. length xss.items ≡ count) }
    ensures empty { IfOk result (λ xss. All (λ v. v.items ≡ []) xss.items) }
{
    let mut lists = Vec::with_capacity(alloc, count)?;
    for _place in 0..count {
        lists.push_reserved(Vec::new(alloc));
    }
    Ok(lists)
}

/// The lot for run `k` of the patches, whose layouts are taken out of their list. `blank` are patches that may stand in it.
fn lot_for(
    alloc: Global,
    s: Surroundings<'_>,
    cut: Cut<'_>,
    layouts: &mut [PatchLayout],
    k: usize,
    blank: Blank,
) -> Result<Lot, NoMemory>
    requires cut { IsCut (around_of s) cut.each cut.runs cut.flows.now cut.parts.now }
    requires there { k < cut.runs }
    requires layouts { AreLayoutsFrom (around_of s) cut.each (k * cut.each) layouts.old }
    ensures lot { IfOk result (IsLotOf (around_of s.entry) cut.entry.each k cut.entry.runs cut.entry.parts.now) }
    ensures layouts { OnOk result (AreLayoutsFrom (around_of s.entry) cut.entry.each ((k + 1) * cut.entry.each) layouts.new) }
{
    let first = k * cut.each;
    let count = cut.each.min(s.patches.len() - first);
    let run = take_layouts(alloc, layouts, first, count)?;
    Ok(Lot {
        workspace: workspace_for(alloc, s, cut, run, k, count)?,
        patches: blank_patches(alloc, blank.patches, count)?,
        before: blank_patches(alloc, blank.before, count)?,
        edges: blank_edges(alloc, count)?,
        correction: None,
    })
}

/// A lot for each run of the patches. Patches that stand in old lots stand in the new ones.
fn lots_for(
    alloc: Global,
    s: Surroundings<'_>,
    cut: Cut<'_>,
    layouts: &mut [PatchLayout],
    mut old: Vec<Box<Lot>>,
) -> Result<Vec<Box<Lot>>, NoMemory>
    requires cut { IsCut (around_of s) cut.each cut.runs cut.flows.now cut.parts.now }
    requires layouts { AreLayoutsFrom (around_of s) cut.each 0 layouts.old }
    ensures count { IfOk result (λ xs. length xs.items ≡ cut.entry.runs) }
    ensures lots { IfOk result (λ xs. (k : ℕ) (x : boxed lot) → k < cut.entry.runs
        → IsLotOf (around_of s.entry) cut.entry.each k cut.entry.runs cut.entry.parts.now (slice_index_or xs.items k x).value) }
{
    let mut lots = Vec::with_capacity(alloc, cut.runs)?;
    for k in 0..cut.runs {
        let blank = blank_of_last(alloc, &mut old);
        let lot = lot_for(alloc, s, cut, layouts, k, blank)?;
        lots.push_reserved(Box::new(alloc, lot)?);
    }
    Ok(lots)
}

/// A lot that is all of its level: no patches stand in it.
fn whole_lot(
    alloc: Global,
    s: Surroundings<'_>,
    parts: FrameParts,
    flows: LevelFlows,
) -> Result<Lot, NoMemory>
    requires few { length s.cells.now ≤ 2 ^ 30 }
    requires flows { AreLevelFlows (around_of s) flows }
    requires copies { length parts.copies.items ≡ 1 }
    requires outer { length parts.outer.items ≡ 1 }
    ensures { IfOk result (λ x. (each : ℕ) → length s.entry.patches.now ≤ each → IsWholeLot (around_of s.entry) each parts x) }
{
    Ok(Lot {
        patches: Vec::new(alloc),
        before: Vec::new(alloc),
        edges: Vec::new(alloc),
        correction: None,
        workspace: whole_workspace(alloc, s, parts, flows)?,
    })
}

/// One lot, which is all of the level.
fn one_lot(
    alloc: Global,
    s: Surroundings<'_>,
    frames: &FramePlan,
    flows: LevelFlows,
) -> Result<Lots, NoMemory>
    requires small { length s.patches.now ≤ 2 ^ 26 }
    requires few { length s.cells.now ≤ 2 ^ 30 }
    requires edges { total (λ q. edge_count (box q)) s.patches.now ≤ 2 ^ 30 }
    requires flows { AreLevelFlows (around_of s) flows }
    requires frames { PlansUnlessFilled s.filled (domain s.problem.now s.level) s.patches.now frames.now }
    ensures lots { IfOk result (AreLots (around_of s.entry)) }
    ensures one { IfOk result (λ t. length t.lots.items ≡ 1) }
    ensures masses { IfOk result (λ t. (p : problem) (l : ℕ) (own old : Masses) → AreLotsOf p l own old t) }
{
    let each = s.patches.len().max(1);
    let parts = part_frames(alloc, frames, each, 1)?;
    let lot = Box::new(alloc, whole_lot(alloc, s, parts, flows)?)?;
    let mut lots = Vec::with_capacity(alloc, 1)?;
    lots.push_reserved(lot);
    Ok(Lots {
        level: s.level,
        wanted: 1,
        each,
        shape: Shape {
            places: 0,
            words: 0,
        },
        packed: true,
        valued: false,
        lots,
        totals: Vec::new(alloc),
    })
}

/// Several lots: as many as are wanted, or the fewer that hold all patches. Old lots leave the patches that stand in them.
fn several_lots(
    alloc: Global,
    s: Surroundings<'_>,
    frames: &FramePlan,
    flows: &LevelFlows,
    wanted: usize,
    old: Vec<Box<Lot>>,
) -> Result<Lots, NoMemory>
    requires several { 2 ≤ wanted }
    requires level { IsSurroundings s }
    requires small { length s.patches.now ≤ 2 ^ 26 }
    requires few { length s.cells.now ≤ 2 ^ 30 }
    requires edges { total (λ q. edge_count (box q)) s.patches.now ≤ 2 ^ 30 }
    requires cells { HasRegisterCells (around_of s) }
    requires flows { AreLevelFlows (around_of s) flows.now }
    requires frames { PlansUnlessFilled s.filled (domain s.problem.now s.level) s.patches.now frames.now }
    ensures lots { IfOk result (AreLots (around_of s.entry)) }
    ensures count { IfOk result (λ t. length t.lots.items ≡ lot_count wanted (length s.entry.patches.now)) }
    ensures masses { IfOk result (λ t. (p : problem) (l : ℕ) (own old : Masses) → AreLotsOf p l own old t) }
{
    let each = lot_size(s.patches.len(), wanted);
    let runs = lot_count(s.patches.len(), wanted);
    let parts = part_frames(alloc, frames, each, runs)?;
    let Layout {
        places,
        mut patches,
    } = plan(alloc, s, each)?;
    let cut = Cut {
        each,
        runs,
        flows,
        parts: &parts,
    };
    let words = 2 + 2 * s.cells.len();
    let lots = lots_for(alloc, s, cut, &mut patches, old)?;
    Ok(Lots {
        level: s.level,
        wanted,
        each,
        shape: Shape {
            places,
            words: words as u32,
        },
        packed: s.filled,
        valued: false,
        lots,
        totals: vec![in alloc; 0u64; words]?,
    })
}

/// The lots of these patches, where so many are wanted: these are their flows to words, and this plan tells where the ghost cells get their
/// values from. Old lots leave the patches that stand in them.
pub fn lots_of(
    alloc: Global,
    s: Surroundings<'_>,
    frames: &FramePlan,
    flows: LevelFlows,
    wanted: usize,
    old: Vec<Box<Lot>>,
) -> Result<Lots, NoMemory>
    requires level { IsSurroundings s }
    requires small { length s.patches.now ≤ 2 ^ 26 }
    requires few { length s.cells.now ≤ 2 ^ 30 }
    requires edges { total (λ q. edge_count (box q)) s.patches.now ≤ 2 ^ 30 }
    requires cells { HasRegisterCells (around_of s) }
    requires flows { AreLevelFlows (around_of s) flows }
    requires frames { PlansUnlessFilled s.filled (domain s.problem.now s.level) s.patches.now frames.now }
    ensures lots { IfOk result (AreLots (around_of s.entry)) }
    ensures count { IfOk result (λ t. 0 < length s.entry.patches.now → length t.lots.items ≡ lot_count wanted (length s.entry.patches.now)) }
    ensures masses { IfOk result (λ t. (p : problem) (l : ℕ) (own old : Masses) → AreLotsOf p l own old t) }
{
    if wanted < 2 {
        return one_lot(alloc, s, frames, flows);
    }
    several_lots(alloc, s, frames, &flows, wanted, old)
}

/// The lots of all patches of a level. Where each flow goes is worked out by as many threads as lots are wanted.
pub(crate) fn make_lots<R: Threads + Sync>(
    rt: &R,
    alloc: Global,
    s: Surroundings<'_>,
    frames: &FramePlan,
    wanted: usize,
    old: Vec<Box<Lot>>,
) -> Result<Lots, NoMemory>
    requires all { AreAll s }
    requires level { IsSurroundings s }
    requires cells { HasRegisterCells (around_of s) }
    requires frames { PlansUnlessFilled s.filled (domain s.problem.now s.level) s.patches.now frames.now }
    ensures lots { IfOk result (AreLots (around_of s.entry)) }
    ensures count { IfOk result (λ t. 0 < length s.entry.patches.now → length t.lots.items ≡ lot_count wanted (length s.entry.patches.now)) }
    ensures masses { IfOk result (λ t. (p : problem) (l : ℕ) (own old : Masses) → AreLotsOf p l own old t) }
    ensures few { OnOk result (2 + 2 * length s.entry.cells.now < 2 ^ 32) }
{
    let flows = plan_adds_in_threads(rt, wanted, alloc, s)?;
    lots_of(alloc, s, frames, flows, wanted, old)
}

/// The totals of the words of the level, after a step.
pub(crate) fn totals_of(lots: &Lots) -> &[u64]
    requires { is_one lots.now ≡ true → 0 < length lots.now.lots.items }
    ensures { result.now ≡ totals_of lots.now }
{
    if lots.wanted < 2 {
        return &lots.lots[0].workspace.totals;
    }
    &lots.totals
}

/// Whether one lot is all of the level.
pub fn is_one(lots: &Lots) -> bool
    ensures { result ≡ is_one lots.now }
{
    lots.wanted < 2
}
