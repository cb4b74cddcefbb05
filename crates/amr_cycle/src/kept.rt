//! What the steps of levels keep from one to the next, until boxes change.

ghost use Rattle.std.specs.Prelude.{◌≡◌, ◌≤◌, ℕ, suc, pos, List, IfOk, IfSome, IsTrue, length, map};
ghost use Rattle.amr_box.specs.declared.Cell.{Cell};
ghost use Rattle.amr_def.specs.declared.problem.Problem.{Problem};
ghost use Rattle.amr_def.specs.Facts.{IsLevel, IsNestedLevel};
ghost use Rattle.amr_def.specs.State.{Level as StateLevel};
ghost use Rattle.amr_patch.specs.Levels.{level_of, patches_of};
ghost use Rattle.amr_patch.specs.Patches.{box};
ghost use Rattle.amr_register.specs.Fields.{SameCells, entry_in};
ghost use Rattle.amr_advance.specs.KeptLayouts.{IsKeptLayout, StaysKept};
ghost use Rattle.amr_advance.specs.Crews.{MayRun};
ghost use Rattle.amr_cycle.specs.KeptLevels.{AreKept, HasBoxesOf, IsCoarserOf, IsKeptFor, IsOnSameBoxes};
ghost use Rattle.amr_cycle.specs.Steps.{IsKeptIn};

use crate::context::LevelContext;
use amr_advance::{KeptLayout, Stale, Workers, forget, keep_masses};
use amr_alike::{are_same, boxes_of, copy_masses, have_boxes, have_same_boxes};
use amr_box::Bx;
use amr_causes::NoMemory;
use amr_def::Problem;
use amr_patch::Level;
use amr_register::Register;
use amr_workers::Gate;
use std::alloc::Global;
use std::sync::Wait;
use std::thread::Threads;

/// What a level keeps for both steps of the next finer one. There is a level on its own boxes, in which its masses
/// before its step stand, the patch boxes of the finer level, and its flux register.
#[derive(Drop)]
pub(crate) struct KeptCoarser {
    pub(crate) before: Level,
    pub(crate) finer: Vec<Bx>,
    pub(crate) register: Register,
}

/// What the step of a level keeps for its next one. Each part is made anew where boxes have changed.
#[derive(Drop)]
pub(crate) struct KeptLevel {
    pub(crate) layout: Option<KeptLayout>,
    pub(crate) below: Option<KeptCoarser>,
}

/// What the steps of a run keep from one to the next: layouts, workspaces, flux registers, and room for the masses before a step.
/// All of it depends on boxes alone, and what no longer fits them is made anew. The one exception are masses that were packed for the
/// next step: who changes masses between two steps has these forgotten by [`Kept::forget_masses`].
#[derive(Drop)]
pub struct Kept {
    pub(crate) levels: Option<Vec<KeptLevel>>,
}

impl Kept {
    /// Nothing yet, of any problem and levels.
    pub const fn nothing() -> Kept
        ensures { (p : Problem) (levels : List StateLevel) → IsKeptFor p levels result }
    {
        Kept { levels: None }
    }

    /// Forgets what is kept of masses, since they changed otherwise than by a step, as by a regrid: it is kept of whatever levels came in
    /// their place. It is worked out anew at the next step.
    pub fn forget_masses(&mut self)
        ensures { (p : Problem) (before now : List StateLevel) → IsKeptFor p before self.old → IsKeptFor p now self.new }
    {
        if let Some(levels) = &mut self.levels {
            forget_all(levels);
        }
    }
}

/// Forgets what is kept of the masses of each of these levels.
fn forget_all(kept: &mut [KeptLevel])
    ensures { (p : Problem) (before now : List StateLevel) → AreKept p 0 before kept.old → AreKept p 0 now kept.new }
{
    let stale = Stale {
        own: true,
        coarser: false,
    };
    for k in 0..kept.len() {
        forget(&mut kept[k].layout, stale);
    }
}

/// Whether a level that is kept has the boxes of another one, and its patches have theirs.
fn is_on_boxes_of(kept: &Level, level: &Level) -> bool
    ensures { IsTrue result → HasBoxesOf kept.now level.now }
{
    if !are_same(kept.boxes(), level.boxes()) {
        return false;
    }
    have_same_boxes(kept.patches(), level.patches())
}

/// Whether what is kept was made over the boxes of a level and of the next finer one.
fn serves(kept: &KeptCoarser, level: &Level, next: &Level) -> bool
    ensures { IsTrue result → IsOnSameBoxes kept.now level.now next.now }
{
    if !is_on_boxes_of(&kept.before, level) {
        return false;
    }
    have_boxes(next.patches(), &kept.finer)
}

/// Brings up to date what was kept over the same boxes: the masses of the level, which workers copy where they share its patches out, and
/// a register of zeros. The level stays, and what is kept of it serves its next step.
fn renew<R: Threads + Wait + Sync, G: Gate + Sync>(
    workers: &mut Workers<'_, R, G>,
    p: &Problem,
    kept: &mut KeptCoarser,
    level: &mut Level,
    layout: &mut Option<KeptLayout>,
)
    requires boxes { map box (patches_of kept.old.before) ≡ map box (patches_of level.old) }
    requires crew { (tasks : ℕ) → MayRun G.admits p.now tasks workers.old }
    requires layout { IfSome layout.old (IsKeptLayout p.now) }
    ensures workers { workers.new ≡ workers.old }
    ensures before { (level_of kept.new.before).masses ≡ (level_of level.old).masses }
    ensures boxes { (level_of kept.new.before).boxes ≡ (level_of kept.old.before).boxes }
    ensures finer { kept.new.finer ≡ kept.old.finer }
    ensures patches { map box (patches_of kept.new.before) ≡ map box (patches_of kept.old.before) }
    ensures cells { SameCells kept.old.register kept.new.register }
    ensures zero { (c : Cell) → entry_in kept.new.register c ≡ pos 0 }
    ensures level { level_of level.new ≡ level_of level.old }
    ensures level_patches { patches_of level.new ≡ patches_of level.old }
    ensures layout { StaysKept (λ m. m) layout.old layout.new }
{
    keep_masses(workers, p, level, &mut kept.before, layout);
    kept.register.clear();
}

/// A level as it is before its step: in the level that is kept, where it has the same boxes, else in a copy.
fn before_in(mut kept: Level, level: &Level) -> Result<Level, NoMemory>
    ensures level { IfOk result (λ k. level_of k ≡ level_of level.now) }
    ensures patches { IfOk result (λ k. map box (patches_of k) ≡ map box (patches_of level.now)) }
{
    if !is_on_boxes_of(&kept, level) {
        return level.copy();
    }
    copy_masses(level, &mut kept);
    Ok(kept)
}

/// What both steps of the next finer level stand on, made anew: the level as it is before its step, and a register of zeros. It is
/// made by as many threads at once as there are workers.
fn make_below<R: Threads + Sync, G: Gate>(
    workers: &Workers<'_, R, G>,
    given: &LevelContext<'_>,
    before: Level,
    level: &Level,
    next: &Level,
) -> Result<KeptCoarser, NoMemory>
    requires before { level_of before ≡ level_of level.now }
    requires patches { map box (patches_of before) ≡ map box (patches_of level.now) }
    requires number { given.now.level ≤ 3 }
    requires coarse { IsLevel given.now.problem.now given.now.level (level_of level.now) }
    requires fine { IsLevel given.now.problem.now (suc given.now.level) (level_of next.now) }
    requires nested { IsNestedLevel given.now.problem.now given.now.level (level_of level.now) (level_of next.now) }
    ensures below { IfOk result (IsCoarserOf given.now.problem.now given.now.level (level_of level.now) (level_of next.now)) }
    ensures zero { IfOk result (λ b. (c : Cell) → entry_in b.register c ≡ pos 0) }
    ensures patches { IfOk result (λ b. map box (patches_of b.before) ≡ map box (patches_of level.now)) }
{
    Ok(KeptCoarser {
        before,
        finer: boxes_of(given.alloc, next.patches())?,
        register: Register::make_in_threads(
            workers.runtime,
            workers.count as usize,
            given.alloc,
            given.problem,
            given.level,
            level,
            next,
        )?,
    })
}

/// What both steps of the next finer level stand on: the level's masses as they are now, and a register of zeros. It is what is kept,
/// where boxes have not changed, else made anew; room for the masses stays where the level's own boxes have not changed. The level
/// stays, and what is kept of it, but for what was kept below it.
pub(crate) fn below_for<R: Threads + Wait + Sync, G: Gate + Sync>(
    workers: &mut Workers<'_, R, G>,
    given: &LevelContext<'_>,
    level: &mut Level,
    next: &Level,
    own: &mut KeptLevel,
) -> Result<KeptCoarser, NoMemory>
    requires number { given.now.level ≤ 3 }
    requires coarse { IsLevel given.now.problem.now given.now.level (level_of level.old) }
    requires fine { IsLevel given.now.problem.now (suc given.now.level) (level_of next.now) }
    requires nested { IsNestedLevel given.now.problem.now given.now.level (level_of level.old) (level_of next.now) }
    requires crew { (tasks : ℕ) → MayRun G.admits given.now.problem.now tasks workers.old }
    requires kept { IsKeptIn given.now (level_of level.old) own.old }
    ensures workers { workers.new ≡ workers.old }
    ensures below { IfOk result (IsCoarserOf given.now.problem.now given.now.level (level_of level.old) (level_of next.now)) }
    ensures zero { IfOk result (λ b. (c : Cell) → entry_in b.register c ≡ pos 0) }
    ensures patches { IfOk result (λ b. map box (patches_of b.before) ≡ map box (patches_of level.old)) }
    ensures level { level_of level.new ≡ level_of level.old }
    ensures level_patches { patches_of level.new ≡ patches_of level.old }
    ensures kept { IsKeptIn given.now (level_of level.new) own.new }
{
    let Some(mut below) = own.below.take() else {
        return make_below(workers, given, level.copy()?, level, next);
    };
    if serves(&below, level, next) {
        renew(workers, given.problem, &mut below, level, &mut own.layout);
        return Ok(below);
    }
    let before = before_in(below.before, level)?;
    make_below(workers, given, before, level, next)
}

/// Makes room for what so many levels keep.
pub(crate) fn make_room(
    alloc: Global,
    kept: Option<Vec<KeptLevel>>,
    count: usize,
) -> Result<Vec<KeptLevel>, NoMemory>
    ensures room { IfOk result (λ ks. count ≤ length ks.items) }
    ensures kept { (p : Problem) (levels : List StateLevel) → IfSome kept (λ ks. AreKept p 0 levels ks.items)
        → IfOk result (λ ks. AreKept p 0 levels ks.items) }
{
    let mut levels = match kept {
        Some(levels) => levels,
        None => Vec::new(alloc),
    };
    while levels.len() < count {
        levels.push(KeptLevel {
            layout: None,
            below: None,
        })?;
    }
    Ok(levels)
}
