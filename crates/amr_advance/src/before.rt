//! The masses that a level has before its step, by which both steps of the next finer one fill ghost cells (Berger and Colella 1989: time
//! refinement). They are copied into a level on the same boxes. Where the level's patches are shared out in lots its workers copy them.

ghost use Rattle.std.specs.Prelude.{◌≡◌, IfSome, Some, length, map};
ghost use Rattle.std.specs.List.{AllZip};
ghost use Rattle.amr_patch.specs.Levels.{level_of, patches_of};
ghost use Rattle.amr_patch.specs.Patches.{box};
ghost use Rattle.amr_alike.specs.Copied.{IsCopied};
ghost use Rattle.amr_lots.specs.declared.lot.Duty.TheVariants.{Keep};
ghost use Rattle.amr_advance.specs.Crews.{MayRun};
ghost use Rattle.amr_advance.specs.KeptLayouts.{IsKeptLayout, StaysKept};
ghost use Rattle.amr_advance.specs.Lots.{AreLotsFor, StillServe};

use crate::crew::Workers;
use crate::kept_layout::KeptLayout;
use crate::lots::Lots;
use crate::phases::{PhaseInput, basis_of, serve_lots};
use amr_alike::{copy_masses, have_boxes};
use amr_def::Problem;
use amr_lots::{Duty, exchange_before, exchange_runs};
use amr_patch::{Level, Patch};
use amr_workers::Gate;
use std::sync::Wait;
use std::thread::Threads;

/// Has workers copy the masses of patches into others with the same boxes, each those of a lot. All else of lots and patches is as before.
fn keep_in_lots<R: Threads + Wait + Sync, G: Gate + Sync>(
    workers: &mut Workers<'_, R, G>,
    phase: PhaseInput<'_>,
    patches: &mut [Patch],
    before: &mut [Patch],
    lots: &mut Lots,
)
    requires duty { phase.duty ≡ Keep }
    requires problem { phase.basis.now.problem.value ≡ phase.problem.now }
    requires lots { AreLotsFor (map box patches.old) lots.old }
    requires boxes { map box before.old ≡ map box patches.old }
    requires crew { MayRun G.admits phase.problem.now (length patches.old) workers.old }
    ensures workers { workers.new ≡ workers.old }
    ensures patches { patches.new ≡ patches.old }
    ensures copied { AllZip IsCopied patches.old before.new }
    ensures lots { StillServe (λ m. m) lots.old lots.new }
{
    exchange_runs(patches, &mut lots.lots, lots.each);
    exchange_before(before, &mut lots.lots, lots.each);
    serve_lots(workers, phase, &mut lots.lots);
    exchange_before(before, &mut lots.lots, lots.each);
    exchange_runs(patches, &mut lots.lots, lots.each);
}

/// Has workers copy the masses of a level into another one with the same patch boxes, in lots of the level's patches.
fn keep_by_lots<R: Threads + Wait + Sync, G: Gate + Sync>(
    workers: &mut Workers<'_, R, G>,
    p: &Problem,
    level: &mut Level,
    before: &mut Level,
    lots: &mut Lots,
)
    requires lots { AreLotsFor (map box (patches_of level.old)) lots.old }
    requires boxes { map box (patches_of before.old) ≡ map box (patches_of level.old) }
    requires crew { MayRun G.admits p.now (length (patches_of level.old)) workers.old }
    ensures workers { workers.new ≡ workers.old }
    ensures masses { (level_of before.new).masses ≡ (level_of level.old).masses }
    ensures boxes { (level_of before.new).boxes ≡ (level_of before.old).boxes }
    ensures patches { map box (patches_of before.new) ≡ map box (patches_of before.old) }
    ensures level { level_of level.new ≡ level_of level.old }
    ensures level_patches { patches_of level.new ≡ patches_of level.old }
    ensures lots { StillServe (λ m. m) lots.old lots.new }
{
    let order = level.order();
    let mut patches = level.take_patches();
    let before_order = before.order();
    let mut copies = before.take_patches();
    let basis = basis_of(p, &patches, None);
    let phase = PhaseInput {
        alloc: *patches.allocator(),
        problem: p,
        level: lots.level,
        duty: Duty::Keep,
        basis: &basis,
    };
    keep_in_lots(workers, phase, &mut patches, &mut copies, lots);
    before.put_patches_in_order(copies, before_order);
    level.put_patches_in_order(patches, order);
}

/// The same by the layout that is kept of the level, where it has lots of the level's patches, else by this thread alone.
fn keep_by_layout<R: Threads + Wait + Sync, G: Gate + Sync>(
    workers: &mut Workers<'_, R, G>,
    p: &Problem,
    level: &mut Level,
    before: &mut Level,
    layout: &mut KeptLayout,
)
    requires boxes { map box (patches_of before.old) ≡ map box (patches_of level.old) }
    requires crew { MayRun G.admits p.now (length (patches_of level.old)) workers.old }
    requires kept { IsKeptLayout p.now layout.old }
    ensures workers { workers.new ≡ workers.old }
    ensures masses { (level_of before.new).masses ≡ (level_of level.old).masses }
    ensures boxes { (level_of before.new).boxes ≡ (level_of before.old).boxes }
    ensures patches { map box (patches_of before.new) ≡ map box (patches_of before.old) }
    ensures level { level_of level.new ≡ level_of level.old }
    ensures level_patches { patches_of level.new ≡ patches_of level.old }
    ensures kept { StaysKept (λ m. m) (Some layout.old) (Some layout.new) }
{
    if !have_boxes(level.patches(), &layout.boxes) {
        return copy_masses(level, before);
    }
    if layout.lots.wanted < 2 {
        return copy_masses(level, before);
    }
    keep_by_lots(workers, p, level, before, &mut layout.lots);
}

/// Copies the masses of a level into another one whose patches have the same boxes in the same order: by workers where the level's patches
/// are shared out in lots, else by this thread alone. The level stays, and `kept`, what is kept of it, serves its next step. Where there
/// is no memory for the workers' board this thread alone copies them.
pub fn keep_masses<R: Threads + Wait + Sync, G: Gate + Sync>(
    workers: &mut Workers<'_, R, G>,
    p: &Problem,
    level: &mut Level,
    before: &mut Level,
    kept: &mut Option<KeptLayout>,
)
    requires boxes { map box (patches_of before.old) ≡ map box (patches_of level.old) }
    requires crew { MayRun G.admits p.now (length (patches_of level.old)) workers.old }
    requires kept { IfSome kept.old (IsKeptLayout p.now) }
    ensures workers { workers.new ≡ workers.old }
    ensures masses { (level_of before.new).masses ≡ (level_of level.old).masses }
    ensures boxes { (level_of before.new).boxes ≡ (level_of before.old).boxes }
    ensures patches { map box (patches_of before.new) ≡ map box (patches_of before.old) }
    ensures level { level_of level.new ≡ level_of level.old }
    ensures level_patches { patches_of level.new ≡ patches_of level.old }
    ensures kept { StaysKept (λ m. m) kept.old kept.new }
{
    match kept {
        Some(layout) => keep_by_layout(workers, p, level, before, layout),
        None => copy_masses(level, before),
    }
}
