//! Steps of levels: of one level and of those finer than it, each of which makes twice as many.

ghost use Rattle.std.specs.Prelude.{◌≡◌, ℕ, [], ◌∷◌, ◌+◌, ◌<◌, ◌≤◌, ◌^◌, true, IfOk, IfSome, OnOk, None};
ghost use Rattle.std.specs.Prelude.{Some, length, map};
ghost use Rattle.std.specs.Arc.{arc_value};
ghost use Rattle.std.specs.List.{All};
ghost use Rattle.std.specs.Option.{option_copied};
ghost use Rattle.amr_def.specs.Flux.{updated};
ghost use Rattle.amr_patch.specs.Levels.{level_of, patches_of};
ghost use Rattle.amr_patch.specs.Patches.{box};
ghost use Rattle.amr_transfer.specs.Sums.{AreCoarsenable};
ghost use Rattle.amr_advance.specs.Crews.{MayRun};
ghost use Rattle.amr_advance.specs.Outer.{IsSharedOf};
ghost use Rattle.amr_advance.specs.Registers.{HasCoarser};
ghost use Rattle.amr_cycle.specs.Cycles.{IsCoarsePart, IsPartOfStep, patch_boxes};
ghost use Rattle.amr_cycle.specs.Steps.{AreReady, AreRegsFor, Gains, IsKeptIn, StandsBelow, after_in, all_inflow, all_outflow, coarser_in};
ghost use Rattle.amr_cycle.specs.Steps.{flux_in, own_inflow, own_outflow};

use crate::context::LevelContext;
use crate::correction::correct;
use crate::kept::{KeptCoarser, KeptLevel, below_for};
use amr_advance::{Regs, Stale, Workers, advance_kept, forget};
use amr_box::Bx;
use amr_causes::NoMemory;
use amr_patch::Level;
use amr_workers::{Gate, sole};
use std::alloc::Global;
use std::sync::{Arc, Wait};
use std::thread::Threads;

/// What both steps of the next finer level stand on: the level with the masses before its own step, and the finer
/// level's patch boxes. And what those steps add to, the level's register among them.
#[derive(Drop)]
struct Below {
    before: Arc<Level, Global>,
    finer: Vec<Bx>,
    regs: Regs,
}

/// Makes a step of the finest level.
fn step_finest<R: Threads + Wait + Sync, G: Gate + Sync>(
    given: &LevelContext<'_>,
    workers: &mut Workers<'_, R, G>,
    level: &mut Level,
    regs: &mut Regs,
    own: &mut KeptLevel,
) -> Result<(), NoMemory>
    requires number { given.now.level ≤ 4 }
    requires part { IsPartOfStep given.now.problem.now given.now.level (level_of level.old ∷ []) (coarser_in given.now) }
    requires regs { AreRegsFor given.now (level_of level.old) regs.old }
    requires crew { (tasks : ℕ) → MayRun G.admits given.now.problem.now tasks workers.old }
    requires inflow { regs.old.inflow + all_inflow given.now (level_of level.old ∷ []) < 2 ^ 63 }
    requires outflow { regs.old.outflow + all_outflow given.now (level_of level.old ∷ []) < 2 ^ 63 }
    requires kept { IsKeptIn given.now (level_of level.old) own.old }
    requires shared { IsSharedOf given.now.old given.now.shared }
    ensures workers { workers.new ≡ workers.old }
    ensures kept { OnOk result (IsKeptIn given.now (level_of level.new) own.new) }
    ensures level { OnOk result (level_of level.new ∷ [] ≡ after_in given.now (level_of level.old ∷ [])) }
    ensures patches { OnOk result (map box (patches_of level.new) ≡ map box (patches_of level.old)) }
    ensures coarser { OnOk result (Gains given.now (level_of level.old) regs.old.coarser regs.new.coarser) }
    ensures finer { OnOk result (regs.new.finer ≡ None) }
    ensures inflow { OnOk result (regs.new.inflow ≡ regs.old.inflow + all_inflow given.now (level_of level.old ∷ [])) }
    ensures outflow { OnOk result (regs.new.outflow ≡ regs.old.outflow + all_outflow given.now (level_of level.old ∷ [])) }
{
    advance_kept(
        workers,
        given.problem,
        given.level,
        level,
        given.old,
        given.shared,
        None,
        regs,
        &mut own.layout,
    )
}

/// Makes a step of a level that has a finer one, `next`, by plain fluxes. The level's new register has lost those through its
/// coarse-fine edges. Its masses are corrected afterwards ([`correct`]).
fn step_coarse<R: Threads + Wait + Sync, G: Gate + Sync>(
    given: &LevelContext<'_>,
    workers: &mut Workers<'_, R, G>,
    level: &mut Level,
    next: &Level,
    regs: &mut Regs,
    own: &mut KeptLevel,
) -> Result<Below, NoMemory>
    requires number { given.now.level ≤ 3 }
    requires part { IsCoarsePart given.now.problem.now given.now.level (level_of level.old) (level_of next.now) (coarser_in given.now) }
    requires coarser { HasCoarser given.now.problem.now given.now.level (level_of level.old) (option_copied given.now.old) regs.old.coarser }
    requires crew { (tasks : ℕ) → MayRun G.admits given.now.problem.now tasks workers.old }
    requires inflow { regs.old.inflow + own_inflow given.now (level_of level.old) (level_of next.now) < 2 ^ 63 }
    requires outflow { regs.old.outflow + own_outflow given.now (level_of level.old) (level_of next.now) < 2 ^ 63 }
    requires kept { IsKeptIn given.now (level_of level.old) own.old }
    requires shared { IsSharedOf given.now.old given.now.shared }
    ensures workers { workers.new ≡ workers.old }
    ensures kept { OnOk result (IsKeptIn given.now (level_of level.new) own.new) }
    ensures below { IfOk result (StandsBelow given.now level.old next.now regs.old) }
    ensures masses { OnOk result ((level_of level.new).masses ≡ updated (level_of level.old).masses (flux_in given.now (level_of level.old))) }
    ensures boxes { OnOk result ((level_of level.new).boxes ≡ (level_of level.old).boxes) }
    ensures patches { OnOk result (map box (patches_of level.new) ≡ map box (patches_of level.old)) }
    ensures coarser { OnOk result (Gains given.now (level_of level.old) regs.old.coarser regs.new.coarser) }
    ensures finer { OnOk result (regs.new.finer ≡ None) }
{
    let KeptCoarser {
        before,
        finer,
        register,
    } = below_for(workers, given, level, next, own)?;
    regs.finer = Some(register);
    advance_kept(
        workers,
        given.problem,
        given.level,
        level,
        given.old,
        given.shared,
        Some(next),
        regs,
        &mut own.layout,
    )?;
    Ok(Below {
        before: Arc::new(given.alloc, before)?,
        finer,
        regs: Regs {
            coarser: regs.finer.take(),
            finer: None,
            inflow: regs.inflow,
            outflow: regs.outflow,
        },
    })
}

/// What is kept of it when both steps are made.
fn kept_of<R: Wait>(rt: &R, below: Below) -> Option<KeptCoarser>
    ensures { IfSome result (λ b. (b.before ≡ arc_value below.before) × (b.finer ≡ below.finer) × (Some b.register ≡ below.regs.coarser)) }
{
    let Below {
        before,
        finer,
        regs,
    } = below;
    let register = regs.coarser?;
    Some(KeptCoarser {
        before: sole(rt, before),
        finer,
        register,
    })
}

/// Makes a step of a level and of the levels finer than it, each of which makes two for each of the next coarser one. `kept` is what
/// they keep from one step to the next, from this level on. The step may be made `again`, beside the same masses of the next coarser level as
/// the last one: the second of two.
///
/// The register of the coarser level gains what flows through this level's faces beside its cells. The sums gain what
/// flows through open sides beside cells that no finer level covers, in all steps that are made.
pub(crate) fn step_levels<R: Threads + Wait + Sync, G: Gate + Sync>(
    given: &LevelContext<'_>,
    again: bool,
    workers: &mut Workers<'_, R, G>,
    level: &mut Level,
    finer: &mut [Level],
    regs: &mut Regs,
    kept: &mut [KeptLevel],
) -> Result<(), NoMemory>
    requires few { given.now.level + length finer.old ≤ 4 }
    requires part { IsPartOfStep given.now.problem.now given.now.level (level_of level.old ∷ map level_of finer.old) (coarser_in given.now) }
    requires regs { AreRegsFor given.now (level_of level.old) regs.old }
    requires coarsenable { All (λ k. AreCoarsenable (patches_of k)) finer.old }
    requires crew { (tasks : ℕ) → MayRun G.admits given.now.problem.now tasks workers.old }
    requires inflow { regs.old.inflow + all_inflow given.now (level_of level.old ∷ map level_of finer.old) < 2 ^ 63 }
    requires outflow { regs.old.outflow + all_outflow given.now (level_of level.old ∷ map level_of finer.old) < 2 ^ 63 }
    requires kept { AreReady given.now again (level_of level.old ∷ map level_of finer.old) kept.old }
    requires room { length finer.old < length kept.old }
    requires shared { IsSharedOf given.now.old given.now.shared }
    ensures workers { workers.new ≡ workers.old }
    ensures kept { OnOk result (AreReady given.now true (level_of level.new ∷ map level_of finer.new) kept.new) }
    ensures kept_count { OnOk result (length kept.new ≡ length kept.old) }
    ensures levels { OnOk result (level_of level.new ∷ map level_of finer.new ≡ after_in given.now (level_of level.old ∷ map level_of finer.old)) }
    ensures patches { OnOk result (patch_boxes (level.new ∷ finer.new) ≡ patch_boxes (level.old ∷ finer.old)) }
    ensures coarser { OnOk result (Gains given.now (level_of level.old) regs.old.coarser regs.new.coarser) }
    ensures finer { OnOk result (regs.new.finer ≡ None) }
    ensures inflow { OnOk result (regs.new.inflow ≡ regs.old.inflow + all_inflow given.now (level_of level.old ∷ map level_of finer.old)) }
    ensures outflow { OnOk result (regs.new.outflow ≡ regs.old.outflow + all_outflow given.now (level_of level.old ∷ map level_of finer.old)) }
{
    let Some((own, rest)) = kept.split_first_mut() else {
        unreachable!()
    };
    let stale = Stale {
        own: false,
        coarser: !again,
    };
    forget(&mut own.layout, stale);
    let Some((next, finest)) = finer.split_first_mut() else {
        return step_finest(given, workers, level, regs, own);
    };
    let mut below = step_coarse(given, workers, level, next, regs, own)?;
    let inner = (&*given).for_finer(&below.before);
    step_levels(&inner, false, workers, next, finest, &mut below.regs, rest)?;
    step_levels(&inner, true, workers, next, finest, &mut below.regs, rest)?;
    correct(
        workers,
        given.problem,
        level,
        &mut below.regs.coarser,
        next,
        &mut own.layout,
    )?;
    regs.inflow = below.regs.inflow;
    regs.outflow = below.regs.outflow;
    own.below = kept_of(workers.runtime, below);
    Ok(())
}
