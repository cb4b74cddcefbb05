//! A step of a level.

ghost use Rattle.std.specs.Prelude.{◌≡◌, pos, max, min, IfSome, OnOk, OnErr, length, map};
ghost use Rattle.std.specs.Option.{option_copied};
ghost use Rattle.amr_patch.specs.Levels.{level_of, patches_of};
ghost use Rattle.amr_patch.specs.Patches.{ArePatchesApart, box, masses_in};
ghost use Rattle.amr_ghost.specs.Frames.{old_masses};
ghost use Rattle.amr_advance.specs.Crews.{MayRun, MayWork};
ghost use Rattle.amr_advance.specs.KeptLayouts.{IsKeptOf};
ghost use Rattle.amr_advance.specs.Outer.{IsSharedOf};
ghost use Rattle.amr_advance.specs.Registers.{BothChange, cells_of};
ghost use Rattle.amr_advance.specs.Steps.{HasAdvanced, HasNotAdvanced, LeavesStep, MayAdvance, MayStepPatches, all_around, coarser_masses, step_of};

use crate::crew::{Crew, Workers};
use crate::kept_layout::{KeptLayout, layout_for};
use crate::level::{StepInput, run_level};
use crate::phases::basis_of;
use crate::registers::{Regs, put_edges, take_edges, take_nets};
use crate::totals::add_totals;
use amr_box::Cell;
use amr_causes::NoMemory;
use amr_def::Problem;
use amr_patch::{Level, Order, Patch};
use amr_register::Register;
use amr_workers::Gate;
use std::alloc::Global;
use std::sync::{Arc, Wait};
use std::thread::Threads;

/// How many lots these workers have the patches of a level in: one for each worker, but no more than patches.
fn lots_wanted<R, G: Gate>(workers: &Workers<'_, R, G>, patches: &[Patch]) -> usize
    ensures { result ≡ max 1 (min workers.now.count (length patches.now)) }
{
    (workers.count as usize).min(patches.len()).max(1)
}

/// The cells of a flux register, none where there is no register.
fn cells_of(register: &Option<Register>) -> &[Cell]
    ensures { result.now ≡ cells_of register.now }
{
    match register {
        Some(register) => register.cells(),
        None => &[],
    }
}

/// Makes a step of the patches of a level. The layout that is kept has the totals of its words. The register over the next finer level
/// loses the level's own flows through its coarse-fine edges. If allocation fails the patches have the masses of before, and the
/// register has the entries of before.
fn step_patches<R: Threads + Wait + Sync, G: Gate + Sync>(
    workers: &mut Workers<'_, R, G>,
    given: StepInput<'_>,
    order: Order,
    patches: &mut [Patch],
    register: &mut Option<Register>,
    kept: &mut Option<KeptLayout>,
) -> Result<(), NoMemory>
    requires may { MayStepPatches given order patches.old register.old }
    requires kept { IfSome kept.old (IsKeptOf given.problem.now given.level (masses_in patches.old) (coarser_masses given)) }
    requires crew { MayRun G.admits given.problem.now (length patches.old) workers.old }
    ensures workers { workers.new ≡ workers.old }
    ensures stepped { OnOk result (LeavesStep (all_around given.entry patches.old)
        (coarser_masses given.entry) patches.new register.old register.new kept.new) }
    ensures boxes { map box patches.new ≡ map box patches.old }
    ensures apart { ArePatchesApart patches.new }
    ensures same_masses { OnErr result (masses_in patches.new ≡ masses_in patches.old) }
    ensures same_register { OnErr result (BothChange (λ c. pos 0) register.old register.new) }
    ensures kept { IfSome kept.new (IsKeptOf given.entry.problem.now given.entry.level (masses_in patches.new) (coarser_masses given.entry)) }
{
    let wanted = lots_wanted(workers, patches);
    let mut layout = layout_for(workers.runtime, given, order, patches, wanted, kept)?;
    let mut edges = take_edges(given.alloc, register);
    let run = run_level(workers, given, patches, &mut edges, &mut layout);
    put_edges(register, edges);
    run?;
    take_nets(register);
    *kept = Some(layout);
    Ok(())
}

/// The same as `advance`, for a level that makes many steps. What depends on boxes alone, the layout of the step and
/// the workspaces of its tasks, is taken from `kept` where it was made for the same boxes. Else it is made anew. It is
/// kept afterwards, but not after `NoMemory`.
///
/// There are from 1 to 64 workers. `kept` and the team, where there is one, are of the same problem. What is kept of masses, where it keeps any,
/// is of those of the level and of `old`: who changes masses between two steps has what is stale forgotten ([`forget`](crate::forget)).
/// `shared` is a share of `old` where there is one: then workers can find values in it, too. The register over the next finer level
/// has a list of register cells for each patch, as [`Register::make`] gives it. It serves each step until boxes change.
pub fn advance_kept<R: Threads + Wait + Sync, G: Gate + Sync>(
    workers: &mut Workers<'_, R, G>,
    p: &Problem,
    l: u32,
    level: &mut Level,
    old: Option<&Level>,
    shared: Option<&Arc<Level, Global>>,
    finer: Option<&Level>,
    regs: &mut Regs,
    kept: &mut Option<KeptLayout>,
) -> Result<(), NoMemory>
    requires may { MayAdvance (step_of p.now l level.old (option_copied old) (option_copied finer)) regs.old }
    requires shared { IsSharedOf old shared }
    requires crew { MayRun G.admits p.now (length (patches_of level.old)) workers.old }
    requires kept { IfSome kept.old (IsKeptOf p.now l (level_of level.old).masses (old_masses (option_copied old))) }
    ensures workers { workers.new ≡ workers.old }
    ensures made { OnOk result (HasAdvanced (step_of p.now l level.old (option_copied old.entry) (option_copied finer.entry)) regs.old level.new regs.new) }
    ensures not_made { OnErr result (HasNotAdvanced (step_of p.now l level.old (option_copied old.entry) (option_copied finer.entry)) regs.old
        level.new regs.new) }
    ensures kept { IfSome kept.new (IsKeptOf p.now l (level_of level.new).masses (old_masses (option_copied old.entry))) }
{
    let order = level.order();
    let mut patches = level.take_patches();
    let basis = basis_of(p, &patches, old);
    let given = StepInput {
        alloc: *patches.allocator(),
        problem: p,
        level: l,
        old,
        shared,
        finer,
        cells: cells_of(&regs.coarser),
        filled: false,
        basis: &basis,
    };
    let stepped = step_patches(workers, given, order, &mut patches, &mut regs.finer, kept);
    level.put_patches_in_order(patches, order);
    stepped?;
    add_totals(kept, regs);
    Ok(())
}

/// Makes a step of level `l` by workers (Berger and Colella 1989). Each cell gets what flows in through its faces by
/// the plain fluxes of the level, whatever a finer level covers. `old` is the next coarser level with the masses before
/// its own step, `finer` the next finer one. Several workers work on a board, a lone one goes over the patches in
/// order.
///
/// The register of the coarser level gains what flows through this level's faces beside its cells. The one over the
/// finer level loses the plain flows through the level's coarse-fine edges. The sums gain what flows in and out through
/// open sides beside cells that no finer level covers. The outcome is the same for any number of workers, whoever draws
/// which task.
///
/// The crew has one rank, and from 1 to 64 workers. All memory whose lack is a refusal is taken before the first task is drawn.
/// `NoMemory` is the only refusal, and also stands for more than 2^26 patches or 2^30 faces: then the level has the masses of before, and `regs` has
/// the entries and sums of before. The call joins its workers, and keeps this promise if it returns.
pub fn advance<R: Threads + Wait + Sync, G: Gate + Sync>(
    rt: &R,
    p: &Problem,
    l: u32,
    level: &mut Level,
    old: Option<&Level>,
    finer: Option<&Level>,
    regs: &mut Regs,
    crew: Crew,
    gate: &G,
) -> Result<(), NoMemory>
    requires may { MayAdvance (step_of p.now l level.old (option_copied old) (option_copied finer)) regs.old }
    requires crew { MayWork G.admits gate.now (length (patches_of level.old)) crew }
    ensures made { OnOk result (HasAdvanced (step_of p.now l level.old (option_copied old.entry) (option_copied finer.entry)) regs.old level.new regs.new) }
    ensures not_made { OnErr result (HasNotAdvanced (step_of p.now l level.old (option_copied old.entry) (option_copied finer.entry)) regs.old
        level.new regs.new) }
{
    let mut workers = Workers {
        runtime: rt,
        gate,
        count: crew.workers,
        team: None,
    };
    advance_kept(&mut workers, p, l, level, old, None, finer, regs, &mut None)
}
