//! One step of a level on a board, by a lone worker, and how far it got with each lot: here each patch is a lot of its own.

ghost use Rattle.std.specs.Prelude.{◌≡◌, ◌<◌, ◌∷◌, [], ℕ, false, IfOk, List};
ghost use Rattle.std.specs.Global.{Box as boxed};
ghost use Rattle.amr_patch.specs.Levels.{level_of};
ghost use Rattle.amr_patch.specs.Orders.{IsOrderOf};
ghost use Rattle.amr_layout.specs.Adds.{HasRegisterCells};
ghost use Rattle.amr_board.specs.declared.board.Shape.{Shape as form};
ghost use Rattle.amr_lots.specs.declared.lot.StepBasis.{StepBasis as ground_of};
ghost use Rattle.amr_lots.specs.declared.lot.Duty.TheVariants.{Step};
ghost use Rattle.amr_lots.specs.declared.lot.Lot.{Lot as lot};
ghost use Rattle.amr_lots.specs.declared.lot.Work.{Work as piece};
ghost use Rattle.amr_advance.specs.Phases.{IsOpened, IsPieceOf};
ghost use Rattle.amr_advance.specs.Steps.{MayMakeStep, all_around, around_of};
ghost use Rattle.amr_cycle.specs.Cycles.{HasStepToCome};

use crate::cycle::masses_after_a_step;
use amr_advance::{StepInput, Workers, is_one, layout_for, open_step, ready_lots};
use amr_board::{Board, Ended, Seat};
use amr_causes::NoMemory;
use amr_def::Problem;
use amr_layout::{Surroundings, plan};
use amr_lots::{LevelWork, LotStage, StepBasis, Work};
use amr_patch::{Level, Order, Patch, starts_of};
use amr_samples::nine_columns;
use amr_start::base;
use amr_workers::{OpenGate, run_phase};
use std::alloc::Global;
use std::snapshot::Snapshot;
use std::sync::Wait;
use std::test::Fail;
use std::thread::Threads;

/// Level 0 at the start of a problem.
pub(crate) fn start_level(alloc: Global, p: &Problem) -> Result<Level, NoMemory>
    requires { 0 < p.now.steps }
    ensures { IfOk result (λ k. HasStepToCome p.now (level_of k ∷ [])) }
{
    let mut mesh = base(alloc, p)?;
    let (_, mut levels) = mesh.take();
    let Some(level) = levels.pop() else {
        return Err(NoMemory);
    };
    Ok(level)
}

/// How many places there are for the faces between groups of so many of these patches.
fn places_of(
    given: StepInput<'_>,
    order: Order,
    patches: &[Patch],
    each: usize,
) -> Result<u32, NoMemory>
    requires some { 0 < each }
    requires step { MayMakeStep given patches.now }
    requires order { IsOrderOf order patches.now }
    requires cells { HasRegisterCells (around_of given patches.now) }
{
    let starts = starts_of(given.alloc, patches)?;
    let level = Surroundings {
        problem: given.problem,
        level: given.level,
        patches,
        order,
        starts: &starts,
        cells: given.cells,
        finer: given.finer,
        filled: given.filled,
        whole: &given.basis.patches,
    };
    Ok(plan(given.alloc, level, each)?.places)
}

/// The board of the step of these patches, each of which is a lot, and its only seat. And how many places groups of them have.
fn open_patches<R: Threads + Wait + Sync>(
    rt: &R,
    given: StepInput<'_>,
    order: Order,
    patches: &mut [Patch],
) -> Result<(Board<Work>, Seat<Work>, [u32; 3]), NoMemory>
    requires step { MayMakeStep given patches.old }
    requires order { IsOrderOf order patches.old }
    requires unfilled { given.filled ≡ false }
    requires cells { HasRegisterCells (all_around given patches.old) }
    ensures { IfOk result (λ r. (shape : form) × (xs : List (boxed lot))
        × IsOpened given.entry.basis.now given.entry.level Step given.entry.problem.now shape xs r.0 r.1) }
{
    let places = [
        places_of(given, order, patches, 1)?,
        places_of(given, order, patches, 2)?,
        places_of(given, order, patches, 3)?,
    ];
    let mut kept = None;
    let mut layout = layout_for(rt, given, order, patches, patches.len(), &mut kept)?;
    ready_lots(given, patches, &mut layout.lots);
    if is_one(&layout.lots) {
        return Err(NoMemory);
    }
    let mut workers = Workers {
        runtime: rt,
        gate: &OpenGate,
        count: 1,
        team: None,
    };
    let mut edges = Vec::new(given.alloc);
    let opened = open_step(&mut workers, given, patches, &mut edges, &mut layout.lots)?;
    let (board, seat) = opened;
    Ok((board, seat, places))
}

/// What the first step of level 0 is made from.
fn first_step<'a>(alloc: Global, p: &'a Problem, basis: &'a StepBasis) -> StepInput<'a>
    ensures problem { result.problem.now ≡ p.now }
    ensures level { result.level ≡ 0 }
    ensures old { result.old ≡ None }
    ensures shared { result.shared ≡ None }
    ensures finer { result.finer ≡ None }
    ensures cells { result.cells.now ≡ [] }
    ensures unfilled { result.filled ≡ false }
    ensures basis { result.basis.now ≡ basis.now }
{
    StepInput {
        alloc,
        problem: p,
        level: 0,
        old: None,
        shared: None,
        finer: None,
        cells: &[],
        filled: false,
        basis,
    }
}

/// The board of the step of this level 0, its only seat, and how many places there are.
fn open_level<R: Threads + Wait + Sync>(
    rt: &R,
    alloc: Global,
    p: &Problem,
    mut level: Level,
) -> Result<(Board<Work>, Seat<Work>, [u32; 3]), NoMemory>
    requires { HasStepToCome p.now (level_of level ∷ []) }
    ensures { IfOk result (λ r. (basis : ground_of) × (shape : form) × (xs : List (boxed lot)) × IsOpened basis 0 Step p.now shape xs r.0 r.1) }
{
    let order = level.order();
    let mut patches = level.take_patches();
    let basis = StepBasis {
        problem: Snapshot::of(p),
        patches: Snapshot::of(&patches),
        coarser: None,
    };
    let given = first_step(alloc, p, &basis);
    let opened = open_patches(rt, given, order, &mut patches)?;
    Ok(opened)
}

/// How far each of so many tasks got.
fn stages(alloc: Global, mut ended: Ended<Work>, count: u32) -> Result<Vec<LotStage>, NoMemory>
    requires { (t : ℕ) → t < count → (w : piece) × IsPieceOf ended t w }
{
    let mut all = Vec::new(alloc);
    for task in 0..count {
        let work = ended.hand(task);
        all.push(work.stage)?;
    }
    Ok(all)
}

/// How far one worker gets with each patch of level 0 in the first step of a problem, and how many places there are.
fn stages_after<R: Threads + Wait + Sync>(
    rt: &R,
    alloc: Global,
    p: &Problem,
) -> Result<(Vec<LotStage>, [u32; 3]), NoMemory>
    requires { 0 < p.now.steps }
{
    let level = start_level(alloc, p)?;
    let (board, seat, places) = open_level(rt, alloc, p, level)?;
    let count = board.tasks();
    let last = run_phase(rt, &board, seat, &LevelWork { problem: p }, &OpenGate, 1);
    let all = stages(alloc, board.close(last), count)?;
    Ok((all, places))
}

/// The tasks are drawn in order, 0 to 2. Each reads what the patch at its high side puts, which for the last one is the first. So the
/// first two stop at a face that is not there yet, and the last one finds all. Those are nine places; between groups of two patches
/// there are six, and round all three none. After a step by one worker the mass is a column on.
#[test]
fn last_task_alone_is_finished(rt: HostRuntime) -> Result<(), Fail> {
    let alloc = rt.alloc();
    let p = nine_columns(alloc)?;
    let (all, places) = stages_after(&rt, alloc, &p)?;
    assert_eq!(rt;
        all.as_slice(),
        [LotStage::Swept, LotStage::Swept, LotStage::Finished].as_slice()
    );
    assert_eq!(rt; places, [9, 6, 0]);
    let masses = masses_after_a_step(&rt, alloc, &p, 1, &OpenGate)?;
    assert_eq!(rt; masses.as_slice(), [8, 0, 0, 0, 0, 0, 0, 0, 0].as_slice());
    Ok(())
}
