//! Steps of states of one level to five, by workers and by the witness.

ghost use Rattle.std.specs.Prelude.{◌≡◌, ◌≤◌, ◌<◌, false, IfOk, IfSome};
ghost use Rattle.amr_def.specs.Facts.{IsSound};
ghost use Rattle.amr_patch.specs.Meshes.{is_spent, levels_of, state_of};
ghost use Rattle.amr_cycle.specs.Cycles.{AreCoarsenableAbove};

use crate::problems::problem_text;
use crate::states::payload;
use amr_advance::Crew;
use amr_box::Bx;
use amr_cycle::step;
use amr_decoder::decode2;
use amr_def::Problem;
use amr_patch::{Level, Mesh};
use amr_problem::judge;
use amr_trial::Generator;
use amr_witness::{Plain, slow_step};
use amr_witness_regrid::{are_same, plain_of};
use amr_workers::OpenGate;
use std::alloc::Global;
use std::process::Abort;
use std::sync::Wait;
use std::test::Fail;
use std::thread::Threads;

/// How many states of each number of levels are compared.
const STATES: u32 = 20;

/// How many are drawn at most.
const SEEDS: u32 = 100_000;

/// The most work for the witness, which takes steps of all finer levels for each face beside a covered cell.
const MOST_WORK: u64 = 5_000;

/// How many columns or rows there are from one to another.
fn count_between(low: i32, high: i32) -> u64 {
    u64::from(high.abs_diff(low)).saturating_add(1)
}

fn area(b: &Bx) -> u64 {
    let columns = count_between(b.lo().x, b.hi().x);
    let rows = count_between(b.lo().y, b.hi().y);
    columns.saturating_mul(rows)
}

fn cells_in(boxes: &[Bx]) -> u64 {
    let mut cells = 0u64;
    for b in boxes {
        cells = cells.saturating_add(area(b));
    }
    cells
}

/// The product of the numbers of cells of the levels above level 0.
fn work_of(levels: &[Level]) -> u64 {
    let mut work = 1u64;
    for level in levels.iter().skip(1) {
        work = work.saturating_mul(cells_in(level.boxes()));
    }
    work
}

/// The mesh of a payload that has a step to come and is not too much work, or none.
fn mesh_of(alloc: Global, p: &Problem, bytes: &[u8]) -> Option<Mesh>
    ensures whole { IfSome result (λ m. is_spent m ≡ false) }
    ensures sound { IfSome result (λ m. IsSound p.now (state_of m)) }
    ensures coarsenable { IfSome result (λ m. AreCoarsenableAbove (levels_of m)) }
    ensures to_come { IfSome result (λ m. (state_of m).step < p.now.steps) }
{
    let Ok(mesh) = decode2(alloc, p, bytes) else {
        return None;
    };
    if mesh.step() >= p.steps {
        return None;
    }
    if work_of(mesh.levels()) > MOST_WORK {
        return None;
    }
    Some(mesh)
}

/// The state of a payload after a step by so many workers.
pub(crate) fn stepped<R: Threads + Wait + Sync>(
    rt: &R,
    alloc: Global,
    p: &Problem,
    bytes: &[u8],
    workers: u32,
) -> Result<Option<Plain>, Fail>
    requires some_workers { 1 ≤ workers }
    requires few_workers { workers ≤ 64 }
{
    let Some(mut mesh) = mesh_of(alloc, p, bytes) else {
        return Ok(None);
    };
    let crew = Crew { ranks: 1, workers };
    step(rt, p, &mut mesh, crew, &OpenGate)?;
    Ok(Some(plain_of(alloc, p, &mesh)?))
}

/// The same by the witness.
pub(crate) fn stepped_slowly(
    alloc: Global,
    p: &Problem,
    bytes: &[u8],
) -> Result<Option<Plain>, Fail> {
    let Some(mesh) = mesh_of(alloc, p, bytes) else {
        return Ok(None);
    };
    let state = plain_of(alloc, p, &mesh)?;
    Ok(Some(slow_step(alloc, p, &state)?))
}

/// Whether steps by 1, 2 and 7 workers make the same state as the witness; none where what is drawn is refused.
fn agree<R: Threads + Wait + Sync>(
    rt: &R,
    alloc: Global,
    seed: u32,
    levels: u8,
) -> Result<Option<bool>, Fail>
    requires some { 1 ≤ levels }
    requires few { levels ≤ 5 }
{
    let mut g = Generator::of_trial(seed.wrapping_mul(2_654_435_761));
    let text = problem_text(alloc, &mut g, u32::from(levels))?;
    let Ok(p) = judge(alloc, text.as_bytes()) else {
        return Ok(None);
    };
    let bytes = payload(alloc, &mut g, seed, &p, levels)?;
    let Some(slow) = stepped_slowly(alloc, &p, &bytes)? else {
        return Ok(None);
    };
    let mut same = true;
    for workers in [1, 2, 7] {
        match stepped(rt, alloc, &p, &bytes, workers)? {
            None => same = false,
            Some(state) => same &= are_same(&state, &slow),
        }
    }
    Ok(Some(same))
}

/// Compares states of so many levels.
fn compare<R: Abort + Alloc<A = Global> + Threads + Wait + Sync>(
    rt: &R,
    levels: u8,
) -> Result<(), Fail>
    requires some { 1 ≤ levels }
    requires few { levels ≤ 5 }
{
    let mut compared = 0u32;
    for seed in 0..SEEDS {
        if let Some(same) = agree(rt, rt.alloc(), seed, levels)? {
            assert!(rt; same, "state {seed} of {levels} levels");
            compared = compared.saturating_add(1);
        }
        if compared == STATES {
            break;
        }
    }
    assert_eq!(rt; compared, STATES);
    Ok(())
}

#[test]
fn one_level(rt: HostRuntime) -> Result<(), Fail> {
    compare(&rt, 1)
}

#[test]
fn two_levels(rt: HostRuntime) -> Result<(), Fail> {
    compare(&rt, 2)
}

#[test]
fn three_levels(rt: HostRuntime) -> Result<(), Fail> {
    compare(&rt, 3)
}

#[test]
fn four_levels(rt: HostRuntime) -> Result<(), Fail> {
    compare(&rt, 4)
}

#[test]
fn five_levels(rt: HostRuntime) -> Result<(), Fail> {
    compare(&rt, 5)
}
