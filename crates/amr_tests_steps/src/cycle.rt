//! A step of nine columns.

ghost use Rattle.std.specs.Prelude.{◌≡◌, ◌≤◌, ◌<◌, ℕ, false, IfOk};
ghost use Rattle.amr_def.specs.Facts.{IsSound};
ghost use Rattle.amr_patch.specs.Meshes.{is_spent, levels_of, state_of};
ghost use Rattle.amr_cycle.specs.Cycles.{AreCoarsenableAbove};

use crate::rows::row;
use amr_advance::Crew;
use amr_causes::NoMemory;
use amr_cycle::step;
use amr_def::Problem;
use amr_patch::Mesh;
use amr_samples::{Turnstile, nine_columns};
use amr_start::base;
use amr_workers::Gate;
use std::alloc::Global;
use std::sync::Wait;
use std::test::Fail;
use std::thread::Threads;

/// The start of a problem, with level 0 alone.
fn start_of(alloc: Global, p: &Problem) -> Result<Mesh, NoMemory>
    ensures whole { IfOk result (λ m. is_spent m ≡ false) }
    ensures sound { IfOk result (λ m. IsSound p.now (state_of m)) }
    ensures at_start { IfOk result (λ m. (state_of m).step ≡ 0) }
    ensures coarsenable { IfOk result (λ m. AreCoarsenableAbove (levels_of m)) }
{
    let mesh = base(alloc, p)?;
    Ok(mesh)
}

/// The masses of row 0 of the first nine columns after a step by so many workers.
pub(crate) fn masses_after_a_step<R: Threads + Wait + Sync, G: Gate + Sync>(
    rt: &R,
    alloc: Global,
    p: &Problem,
    workers: u32,
    gate: &G,
) -> Result<Vec<u64>, NoMemory>
    requires steps { 0 < p.now.steps }
    requires some { 1 ≤ workers }
    requires few { workers ≤ 64 }
    requires gate { (worker task : ℕ) → worker < workers → G.admits gate.now worker task }
{
    let mut mesh = start_of(alloc, p)?;
    let crew = Crew { ranks: 1, workers };
    step(rt, p, &mut mesh, crew, gate)?;
    let (_, levels) = mesh.take();
    row(alloc, &levels, 0, 0, 9)
}

/// The first task is held until another is done, so a second worker takes part; the mass is a column on all the same.
#[test]
fn second_task_first(rt: HostRuntime) -> Result<(), Fail> {
    let alloc = rt.alloc();
    let gate = Turnstile::new();
    let masses = masses_after_a_step(&rt, alloc, &nine_columns(alloc)?, 2, &gate)?;
    assert_eq!(rt; masses.as_slice(), [8, 0, 0, 0, 0, 0, 0, 0, 0].as_slice());
    assert!(rt; gate.has_held());
    Ok(())
}
