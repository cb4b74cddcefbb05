//! A plan of frames made in threads, for a level of so many patches that it is worth them.

ghost use Rattle.std.specs.Prelude.{◌<◌, List, length, IfOk};
ghost use Rattle.std.specs.List.{All};
ghost use Rattle.amr_def.specs.Domain.{domain};
ghost use Rattle.amr_patch.specs.declared.patches.Patch.{Patch};
ghost use Rattle.amr_ghost.specs.Outer.{AreOuterBeside, IsOuterSpan, IsSpanBeside};
ghost use Rattle.amr_ghost.specs.Plans.{PlansFrames};

use crate::frames::{are_of_level, cell, ghost_at, patch, set};
use amr_causes::NoMemory;
use amr_def::{Problem, Sides};
use amr_ghost::{FramePlan, GhostSpan, OuterGhosts, fill_run, part_frames, plan_frames_in_threads};
use amr_patch::{Patch, order_of, starts_of};
use amr_samples::problem;
use std::alloc::Global;
use std::test::Fail;
use std::thread::Threads;

/// A level of 16 by 16 cells in patches of one cell, row by row.
fn small_patches(alloc: Global) -> Result<Vec<Patch>, Fail> {
    let mut patches = Vec::new(alloc);
    for row in 0..16u8 {
        for column in 0..16u8 {
            patches.push(patch(alloc, column, row, column, row)?)?;
        }
    }
    Ok(patches)
}

/// Outer ghost cells of level 0, where there is no coarser level, and their values.
fn outer_of(alloc: Global, p: &Problem, spans: &[GhostSpan]) -> Result<OuterGhosts, NoMemory>
    requires { All (IsOuterSpan (domain p.now 0)) spans.now }
    ensures { IfOk result (λ x. (rs : List Patch) → All (IsSpanBeside rs) spans.now → AreOuterBeside rs x) }
{
    let mut outer = OuterGhosts::make(alloc, Vec::from_slice(alloc, spans)?)?;
    outer.find_values(p, 0, None);
    Ok(outer)
}

/// Fills the frames of the patches of level 0 by a plan, all in one run.
fn fill_by(
    alloc: Global,
    p: &Problem,
    patches: &mut [Patch],
    plan: &FramePlan,
) -> Result<(), NoMemory>
    requires some { 0 < length patches.old }
    requires plan { PlansFrames (domain p.now 0) patches.old plan.now }
{
    let parts = part_frames(alloc, plan, patches.len(), 1)?;
    let outer = outer_of(alloc, p, &parts.outer[0])?;
    fill_run(patches, &outer, &parts.copies[0], &[]);
    Ok(())
}

/// Fills the frames of the patches of level 0, if they are those of a level, by a plan made in threads.
fn fill_in_threads<R: Threads + Sync>(
    rt: &R,
    threads: usize,
    alloc: Global,
    p: &Problem,
    patches: &mut [Patch],
) -> Result<bool, Fail> {
    if patches.is_empty() {
        return Ok(false);
    }
    if !are_of_level(p, 0, patches) {
        return Ok(false);
    }
    let starts = starts_of(alloc, patches)?;
    let order = order_of(patches);
    let plan = plan_frames_in_threads(rt, threads, alloc, p, 0, patches, order, &starts)?;
    fill_by(alloc, p, patches, &plan)?;
    Ok(true)
}

// Of three runs the first ends with patch 85, and the second with patch 171.
#[test]
fn planned_in_three_threads(rt: HostRuntime) -> Result<(), Fail> {
    let alloc = rt.alloc();
    let p = problem(alloc, 16, 16, Sides::Periodic, Sides::Periodic)?;
    let mut patches = small_patches(alloc)?;
    assert!(rt; set(&mut patches, 15, cell(15, 0), 3));
    assert!(rt; set(&mut patches, 85, cell(5, 5), 5));
    assert!(rt; set(&mut patches, 86, cell(6, 5), 6));
    assert!(rt; set(&mut patches, 172, cell(12, 10), 7));
    assert!(rt; set(&mut patches, 240, cell(0, 15), 9));
    assert!(rt; fill_in_threads(&rt, 3, alloc, &p, &mut patches)?);
    assert_eq!(rt; ghost_at(&patches, 0, cell(-1, 0)), Some((3, true)));
    assert_eq!(rt; ghost_at(&patches, 85, cell(6, 5)), Some((6, true)));
    assert_eq!(rt; ghost_at(&patches, 86, cell(5, 5)), Some((5, true)));
    assert_eq!(rt; ghost_at(&patches, 171, cell(12, 10)), Some((7, true)));
    assert_eq!(rt; ghost_at(&patches, 255, cell(16, 15)), Some((9, true)));
    assert_eq!(rt; ghost_at(&patches, 255, cell(15, 16)), Some((3, true)));
    Ok(())
}
