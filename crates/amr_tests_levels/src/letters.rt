//! Frames of a level that are filled by letters between ranks.

ghost use Rattle.std.specs.Prelude.{◌≡◌, ◌<◌, ◌≤◌, length, IfOk};
ghost use Rattle.std.specs.List.{All};

use crate::frames::{are_of_level, cell, ghost_at, patch, set};
use amr_causes::NoMemory;
use amr_def::{Problem, Sides};
use amr_letters::bring_frames;
use amr_owners::{make, ranks_of};
use amr_patch::{Patch, order_of};
use amr_samples::problem;
use std::alloc::Global;
use std::sync::Wait;
use std::test::Fail;
use std::thread::Threads;

/// The owner of each patch: one of so many ranks, by areas.
fn owners_of(alloc: Global, patches: &[Patch], ranks: u32) -> Result<Vec<u32>, NoMemory>
    requires some { 1 ≤ ranks }
    requires few { ranks ≤ 8 }
    ensures count { IfOk result (λ v. length v.items ≡ length patches.now) }
    ensures owners { IfOk result (λ v. All (λ owner. owner < ranks) v.items) }
{
    let numbers = make(alloc, patches, ranks)?;
    ranks_of(alloc, &numbers, patches.len())
}

/// Fills the frames of the patches of level 0, if they are those of a level, by letters between so many ranks.
fn fill_by_letters<R: Threads + Wait + Sync>(
    rt: &R,
    ranks: u32,
    alloc: Global,
    p: &Problem,
    patches: &mut [Patch],
) -> Result<bool, Fail>
    requires some { 1 ≤ ranks }
    requires few { ranks ≤ 8 }
{
    if !are_of_level(p, 0, patches) {
        return Ok(false);
    }
    let order = order_of(patches);
    let owners = owners_of(alloc, patches, ranks)?;
    bring_frames(rt, alloc, p, 0, patches, order, &owners, None, ranks)?;
    Ok(true)
}

// Three patches of three ranks on a ring of four columns, beside an open side with inflow 8.
#[test]
fn frames_by_letters(rt: HostRuntime) -> Result<(), Fail> {
    let alloc = rt.alloc();
    let p = problem(alloc, 4, 2, Sides::Periodic, Sides::Open(8, 0))?;
    let mut patches = vec![in alloc;
        patch(alloc, 0, 0, 0, 1)?,
        patch(alloc, 1, 0, 1, 1)?,
        patch(alloc, 2, 0, 3, 1)?,
    ]?;
    assert!(rt; set(&mut patches, 0, cell(0, 1), 3));
    assert!(rt; set(&mut patches, 1, cell(1, 0), 5));
    assert!(rt; set(&mut patches, 2, cell(3, 1), 7));
    assert!(rt; fill_by_letters(&rt, 3, alloc, &p, &mut patches)?);
    assert_eq!(rt; ghost_at(&patches, 0, cell(-1, 1)), Some((7, false)));
    assert_eq!(rt; ghost_at(&patches, 0, cell(1, 0)), Some((5, false)));
    assert_eq!(rt; ghost_at(&patches, 2, cell(1, 0)), Some((5, false)));
    assert_eq!(rt; ghost_at(&patches, 2, cell(4, 1)), Some((3, false)));
    assert_eq!(rt; ghost_at(&patches, 1, cell(1, -1)), Some((8, false)));
    assert_eq!(rt; ghost_at(&patches, 1, cell(1, 2)), Some((0, false)));
    Ok(())
}
