//! A ring with a spot, refined by a start and by a regrid.

ghost use Rattle.std.specs.Prelude.{◌≤◌};

use crate::rows::{corners, row};
use amr_causes::NoMemory;
use amr_def::{Block, Problem};
use amr_drive::start;
use amr_patch::Level;
use amr_regrid::regrid;
use amr_samples::{RING, Sample, ring_of};
use amr_start::base;
use std::alloc::Global;
use std::process::Abort;
use std::test::Fail;

/// A mass of 7 in cell (1, 0).
const SPOT: Block = Block {
    x0: 1,
    y0: 0,
    x1: 1,
    y1: 0,
    mass: 7,
    species: 0,
};

/// A ring of 4 by 2 cells with the spot, which differs by enough to tag it and three neighbours.
fn spot(alloc: Global, efficiency: u32) -> Result<Problem, NoMemory>
    requires some { 1 ≤ efficiency }
    requires most { efficiency ≤ 100 }
{
    let sample = Sample {
        steps: 0,
        efficiency,
        max_grid_size: 256,
        ..RING
    };
    ring_of(alloc, sample, &[4], &[SPOT])
}

/// The levels at the start of a problem.
fn started(alloc: Global, p: &Problem) -> Result<Vec<Level>, NoMemory> {
    let (_, levels) = start(alloc, p)?.take();
    Ok(levels)
}

/// Level 0 at the start of a problem, and what a regrid puts over it.
fn regridded(alloc: Global, p: &Problem) -> Result<Vec<Level>, NoMemory> {
    let mut mesh = base(alloc, p)?;
    regrid(alloc, p, &mut mesh)?;
    let (_, levels) = mesh.take();
    Ok(levels)
}

/// Level 1 has three boxes; the four children of the spot have its mass, and the others none.
fn assert_three_boxes(rt: &impl Abort, alloc: Global, levels: &[Level]) -> Result<(), NoMemory> {
    assert_eq!(rt;
        corners(alloc, levels, 1)?.as_slice(),
        [[0, 0, 1, 1], [2, 0, 3, 3], [4, 0, 5, 1]].as_slice()
    );
    for (y, masses) in [
        (0, [0, 0, 2, 2, 0, 0, 99]),
        (1, [0, 0, 2, 1, 0, 0, 99]),
        (2, [99, 99, 0, 0, 99, 99, 99]),
        (3, [99, 99, 0, 0, 99, 99, 99]),
    ] {
        assert_eq!(rt; row(alloc, levels, 1, y, 7)?.as_slice(), masses.as_slice());
    }
    Ok(())
}

/// All of three boxes is tagged; of one box round them two thirds are.
#[test]
fn boxes_round_a_spot(rt: HostRuntime) -> Result<(), Fail> {
    let alloc = rt.alloc();
    let p = spot(alloc, 100)?;
    assert_three_boxes(&rt, alloc, &started(alloc, &p)?)?;
    assert_three_boxes(&rt, alloc, &regridded(alloc, &p)?)?;
    let loose = started(alloc, &spot(alloc, 60)?)?;
    assert_eq!(rt;
        corners(alloc, &loose, 1)?.as_slice(),
        [[0, 0, 5, 3]].as_slice()
    );
    Ok(())
}
