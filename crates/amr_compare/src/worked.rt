//! Steps beside a finer box in a ring, and regrids round a spot, each by workers and by the witness.

ghost use Rattle.std.specs.Prelude.{◌≡◌, false, OnOk};
ghost use Rattle.amr_def.specs.Facts.{IsSound};
ghost use Rattle.amr_patch.specs.Meshes.{is_spent, state_of};

use crate::steps::{stepped, stepped_slowly};
use amr_box::Cell;
use amr_def::{Problem, Row};
use amr_patch::Mesh;
use amr_problem::judge;
use amr_start::base;
use amr_witness::Plain;
use amr_witness_regrid::regrid_both;
use std::alloc::Global;
use std::process::Abort;
use std::test::Fail;

/// All that a cell has flows one column on in a step.
const RING: &str = "version = 1
name = \"ring\"
cells = [4, 2]
steps = 1
courant = [1, 0, 1]
sides = [-1, -1, -1, -1]
max_level = 1
tag = [9]
blocks = [[0, 0, 0, 0, 8]]
";

/// The problem of a text.
fn problem(alloc: Global, text: &str) -> Result<Problem, Fail> {
    let Ok(p) = judge(alloc, text.as_bytes()) else {
        return Err(Fail::new("a problem that is refused"));
    };
    Ok(p)
}

/// The payload of step 0 with a mass in cell (1, 0) of level 0, and none in the children of cell (2, 0). It has the step, the row,
/// and two levels of one box.
fn beside_a_finer_box(alloc: Global, mass: u32) -> Result<Vec<u8>, Fail> {
    let mut bytes = Vec::new(alloc);
    for number in [0, mass, 0, 0, 0, 0, 0] {
        bytes.extend_from_slice(&number.to_le_bytes())?;
    }
    bytes.push(2)?;
    for number in [
        1, 0, 0, 3, 1, 0, mass, 0, 0, 0, 0, 0, 0, 1, 4, 0, 5, 1, 0, 0, 0, 0,
    ] {
        bytes.extend_from_slice(&number.to_le_bytes())?;
    }
    Ok(bytes)
}

/// The mass of a cell of level `l`.
fn mass_at(state: &Plain, l: usize, x: i32, y: i32) -> Option<u64> {
    match state.levels.get(l) {
        None => None,
        Some(level) => level.masses.get(&Cell { x, y }).copied(),
    }
}

/// After a step the ledger has the mass of before, and level 0 these masses in its first row and none in the other. Each finer cell has
/// the last one.
fn assert_stepped(rt: &impl Abort, state: Option<Plain>, mass: u32, row: [u64; 4], finer: u64) {
    let Some(state) = state else {
        panic!(rt; "no state");
    };
    let last = Row {
        mass: u64::from(mass),
        inflow: 0,
        outflow: 0,
    };
    assert_eq!(rt; state.rows.get(1).copied(), Some(last));
    for (x, wanted) in (0..4).zip(row) {
        assert_eq!(rt;
            mass_at(&state, 0, x, 0),
            Some(wanted),
            "column {x} of {mass}"
        );
        assert_eq!(rt; mass_at(&state, 0, x, 1), Some(0), "column {x} of {mass}");
    }
    for (x, y) in [(4, 0), (5, 0), (4, 1), (5, 1)] {
        assert_eq!(rt;
            mass_at(&state, 1, x, y),
            Some(finer),
            "cell {x} {y} of {mass}"
        );
    }
}

/// Of 7 the finer cells take a quarter each, cut to 1, in both of their steps; the plain coarse flux was 7, so the register gives 3
/// back. Of 8 they take all of it, and of 2 nothing.
#[test]
fn steps_beside_a_finer_box(rt: HostRuntime) -> Result<(), Fail> {
    let alloc = rt.alloc();
    let p = problem(alloc, RING)?;
    for (mass, row, finer) in [
        (7, [0, 3, 4, 0], 1),
        (8, [0, 0, 8, 0], 2),
        (2, [0, 2, 0, 0], 0),
    ] {
        let bytes = beside_a_finer_box(alloc, mass)?;
        assert_stepped(&rt, stepped(&rt, alloc, &p, &bytes, 2)?, mass, row, finer);
        assert_stepped(&rt, stepped_slowly(alloc, &p, &bytes)?, mass, row, finer);
    }
    Ok(())
}

/// A cell whose mass differs by enough to tag it and three neighbours.
const SPOT: &str = "version = 1
name = \"ring\"
cells = [4, 2]
steps = 0
courant = [0, 0, 1]
sides = [-1, -1, -1, -1]
max_level = 1
tag = [4]
n_error_buf = 0
efficiency = 100
min_width = 1
blocks = [[1, 0, 1, 0, 7]]
";

/// The boxes of level 1 after a regrid, by both.
fn boxes_regridded(
    rt: &impl Abort,
    alloc: Global,
    p: &Problem,
    mesh: &mut Mesh,
) -> Result<Option<usize>, Fail>
    requires whole { is_spent mesh.old ≡ false }
    requires sound { IsSound p.now (state_of mesh.old) }
    ensures whole { is_spent mesh.new ≡ false }
    ensures sound { OnOk result (IsSound p.now (state_of mesh.new)) }
{
    assert!(rt; regrid_both(alloc, p, mesh)?);
    Ok(mesh.levels().get(1).map(|level| level.boxes().len()))
}

/// The first regrid adds three boxes, and the second changes nothing.
#[test]
fn regrids_round_a_spot(rt: HostRuntime) -> Result<(), Fail> {
    let alloc = rt.alloc();
    let p = problem(alloc, SPOT)?;
    let mut mesh = base(alloc, &p)?;
    let first = boxes_regridded(&rt, alloc, &p, &mut mesh)?;
    let second = boxes_regridded(&rt, alloc, &p, &mut mesh)?;
    assert_eq!(rt; (first, second), (Some(3), Some(3)));
    Ok(())
}
