//! Two steps of nine columns by two workers.

use crate::rows::{patch_corners, row};
use amr_advance::Crew;
use amr_def::Row;
use amr_drive::{Nothing, drive, start};
use amr_samples::{Turnstile, nine_columns};
use std::test::Fail;

/// What the ledger has for each step.
const LEDGER_ROW: Row = Row {
    mass: 8,
    inflow: 0,
    outflow: 0,
};

#[test]
fn nine_columns_are_three_patches(rt: HostRuntime) -> Result<(), Fail> {
    let mut mesh = start(rt.alloc(), &nine_columns(rt.alloc())?)?;
    let (_, levels) = mesh.take();
    let patches = patch_corners(rt.alloc(), &levels, 0)?;
    assert_eq!(rt;
        patches.as_slice(),
        [[0, 0, 3, 2], [4, 0, 7, 2], [8, 0, 8, 2]].as_slice()
    );
    Ok(())
}

/// The first task is held until another is done, so a second worker takes part; the mass is two columns on all the same.
#[test]
fn second_task_first(rt: HostRuntime) -> Result<(), Fail> {
    let alloc = rt.alloc();
    let p = nine_columns(alloc)?;
    let mut mesh = start(alloc, &p)?;
    let crew = Crew {
        ranks: 1,
        workers: 2,
    };
    let gate = Turnstile::new();
    let target = p.steps;
    let ahead = mesh.step() <= target;
    assert!(rt; ahead);
    if ahead {
        let driven = drive(&rt, alloc, &p, &mut mesh, target, crew, &gate, &mut Nothing);
        let done = driven.is_ok();
        assert!(rt; done);
        if done {
            let (rows, levels) = mesh.take();
            assert_eq!(rt; rows.as_slice(), [LEDGER_ROW; 3].as_slice());
            assert_eq!(rt;
                row(alloc, &levels, 0, 0, 9)?.as_slice(),
                [0, 8, 0, 0, 0, 0, 0, 0, 0].as_slice()
            );
        }
    }
    assert!(rt; gate.has_held());
    Ok(())
}
