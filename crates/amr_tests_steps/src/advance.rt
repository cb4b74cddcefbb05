//! A step of a level by itself.

ghost use Rattle.std.specs.Prelude.{◌<◌};

use crate::board::start_level;
use crate::rows::row;
use amr_advance::{Crew, Regs, advance};
use amr_causes::NoMemory;
use amr_def::Problem;
use amr_samples::nine_columns;
use amr_workers::OpenGate;
use std::alloc::Global;
use std::sync::Wait;
use std::test::Fail;
use std::thread::Threads;

/// The masses of row 0 of nine columns after a step of level 0 by two workers, and what flowed through open sides.
fn advanced<R: Threads + Wait + Sync>(
    rt: &R,
    alloc: Global,
    p: &Problem,
) -> Result<(Vec<u64>, u64, u64), NoMemory>
    requires { 0 < p.now.steps }
{
    let mut level = start_level(alloc, p)?;
    let mut regs = Regs {
        coarser: None,
        finer: None,
        inflow: 0,
        outflow: 0,
    };
    let crew = Crew {
        ranks: 1,
        workers: 2,
    };
    advance(rt, p, 0, &mut level, None, None, &mut regs, crew, &OpenGate)?;
    let levels = Vec::from_array(alloc, [level])?;
    Ok((row(alloc, &levels, 0, 0, 9)?, regs.inflow, regs.outflow))
}

#[test]
fn nine_columns_move_one_on(rt: HostRuntime) -> Result<(), Fail> {
    let p = nine_columns(rt.alloc())?;
    let (masses, inflow, outflow) = advanced(&rt, rt.alloc(), &p)?;
    assert_eq!(rt; masses.as_slice(), [8, 0, 0, 0, 0, 0, 0, 0, 0].as_slice());
    assert_eq!(rt; (inflow, outflow), (0, 0));
    Ok(())
}
