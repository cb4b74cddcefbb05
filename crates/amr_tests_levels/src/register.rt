//! Beside a finer box in a ring: its ghost cells, and what a register gives back.

ghost use Rattle.std.specs.Prelude.{◌≡◌, pos};
ghost use Rattle.amr_box.specs.declared.Cell.{Cell};
ghost use Rattle.amr_def.specs.State.{Masses};
ghost use Rattle.amr_register.specs.Fields.{IsRegisterOf, entry_in};

use crate::frames::{are_of_level, cell, fill_frames, ghost_at, patch};
use crate::transfer::put;
use amr_def::Problem;
use amr_patch::{Level, Patch};
use amr_register::Register;
use amr_samples::{empty_level, fine_box, ring, whole_box};
use std::alloc::Global;
use std::test::Fail;

/// The value of a ghost cell of the finer box to its left, in the lower of its rows and in the upper one.
fn ghosts(alloc: Global, p: &Problem, coarse: &Level) -> Result<[Option<(u64, bool)>; 2], Fail> {
    let mut fine = Vec::new(alloc);
    fine.push(patch(alloc, 4, 0, 5, 1)?)?;
    if !are_of_level(p, 1, &fine) {
        return Ok([None; 2]);
    }
    fill_frames(alloc, p, 1, &mut fine, Some(coarse))?;
    Ok([
        ghost_at(&fine, 0, cell(3, 0)),
        ghost_at(&fine, 0, cell(3, 1)),
    ])
}

/// The first entry of a register, and the same once so much has flowed from its cell in the finer steps.
fn absorbed(register: &mut Register, finer: u8) -> Option<(i64, i64)> {
    if register.cells().is_empty() {
        return None;
    }
    let coarse = register.entry(0);
    if coarse < -99 {
        return None;
    }
    if coarse > 99 {
        return None;
    }
    register.absorb(0, 0, u64::from(finer));
    Some((coarse, register.entry(0)))
}

/// The first entry of a register after a step of the coarser level, and once so much has flowed from that cell in the finer steps.
fn exchanged(
    alloc: Global,
    p: &Problem,
    patches: &mut [Patch],
    register: &mut Register,
    finer: u8,
) -> Result<Option<(i64, i64)>, Fail>
    requires register { (m : Masses) × (fine : Masses) × IsRegisterOf p.now 0 m fine register.old }
    requires zero { (c : Cell) → entry_in register.old c ≡ pos 0 }
{
    if !are_of_level(p, 0, patches) {
        return Ok(None);
    }
    fill_frames(alloc, p, 0, patches, None)?;
    if patches.is_empty() {
        return Ok(None);
    }
    register.coarse_part(p, 0, &patches[0]);
    Ok(absorbed(register, finer))
}

/// The ghost cells beside a mass in cell (1, 0), and what the register has for that cell after the coarser step and after the finer ones,
/// in which so much flows from it.
fn given_back(
    alloc: Global,
    mass: u8,
    finer: u8,
) -> Result<([Option<(u64, bool)>; 2], Option<(i64, i64)>), Fail> {
    let p = ring(alloc)?;
    let mut coarse = empty_level(alloc, whole_box())?;
    let fine = empty_level(alloc, fine_box())?;
    let mut register = Register::make(alloc, &p, 0, &coarse, &fine)?;
    put(&mut coarse, cell(1, 0), mass);
    let ghosts = ghosts(alloc, &p, &coarse)?;
    let entries = exchanged(alloc, &p, &mut coarse.take_patches(), &mut register, finer)?;
    Ok((ghosts, entries))
}

/// All that a cell has flows one column on in a step. So the whole mass leaves its cell in the coarser step, and a ghost cell's value
/// comes in through each of two faces in each of two finer steps. The register gives back the rest.
#[test]
fn the_register_gives_back_what_the_finer_steps_left(rt: HostRuntime) -> Result<(), Fail> {
    for (mass, beside, finer, rest) in [(7, 1, 4, 3), (8, 2, 8, 0), (2, 0, 0, 2)] {
        let (ghosts, entries) = given_back(rt.alloc(), mass, finer)?;
        assert_eq!(rt;
            ghosts,
            [Some((beside, false)); 2],
            "ghost cells beside {mass}"
        );
        assert_eq!(rt;
            entries,
            Some((i64::from(mass), rest)),
            "entries beside {mass}"
        );
    }
    Ok(())
}
