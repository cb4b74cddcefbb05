//! The start of a run.

ghost use Rattle.std.specs.Prelude.{◌≡◌, false, IfOk};
ghost use Rattle.std.specs.List.{All};
ghost use Rattle.amr_def.specs.Facts.{IsSound};
ghost use Rattle.amr_def.specs.Run.{start};
ghost use Rattle.amr_patch.specs.Meshes.{is_spent, levels_of, state_of};
ghost use Rattle.amr_start.specs.PatchBoxes.{IsChopped};
ghost use Rattle.amr_cycle.specs.Cycles.{AreCoarsenableAbove};

use amr_causes::NoMemory;
use amr_def::Problem;
use amr_patch::Mesh;
use amr_regrid::regrid;
use amr_start::base;
use std::alloc::Global;

/// The start of a run (Berger and Colella 1989): level 0 with the masses of the blocks, regridded once for each level
/// that the problem may have above it. So each regrid may add one, and covers each cell that it tagged (`start_holds_tags`).
/// It is at step 0, and each level is in patches of at most `max_grid_size` by `max_grid_size` cells. Where a problem has several
/// species, the blocks of all lie on this one state: [`crate::Flock::start`] has each apart. `NoMemory` is the only refusal.
pub fn start(alloc: Global, p: &Problem) -> Result<Mesh, NoMemory>
    ensures value { IfOk result (λ m. state_of m ≡ start p.now) }
    ensures sound { IfOk result (λ m. IsSound p.now (state_of m)) }
    ensures patches { IfOk result (λ m. All (IsChopped p.now.max_grid_size) (levels_of m)) }
    ensures coarsenable { IfOk result (λ m. AreCoarsenableAbove (levels_of m)) }
    ensures whole { IfOk result (λ m. is_spent m ≡ false) }
{
    let mut mesh = base(alloc, p)?;
    for _regrid in 0..p.max_level {
        regrid(alloc, p, &mut mesh)?;
    }
    Ok(mesh)
}
