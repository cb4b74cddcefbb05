//! A regrid of a mesh beside that of its state as ordered maps.

ghost use Rattle.std.specs.Prelude.{◌≡◌, false, OnOk};
ghost use Rattle.amr_def.specs.Facts.{IsSound};
ghost use Rattle.amr_def.specs.Regrid.{regrid};
ghost use Rattle.amr_patch.specs.Meshes.{is_spent, state_of};

use crate::mesh::plain_of;
use crate::regrid::slow_regrid;
use crate::same::are_same;
use amr_causes::NoMemory;
use amr_def::Problem;
use amr_patch::Mesh;
use amr_regrid::regrid;
use std::alloc::Global;

/// Regrids a mesh by `amr_regrid`, and its state as ordered maps by [`slow_regrid`]. True where both leave the same state. After
/// `NoMemory`, the only refusal, the mesh is as before, or regridded.
pub fn regrid_both(alloc: Global, p: &Problem, mesh: &mut Mesh) -> Result<bool, NoMemory>
    requires whole { is_spent mesh.old ≡ false }
    requires sound { IsSound p.now (state_of mesh.old) }
    ensures value { OnOk result (state_of mesh.new ≡ regrid p.now (state_of mesh.old)) }
    ensures sound { OnOk result (IsSound p.now (state_of mesh.new)) }
    ensures whole { is_spent mesh.new ≡ false }
{
    let before = plain_of(alloc, p, mesh)?;
    let slow = slow_regrid(alloc, p, &before)?;
    regrid(alloc, p, mesh)?;
    let after = plain_of(alloc, p, mesh)?;
    Ok(are_same(&after, &slow))
}
