//! The encoders.

ghost use Rattle.std.specs.Prelude.{◌≡◌, ◌+◌, ◌++◌, ◌≤◌, false, length, drop, IfOk, OnOk};
ghost use Rattle.std.specs.Int.{w32, w64};
ghost use Rattle.std.specs.List.{flat_map};
ghost use Rattle.amr_def.specs.Facts.{IsSound};
ghost use Rattle.amr_patch.specs.Meshes.{is_spent, state_of};
ghost use Rattle.amr_payload.specs.Payload.{payload, row_bytes, slot_size, state_bytes};
ghost use Rattle.amr_codec.specs.Forms.{IsBasisOf, basis_of};
ghost use Rattle.amr_codec.specs.MassWidths.{width_of};

use crate::basis::{Basis, rows_before};
use crate::levels::put_levels;
use crate::numbers::{MassWidth, put_count_of_levels, put_ledger_row, put_u32};
use crate::sizes::size_for;
use amr_causes::NoMemory;
use amr_def::Problem;
use amr_patch::Mesh;
use std::alloc::Global;

/// The rows of the ledger from row `first` on, of which there are `count` in all.
fn put_ledger(mesh: &Mesh, first: u32, count: u32, out: &mut Vec<u8>) -> Result<(), NoMemory>
    requires whole { is_spent mesh.now ≡ false }
    requires rows { length (state_of mesh.now).rows ≡ count }
    ensures { OnOk result (out.new.items ≡ out.old.items ++ flat_map row_bytes (drop first (state_of mesh.now).rows)) }
{
    for k in first..count {
        put_ledger_row(mesh.row(k), out)?;
    }
    Ok(())
}

/// Appends the bytes of the mesh's state on a basis, as `state_bytes` in crate `amr_payload` has them. The mesh is a sound state
/// of the problem, and not spent. After a refusal some of the bytes may have been appended.
#[tactic(auto, unfolding(amr_payload::specs::Payload::state_bytes))]
pub fn put_state(
    p: &Problem,
    basis: &Basis<'_>,
    mesh: &Mesh,
    out: &mut Vec<u8>,
) -> Result<(), NoMemory>
    requires whole { is_spent mesh.now ≡ false }
    requires sound { IsSound p.now (state_of mesh.now) }
    requires basis { IsBasisOf p.now basis.now }
    ensures { OnOk result (out.new.items ≡ out.old.items ++ state_bytes (basis_of basis.now) (state_of mesh.now)) }
{
    let step = mesh.step();
    let levels = mesh.levels();
    put_u32(step, out)?;
    put_ledger(mesh, rows_before(p, basis), step + 1, out)?;
    put_count_of_levels(levels.len(), out)?;
    put_levels(p, basis, levels, out)?;
    Ok(())
}

fn payload_of(
    alloc: Global,
    p: &Problem,
    mesh: &Mesh,
    width: MassWidth,
) -> Result<Vec<u8>, NoMemory>
    requires whole { is_spent mesh.now ≡ false }
    requires sound { IsSound p.now (state_of mesh.now) }
    ensures { IfOk result (λ bytes. bytes.items ≡ payload (width_of width) (state_of mesh.now)) }
{
    let mut out = Vec::with_capacity(alloc, size_for(p, width) as usize)?;
    put_state(p, &Basis::Alone(width), mesh, &mut out)?;
    Ok(out)
}

/// Payload 1 of the mesh's state: masses of 8 bytes. The mesh is a sound state of the problem, and not spent. Memory for
/// `slot_size` bytes is taken first.
pub fn encode(alloc: Global, p: &Problem, mesh: &Mesh) -> Result<Vec<u8>, NoMemory>
    requires whole { is_spent mesh.now ≡ false }
    requires sound { IsSound p.now (state_of mesh.now) }
    ensures bytes { IfOk result (λ bytes. bytes.items ≡ payload w64 (state_of mesh.now)) }
    ensures fits { IfOk result (λ bytes. length bytes.items ≤ slot_size w64 p.now) }
{
    payload_of(alloc, p, mesh, MassWidth::Eight)
}

/// Payload 2 of the mesh's state: masses of 4 bytes. The mesh is a sound state of the problem, and not spent. Memory for
/// `slot_size2` bytes is taken first.
pub fn encode2(alloc: Global, p: &Problem, mesh: &Mesh) -> Result<Vec<u8>, NoMemory>
    requires whole { is_spent mesh.now ≡ false }
    requires sound { IsSound p.now (state_of mesh.now) }
    ensures bytes { IfOk result (λ bytes. bytes.items ≡ payload w32 (state_of mesh.now)) }
    ensures fits { IfOk result (λ bytes. length bytes.items ≤ slot_size w32 p.now) }
{
    payload_of(alloc, p, mesh, MassWidth::Four)
}
