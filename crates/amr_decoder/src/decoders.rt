//! The decoders.

ghost use Rattle.std.specs.Prelude.{◌≡◌, false, IfOk, IfErr};
ghost use Rattle.std.specs.Int.{w32, w64};
ghost use Rattle.std.specs.List.{All};
ghost use Rattle.std.specs.declared.result.Result.TheVariants.{Ok};
ghost use Rattle.amr_codec.specs.Forms.{IsBasisOf, basis_of};
ghost use Rattle.amr_codec.specs.MassWidths.{width_of};
ghost use Rattle.amr_def.specs.Facts.{IsSound};
ghost use Rattle.amr_def.specs.State.{State};
ghost use Rattle.amr_patch.specs.Meshes.{is_spent, levels_of, state_of};
ghost use Rattle.amr_payload.specs.Payload.{payload};
ghost use Rattle.amr_payload.specs.Tests.{decoded, read, read_state};
ghost use Rattle.amr_start.specs.PatchBoxes.{IsChopped};
ghost use Rattle.amr_decoder.specs.Faults.{IsFaultOf, IsRefusalOf};
ghost use Rattle.amr_decoder.specs.Lefts.{left_of};
ghost use Rattle.amr_decoder.specs.declared.faults.CodecFault.TheVariants.{NoMemory};

use crate::faults::CodecFault;
use crate::finer::read_levels;
use crate::ledger::{read_ledger, read_step};
use crate::reader::Reader;
use crate::totals::is_in_balance;
use amr_codec::{Basis, MassWidth, rows_before};
use amr_def::Problem;
use amr_patch::Mesh;
use std::alloc::Global;

/// How many bytes a row of the ledger takes.
const LEDGER_ROW_LEN: u64 = 24;

/// A state on a basis, whose last row has the mass of level 0. It is sound, and its patches have at most `max_grid_size` by
/// `max_grid_size` cells. The reader then stands behind it. `Bad` is at the place of the first test that fails.
#[tactic(auto, unfolding(amr_payload::specs::Tests::read_state))]
pub fn read_state(
    alloc: Global,
    p: &Problem,
    basis: &Basis<'_>,
    reader: &mut Reader<'_>,
) -> Result<Mesh, CodecFault>
    requires { IsBasisOf p.now basis.now }
    ensures read { IfOk result (λ mesh. read_state (basis_of basis.now) p.now (left_of reader.old) ≡ read (state_of mesh) (left_of reader.new)) }
    ensures bad { IfErr result (IsFaultOf (read_state (basis_of basis.now) p.now (left_of reader.old))) }
    ensures whole { IfOk result (λ mesh. is_spent mesh ≡ false) }
    ensures chopped { IfOk result (λ mesh. All (IsChopped p.now.max_grid_size) (levels_of mesh)) }
{
    let before = rows_before(p, basis);
    let step = read_step(p, before, reader)?;
    let rows = read_ledger(alloc, p, basis, step, reader)?;
    let behind_rows = reader.place() as u64;
    let levels = read_levels(alloc, p, basis, step, reader)?;
    let last = rows[step as usize];
    if !is_in_balance(p, last, &levels) {
        return Err(CodecFault::Bad {
            place: behind_rows - LEDGER_ROW_LEN,
        });
    }
    Ok(Mesh::of(step, rows, levels))
}

/// The state of a whole payload, behind which nothing follows.
#[tactic(auto, unfolding(amr_payload::specs::Tests::decoded))]
fn read_payload(
    alloc: Global,
    p: &Problem,
    width: MassWidth,
    bytes: &[u8],
) -> Result<Mesh, CodecFault>
    ensures read { IfOk result (λ mesh. decoded (width_of width) p.now bytes.now ≡ Ok (state_of mesh)) }
    ensures bad { IfErr result (IsRefusalOf (decoded (width_of width) p.now bytes.now)) }
    ensures whole { IfOk result (λ mesh. is_spent mesh ≡ false) }
    ensures chopped { IfOk result (λ mesh. All (IsChopped p.now.max_grid_size) (levels_of mesh)) }
{
    let mut reader = Reader::of(bytes);
    let mesh = read_state(alloc, p, &Basis::Alone(width), &mut reader)?;
    if reader.count_left() > 0 {
        return Err(CodecFault::Bad {
            place: reader.place() as u64,
        });
    }
    Ok(mesh)
}

/// The mesh whose payload 1 the bytes are: masses of 8 bytes. Its state is sound, and its patches have at most
/// `max_grid_size` by `max_grid_size` cells. `Bad` is at the place of the first test that fails, and no sound state has
/// such bytes. Memory is taken only for rows, boxes and masses that were read whole. Above level 0, whose masses were
/// read then, it is taken for two bits at a time for each cell of the domain of the next coarser level.
pub fn decode(alloc: Global, p: &Problem, bytes: &[u8]) -> Result<Mesh, CodecFault>
    ensures bytes { IfOk result (λ mesh. bytes.now ≡ payload w64 (state_of mesh)) }
    ensures sound { IfOk result (λ mesh. IsSound p.now (state_of mesh)) }
    ensures whole { IfOk result (λ mesh. is_spent mesh ≡ false) }
    ensures chopped { IfOk result (λ mesh. All (IsChopped p.now.max_grid_size) (levels_of mesh)) }
    ensures bad { IfErr result (IsRefusalOf (decoded w64 p.now bytes.now)) }
    ensures complete { (s : State) → bytes.now ≡ payload w64 s → IsSound p.now s → IfErr result (λ e. e ≡ NoMemory) }
{
    read_payload(alloc, p, MassWidth::Eight, bytes)
}

/// The mesh whose payload 2 the bytes are: masses of 4 bytes. Its state is sound, and its patches have at most
/// `max_grid_size` by `max_grid_size` cells. `Bad` is at the place of the first test that fails, and no sound state has
/// such bytes. Memory is taken only for rows, boxes and masses that were read whole. Above level 0, whose masses were
/// read then, it is taken for two bits at a time for each cell of the domain of the next coarser level.
pub fn decode2(alloc: Global, p: &Problem, bytes: &[u8]) -> Result<Mesh, CodecFault>
    ensures bytes { IfOk result (λ mesh. bytes.now ≡ payload w32 (state_of mesh)) }
    ensures sound { IfOk result (λ mesh. IsSound p.now (state_of mesh)) }
    ensures whole { IfOk result (λ mesh. is_spent mesh ≡ false) }
    ensures chopped { IfOk result (λ mesh. All (IsChopped p.now.max_grid_size) (levels_of mesh)) }
    ensures bad { IfErr result (IsRefusalOf (decoded w32 p.now bytes.now)) }
    ensures complete { (s : State) → bytes.now ≡ payload w32 s → IsSound p.now s → IfErr result (λ e. e ≡ NoMemory) }
{
    read_payload(alloc, p, MassWidth::Four, bytes)
}
