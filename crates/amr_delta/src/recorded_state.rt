//! The state that bytes are a record of, on an older one.

ghost use Rattle.std.specs.Prelude.{◌≡◌, false, IfOk, IfErr};
ghost use Rattle.std.specs.List.{All};
ghost use Rattle.amr_decoder.specs.Faults.{IsFaultOf, IsRefusalOf};
ghost use Rattle.amr_decoder.specs.Lefts.{left_of};
ghost use Rattle.amr_decoder.specs.declared.faults.CodecFault.TheVariants.{NoMemory};
ghost use Rattle.amr_def.specs.Facts.{IsSound};
ghost use Rattle.amr_def.specs.State.{State};
ghost use Rattle.amr_patch.specs.Meshes.{is_spent, levels_of, state_of};
ghost use Rattle.amr_payload.specs.Delta.{IsLater, delta_bytes, delta_decoded, read_delta};
ghost use Rattle.amr_payload.specs.Tests.{read};
ghost use Rattle.amr_start.specs.PatchBoxes.{IsChopped};

use amr_codec::Basis;
use amr_decoder::{CodecFault, Reader, read_state};
use amr_def::Problem;
use amr_patch::Mesh;
use std::alloc::Global;

/// The sequence of the older state, and the state on it.
#[tactic(auto, unfolding(amr_payload::specs::Delta::read_delta))]
fn read_record(
    alloc: Global,
    p: &Problem,
    old: &Mesh,
    old_sequence: u64,
    reader: &mut Reader<'_>,
) -> Result<Mesh, CodecFault>
    requires old_whole { is_spent old.now ≡ false }
    requires old_sound { IsSound p.now (state_of old.now) }
    ensures read { IfOk result (λ mesh. read_delta p.now (state_of old.now) old_sequence (left_of reader.old) ≡ read (state_of mesh) (left_of reader.new)) }
    ensures bad { IfErr result (IsFaultOf (read_delta p.now (state_of old.now) old_sequence (left_of reader.old))) }
    ensures whole { IfOk result (λ mesh. is_spent mesh ≡ false) }
    ensures chopped { IfOk result (λ mesh. All (IsChopped p.now.max_grid_size) (levels_of mesh)) }
{
    let place = reader.place() as u64;
    let sequence = reader.read_u64()?;
    if sequence != old_sequence {
        return Err(CodecFault::Bad { place });
    }
    let mesh = read_state(alloc, p, &Basis::Older(old), reader)?;
    Ok(mesh)
}

/// The state that the whole of the bytes is a record of.
#[tactic(auto, unfolding(amr_payload::specs::Delta::delta_decoded))]
fn read_whole(
    alloc: Global,
    p: &Problem,
    old: &Mesh,
    old_sequence: u64,
    bytes: &[u8],
) -> Result<Mesh, CodecFault>
    requires old_whole { is_spent old.now ≡ false }
    requires old_sound { IsSound p.now (state_of old.now) }
    ensures read { IfOk result (λ mesh. delta_decoded p.now (state_of old.now) old_sequence bytes.now ≡ Ok (state_of mesh)) }
    ensures bad { IfErr result (IsRefusalOf (delta_decoded p.now (state_of old.now) old_sequence bytes.now)) }
    ensures whole { IfOk result (λ mesh. is_spent mesh ≡ false) }
    ensures chopped { IfOk result (λ mesh. All (IsChopped p.now.max_grid_size) (levels_of mesh)) }
{
    let mut reader = Reader::of(bytes);
    let mesh = read_record(alloc, p, old, old_sequence, &mut reader)?;
    if reader.count_left() > 0 {
        return Err(CodecFault::Bad {
            place: reader.place() as u64,
        });
    }
    Ok(mesh)
}

/// The mesh of the state whose record on `old` the bytes are, where `old` is kept under the sequence `old_sequence`. The older mesh
/// is a sound state of the problem, and not spent. The new one's state is sound, its step is greater, its older rows of the
/// ledger are those of `old`, and its patches have at most `max_grid_size` by `max_grid_size` cells. `Bad` is at the place of
/// the first test that fails, and then the bytes are the record of no sound later state. Memory is taken only for rows, boxes
/// and masses that were read whole, or that the older state has. Above level 0 it is taken for two bits at a time for each
/// cell of the domain of the next coarser level.
pub fn decode_delta(
    alloc: Global,
    p: &Problem,
    old: &Mesh,
    old_sequence: u64,
    bytes: &[u8],
) -> Result<Mesh, CodecFault>
    requires old_whole { is_spent old.now ≡ false }
    requires old_sound { IsSound p.now (state_of old.now) }
    ensures bytes { IfOk result (λ mesh. bytes.now ≡ delta_bytes (state_of old.now) old_sequence (state_of mesh)) }
    ensures sound { IfOk result (λ mesh. IsSound p.now (state_of mesh)) }
    ensures later { IfOk result (λ mesh. IsLater (state_of old.now) (state_of mesh)) }
    ensures whole { IfOk result (λ mesh. is_spent mesh ≡ false) }
    ensures chopped { IfOk result (λ mesh. All (IsChopped p.now.max_grid_size) (levels_of mesh)) }
    ensures bad { IfErr result (IsRefusalOf (delta_decoded p.now (state_of old.now) old_sequence bytes.now)) }
    ensures complete { (s : State) → bytes.now ≡ delta_bytes (state_of old.now) old_sequence s → IsSound p.now s → IsLater (state_of old.now) s
        → IfErr result (λ e. e ≡ NoMemory) }
{
    read_whole(alloc, p, old, old_sequence, bytes)
}
