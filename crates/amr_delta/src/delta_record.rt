//! The record of a state on an older one.

ghost use Rattle.std.specs.Prelude.{◌≡◌, ◌≤◌, ◌^◌, false, length, IfOk};
ghost use Rattle.amr_def.specs.Facts.{IsSound};
ghost use Rattle.amr_patch.specs.Meshes.{is_spent, state_of};
ghost use Rattle.amr_payload.specs.Delta.{delta_bytes, delta_size};

use amr_causes::NoMemory;
use amr_codec::{Basis, put_state, put_u64, room};
use amr_def::Problem;
use amr_patch::Mesh;
use std::alloc::Global;

/// The greatest length of a record of the problem, and room for a payload 2 too.
#[tactic(auto, unfolding(amr_payload::specs::Delta::delta_size))]
pub fn delta_size(p: &Problem) -> u64
    ensures value { result ≡ delta_size p.now }
    ensures small { result ≤ 2 ^ 40 }
{
    room(p, 33, 5)
}

/// The record of `new` on `old`, an older state that is kept under the sequence `old_sequence`. Both meshes are sound states of
/// the problem, and neither is spent. A row of a box is compared with the older state span by span, with one look-up a span
/// in each. Memory for `delta_size` bytes is taken first, and no other.
#[tactic(auto, unfolding(amr_payload::specs::Delta::delta_bytes))]
pub fn encode_delta(
    alloc: Global,
    p: &Problem,
    old: &Mesh,
    old_sequence: u64,
    new: &Mesh,
) -> Result<Vec<u8>, NoMemory>
    requires old_whole { is_spent old.now ≡ false }
    requires old_sound { IsSound p.now (state_of old.now) }
    requires whole { is_spent new.now ≡ false }
    requires sound { IsSound p.now (state_of new.now) }
    ensures bytes { IfOk result (λ bytes. bytes.items ≡ delta_bytes (state_of old.now) old_sequence (state_of new.now)) }
    ensures fits { IfOk result (λ bytes. length bytes.items ≤ delta_size p.now) }
{
    let mut out = Vec::with_capacity(alloc, delta_size(p) as usize)?;
    put_u64(old_sequence, &mut out)?;
    put_state(p, &Basis::Older(old), new, &mut out)?;
    Ok(out)
}
