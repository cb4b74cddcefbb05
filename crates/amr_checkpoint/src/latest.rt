//! The latest state of a store: a whole one, with the records behind it applied in their order.
ghost use Rattle.std.specs.Prelude.{◌≡◌, ◌≢◌, ◌+◌, ◌-◌, ◌≤◌, ◌↔◌, ℕ, Some, Ok, false, true, drop, IfOk, IfErr, OnOk};
ghost use Rattle.amr_decoder.specs.Faults.{IsRefusalOf};
ghost use Rattle.amr_patch.specs.Meshes.{state_of};
ghost use Rattle.amr_payload.specs.Tests.{decoded};
ghost use Rattle.amr_store.specs.Phases.{OnlyReads};
ghost use Rattle.amr_store.specs.Stands.{IsStoreReady, chain_in, counted_in, is_shut, last_in, version_in};
ghost use Rattle.amr_store.specs.Stored.{Entry, State};
ghost use Rattle.amr_checkpoint.specs.Checkpoints.{IsMeshFor};
ghost use Rattle.amr_checkpoint.specs.Contents.{latest_read, mass_width, record_read};
ghost use Rattle.amr_checkpoint.specs.Reads.{FailsAs, IsHeldOn, IsOpenStill, ReadsAs, ReadsLatest, ReadsNext, ReadsWhole, StaysRead};

use crate::contents::fault_of_call;
use crate::faults::CheckpointFault;
use amr_decoder::{CodecFault, decode, decode2};
use amr_def::Problem;
use amr_delta::decode_delta;
use amr_disk::Disk;
use amr_patch::Mesh;
use amr_store::{Part, Store};
use std::alloc::Global;

/// Why the latest state was not read.
#[derive(Clone, Copy, Debug, PartialEq, Eq, Drop)]
pub(crate) enum StateFault {
    /// A part of what is stored is damaged.
    Damaged(Part),
    /// A call that reads it was refused.
    Refused(CheckpointFault),
}

/// The mesh whose payload the bytes are, by the store's version.
fn decode_by(alloc: Global, version: u32, p: &Problem, bytes: &[u8]) -> Result<Mesh, CodecFault>
    ensures read { IfOk result (λ mesh. decoded (mass_width version) p.now bytes.now ≡ Ok (state_of mesh)) }
    ensures bad { IfErr result (IsRefusalOf (decoded (mass_width version) p.now bytes.now)) }
    ensures mesh { IfOk result (IsMeshFor p.now) }
{
    if version == 1 {
        decode(alloc, p, bytes)
    } else {
        decode2(alloc, p, bytes)
    }
}

/// Whether a stored sequence is that of a state of this step.
fn is_sequence_of(stored: Option<u64>, step: u32) -> bool
    ensures { result ≡ true ↔ (stored ≡ Some (step + 1)) }
{
    match stored {
        Some(sequence) => sequence == u64::from(step) + 1,
        None => false,
    }
}

/// The mesh that a whole state is, which was stored with this sequence.
fn read_whole(
    alloc: Global,
    version: u32,
    p: &Problem,
    sequence: Option<u64>,
    bytes: &[u8],
) -> Result<Mesh, StateFault>
    ensures read { (q : ℕ) → sequence ≡ Some q → ReadsWhole q (decoded (mass_width version) p.now bytes.now) result }
    ensures mesh { IfOk result (IsMeshFor p.now) }
    ensures sequence { IfOk result (λ mesh. sequence ≡ Some ((state_of mesh).step + 1)) }
    ensures no_disk_fault { IfErr result (λ fault. fault ≢ StateFault.Refused CheckpointFault.DiskFault) }
{
    let mesh = match decode_by(alloc, version, p, bytes) {
        Ok(mesh) => mesh,
        Err(CodecFault::Bad { place }) => return Err(StateFault::Damaged(Part::State(place))),
        Err(CodecFault::NoMemory) => return Err(StateFault::Refused(CheckpointFault::NoMemory)),
    };
    if is_sequence_of(sequence, mesh.step()) {
        Ok(mesh)
    } else {
        Err(StateFault::Damaged(Part::Sequence))
    }
}

/// The mesh that the record of this number is on the state before it, which was stored with this sequence.
fn decode_record(
    alloc: Global,
    p: &Problem,
    old: &Mesh,
    number: u32,
    sequence: Option<u64>,
    bytes: &[u8],
) -> Result<Mesh, StateFault>
    requires old { IsMeshFor p.now old.now }
    ensures read { (q : ℕ) → sequence ≡ Some q
        → ReadsAs (record_read p.now (state_of old.now) (record { sequence = q; payload = bytes.now })) (Part.Chain number) result }
    ensures mesh { IfOk result (IsMeshFor p.now) }
    ensures sequence { IfOk result (λ mesh. sequence ≡ Some ((state_of mesh).step + 1)) }
    ensures no_disk_fault { IfErr result (λ fault. fault ≢ StateFault.Refused CheckpointFault.DiskFault) }
{
    let mesh = match decode_delta(alloc, p, old, u64::from(old.step()) + 1, bytes) {
        Ok(mesh) => mesh,
        Err(CodecFault::Bad { place: _ }) => return Err(StateFault::Damaged(Part::Chain(number))),
        Err(CodecFault::NoMemory) => return Err(StateFault::Refused(CheckpointFault::NoMemory)),
    };
    if is_sequence_of(sequence, mesh.step()) {
        Ok(mesh)
    } else {
        Err(StateFault::Damaged(Part::Chain(number)))
    }
}

/// The mesh that the store's record of this number is on the state before it.
fn read_record<D: Disk>(
    alloc: Global,
    store: &mut Store,
    p: &Problem,
    old: &Mesh,
    number: u32,
    disk: &mut D,
) -> Result<Mesh, StateFault>
    requires opened { IsOpenStill D.seen D.moment D.leaves store.old disk.old }
    requires old { IsMeshFor p.now old.now }
    requires from { 1 ≤ number }
    requires to { number ≤ chain_in store.old }
    ensures read { (held : State) (before : ℕ) → IsHeldOn (D.seen disk.old) store.old held → before + 1 ≡ number
        → ReadsNext p.now (state_of old.now) number (drop before held.records) (drop (before + 1) held.records) result }
    ensures mesh { IfOk result (IsMeshFor p.now) }
    ensures sequence { IfOk result (λ mesh. counted_in store.old number ≡ Some ((state_of mesh).step + 1)) }
    ensures same { StaysRead store.old store.new }
    ensures opened { OnOk result (IsOpenStill D.seen D.moment D.leaves store.new disk.new) }
    ensures reads { OnlyReads D.seen D.moment D.leaves disk.old disk.new }
    ensures reason { FailsAs (D.faults disk.old) (D.faults disk.new) result }
{
    let bytes = match store.delta_at(alloc, disk, number) {
        Ok(bytes) => bytes,
        Err(fault) => return Err(StateFault::Refused(fault_of_call(fault))),
    };
    let sequence = store.sequence_at(number);
    decode_record(alloc, p, old, number, sequence, &bytes)
}

/// The latest state: the whole one, whose payload these bytes are, with the records behind it applied in their order.
pub(crate) fn read_state<D: Disk>(
    alloc: Global,
    store: &mut Store,
    p: &Problem,
    bytes: &[u8],
    disk: &mut D,
) -> Result<Mesh, StateFault>
    requires opened { IsOpenStill D.seen D.moment D.leaves store.old disk.old }
    ensures read { (held : State) (entry : Entry) → IsHeldOn (D.seen disk.old) store.old held → held.latest ≡ Some entry → entry.payload ≡ bytes.now
        → ReadsLatest (latest_read held p.now held.latest) held.problem p.now result }
    ensures mesh { IfOk result (IsMeshFor p.now) }
    ensures last { IfOk result (λ mesh. last_in store.old ≡ Some ((state_of mesh).step + 1)) }
    ensures same { StaysRead store.old store.new }
    ensures opened { OnOk result (IsOpenStill D.seen D.moment D.leaves store.new disk.new) }
    ensures reads { OnlyReads D.seen D.moment D.leaves disk.old disk.new }
    ensures reason { FailsAs (D.faults disk.old) (D.faults disk.new) result }
{
    let sequence = store.sequence_at(0);
    let mut mesh = match read_whole(alloc, store.version(), p, sequence, bytes) {
        Ok(mesh) => mesh,
        Err(fault) => return Err(fault),
    };
    for before in 0..store.chain() {
        mesh = match read_record(alloc, store, p, &mesh, before + 1, disk) {
            Ok(next) => next,
            Err(fault) => return Err(fault),
        };
    }
    Ok(mesh)
}
