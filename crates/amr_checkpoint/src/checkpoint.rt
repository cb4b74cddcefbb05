//! Making a store for a run, and putting checkpoints into it.
ghost use Rattle.std.specs.Prelude.{◌≡◌, ◌≢◌, ◌+◌, ◌<◌, ◌≤◌, ◌⊎◌, ◌^◌, ◌∷◌, [], ℕ, List, Some, None, true, false, nat_lt, IfOk, IfSome, OnOk, IsErrOf};
ghost use Rattle.std.specs.Prelude.{option_map};
ghost use Rattle.std.specs.Int.{w32};
ghost use Rattle.amr_causes.specs.Causes.{Rose};
ghost use Rattle.amr_def.specs.Facts.{IsSound};
ghost use Rattle.amr_def.specs.State.{State};
ghost use Rattle.amr_disk.specs.Image.{Only};
ghost use Rattle.amr_disk.specs.Moments.{StopsIn};
ghost use Rattle.amr_patch.specs.Meshes.{is_spent, state_of};
ghost use Rattle.amr_payload.specs.Delta.{IsLater};
ghost use Rattle.amr_payload.specs.Payload.{slot_size};
ghost use Rattle.amr_store.specs.Phases.{StopsFrom};
ghost use Rattle.amr_store.specs.Reasons.{HasReason, is_no_memory, is_shut_fault};
ghost use Rattle.amr_store.specs.Stands.{IsStoreOf, IsStoreReady, chain_in, deltas_in, last_in, problem_in, version_in};
ghost use Rattle.amr_store.specs.Stored as stores;
ghost use Rattle.amr_checkpoint.specs.Checkpoints.{HoldsLatest, IsCopyWhere, IsFreshStore, IsLatest, IsPut};
ghost use Rattle.amr_checkpoint.specs.Checkpoints.{IsStoreAfter, IsStoreAt, IsStoreFor, MayPut, StaysTold};
ghost use Rattle.amr_checkpoint.specs.Checkpoints.{content_at_mesh};
ghost use Rattle.amr_checkpoint.specs.Contents.{Content, Empty, Fresh, Holds, IsStorable, room_for};
ghost use Rattle.amr_checkpoint.specs.KeptCheckpoints.{fault_in};
ghost use Rattle.amr_checkpoint.specs.Made.{ReadsWith, deltas_made, image_made, state_made, takes_record, version_made};

use crate::contents::fault_of_call;
use crate::exchange::{kept_after, place_beside, place_over};
use crate::faults::CheckpointFault;
use amr_causes::NoMemory;
use amr_codec::{encode2, slot_size2};
use amr_def::Problem;
use amr_delta::{delta_size, encode_delta};
use amr_disk::Disk;
use amr_patch::Mesh;
use amr_store::{Store, StoreFault};
use std::alloc::Global;

/// A store that a run puts its states into.
#[derive(Drop)]
pub struct KeptStore {
    /// The store.
    pub store: Store,
    /// Its latest state, exactly where the next one is put as a record on it.
    pub latest: Option<Mesh>,
    /// A mesh that an older state was kept in, whose memory a later one may take.
    pub spare: Option<Mesh>,
}

/// How many bytes a slot has in a store of version 2.
fn room(p: &Problem) -> u64
    ensures value { result ≡ slot_size w32 p.now }
    ensures small { result ≤ 2 ^ 40 }
{
    slot_size2(p)
}

/// A new store: of version 2, or where so many records are to follow each whole state, of version 3.
fn create<D: Disk>(
    alloc: Global,
    p: &Problem,
    bytes: &[u8],
    deltas: Option<u32>,
    disk: &mut D,
) -> Result<Store, StoreFault>
    requires deltas { IfSome deltas (λ d. (0 < d) × (d ≤ 7)) }
    requires accepted { IsStorable bytes.now p.now }
    requires settled { Only (D.seen disk.old) (D.leaves disk.old (D.moment disk.old)) }
    requires empty { (s : List ℕ) → D.seen disk.old ≡ Some s → stores.stored s ≡ stores.Empty }
    ensures store { IfOk result (IsStoreOf (version_made deltas) bytes.now (room_for (version_made deltas) p.now) (deltas_made deltas)) }
    ensures ready { IfOk result (λ store. IsStoreReady D.seen D.moment D.leaves store disk.new) }
    ensures last { IfOk result (λ store. last_in store ≡ None) }
    ensures seen { OnOk result (D.seen disk.new ≡ option_map (image_made deltas bytes.now p.now) (D.seen disk.old)) }
    ensures made { OnOk result ((t : List ℕ) → D.seen disk.new ≡ Some t → stores.stored t ≡ stores.Held (state_made deltas bytes.now p.now)) }
    ensures stops { StopsFrom D.seen D.moment D.leaves disk.old disk.new
        (λ _ c. (stores.stored c ≡ stores.Empty) ⊎ (stores.stored c ≡ stores.Held (state_made deltas bytes.now p.now))) }
    ensures memory { is_no_memory result ≡ true → disk.new ≡ disk.old }
    ensures reason { HasReason (D.faults disk.old) (D.faults disk.new) result }
    ensures unshut { is_shut_fault result ≡ false }
{
    match deltas {
        None => Store::create(alloc, disk, bytes, room(p), 2),
        Some(deltas) => Store::create3(alloc, disk, bytes, delta_size(p), deltas),
    }
}

/// Makes the store of a run's problem of one species, which these bytes are, where the disk holds none: one of version 2, or with
/// records of version 3. A stop at any moment leaves nothing, or the new store. If allocation fails the disk is as before.
pub fn make_store<D: Disk>(
    alloc: Global,
    p: &Problem,
    bytes: &[u8],
    deltas: Option<u32>,
    disk: &mut D,
) -> Result<Store, CheckpointFault>
    requires deltas { IfSome deltas (λ d. (0 < d) × (d ≤ 7)) }
    requires accepted { IsStorable bytes.now p.now }
    requires settled { Only (D.seen disk.old) (D.leaves disk.old (D.moment disk.old)) }
    requires empty { (s : List ℕ) → D.seen disk.old ≡ Some s → Holds s Empty }
    ensures store { IfOk result (IsFreshStore p.now) }
    ensures problem { IfOk result (λ store. problem_in store ≡ bytes.now) }
    ensures ready { IfOk result (λ store. IsStoreReady D.seen D.moment D.leaves store disk.new) }
    ensures holds { OnOk result ((t : List ℕ) → D.seen disk.new ≡ Some t → Holds t (Fresh bytes.now p.now)) }
    ensures told { OnOk result (StaysTold (D.seen disk.old) (D.seen disk.new)) }
    ensures made { OnOk result ((s : List ℕ) → D.seen disk.old ≡ Some s → ReadsWith deltas (D.seen disk.new) s (Fresh bytes.now p.now ∷ [])) }
    ensures stops { (s : List ℕ) → D.seen disk.old ≡ Some s
        → StopsIn D.moment D.leaves disk.old disk.new (λ c. Holds c Empty ⊎ Holds c (Fresh bytes.now p.now)) }
    ensures memory { IsErrOf result CheckpointFault.NoMemory → disk.new ≡ disk.old }
    ensures later { D.faults disk.old ≤ D.faults disk.new }
    ensures disk_fault { IsErrOf result CheckpointFault.DiskFault → Rose (D.faults disk.old) (D.faults disk.new) }
    ensures no_disk_fault { ¬ (IsErrOf result CheckpointFault.DiskFault) → D.faults disk.new ≡ D.faults disk.old }
{
    match create(alloc, p, bytes, deltas, disk) {
        Ok(store) => Ok(store),
        Err(fault) => Err(fault_of_call(fault)),
    }
}

/// Puts the state of a mesh whole into a store. One of version 1 is renewed by it, as one of version 2.
fn put_whole<D: Disk>(
    alloc: Global,
    p: &Problem,
    mesh: &Mesh,
    mut store: Store,
    disk: &mut D,
) -> Result<Store, CheckpointFault>
    requires whole { is_spent mesh.now ≡ false }
    requires sound { IsSound p.now (state_of mesh.now) }
    requires store { IsStoreFor p.now store }
    requires above { IfSome (last_in store) (λ last. last < (state_of mesh.now).step + 1) }
    requires ready { IsStoreReady D.seen D.moment D.leaves store disk.old }
    requires no_record { takes_record store ≡ false }
    requires deltas { version_in store ≢ 3 → deltas_in store ≡ 0 }
    ensures store { IfOk result (IsStoreAfter p.now ((state_of mesh.now).step + 1) 0 store) }
    ensures ready { IfOk result (λ store. IsStoreReady D.seen D.moment D.leaves store disk.new) }
    ensures put { IsPut D.seen D.moment D.leaves D.faults (problem_in store) p.now (state_of mesh.now) (fault_in result) disk.old disk.new }
{
    let bytes = match encode2(alloc, p, mesh) {
        Ok(bytes) => bytes,
        Err(NoMemory) => return Err(CheckpointFault::NoMemory),
    };
    let sequence = u64::from(mesh.step()) + 1;
    let must_renew = store.version() == 1;
    if must_renew {
        match store.renew(alloc, disk, sequence, &bytes, room(p)) {
            Ok(renewed) => Ok(renewed),
            Err(fault) => Err(fault_of_call(fault)),
        }
    } else {
        match store.put(disk, sequence, &bytes) {
            Ok(()) => Ok(store),
            Err(fault) => Err(fault_of_call(fault)),
        }
    }
}

/// Puts the state of a mesh into a store as a record on its latest one.
fn put_record<D: Disk>(
    alloc: Global,
    p: &Problem,
    old: &Mesh,
    mesh: &Mesh,
    mut store: Store,
    disk: &mut D,
) -> Result<Store, CheckpointFault>
    requires whole { is_spent mesh.now ≡ false }
    requires sound { IsSound p.now (state_of mesh.now) }
    requires store { IsStoreFor p.now store }
    requires ready { IsStoreReady D.seen D.moment D.leaves store disk.old }
    requires takes { takes_record store ≡ true }
    requires latest { IsLatest p.now store (state_of mesh.now) old.now }
    requires held { (image : List ℕ) → D.seen disk.old ≡ Some image → Holds image (content_at_mesh (problem_in store) p.now old.now) }
    ensures store { IfOk result (IsStoreAfter p.now ((state_of mesh.now).step + 1) (chain_in store + 1) store) }
    ensures ready { IfOk result (λ store. IsStoreReady D.seen D.moment D.leaves store disk.new) }
    ensures put { IsPut D.seen D.moment D.leaves D.faults (problem_in store) p.now (state_of mesh.now) (fault_in result) disk.old disk.new }
{
    let bytes = match encode_delta(alloc, p, old, u64::from(old.step()) + 1, mesh) {
        Ok(bytes) => bytes,
        Err(NoMemory) => return Err(CheckpointFault::NoMemory),
    };
    match store.put_record(disk, u64::from(mesh.step()) + 1, &bytes) {
        Ok(()) => Ok(store),
        Err(fault) => Err(fault_of_call(fault)),
    }
}

/// A copy of the mesh, where another record follows so many of at most `most`: it is what that one is put on.
fn latest_of(mesh: &Mesh, chain: u32, most: u32) -> Result<Option<Mesh>, NoMemory>
    requires { is_spent mesh.now ≡ false }
    ensures { IfOk result (IsCopyWhere (nat_lt chain most) (state_of mesh.now)) }
{
    if chain < most {
        match mesh.copy() {
            Ok(copy) => Ok(Some(copy)),
            Err(NoMemory) => Err(NoMemory),
        }
    } else {
        Ok(None)
    }
}

impl KeptStore {
    /// A store without a state: the first one is put whole.
    pub fn fresh(store: Store) -> KeptStore
        ensures store { result.store ≡ store }
        ensures latest { result.latest ≡ None }
    {
        KeptStore {
            store,
            latest: None,
            spare: None,
        }
    }

    /// A store at the state of a mesh. Out of memory is the only refusal.
    pub fn at(store: Store, mesh: &Mesh) -> Result<KeptStore, NoMemory>
        requires { is_spent mesh.now ≡ false }
        ensures store { IfOk result (λ kept. kept.store ≡ store) }
        ensures latest { IfOk result (λ kept. IsCopyWhere (nat_lt (chain_in store) (deltas_in store)) (state_of mesh.now) kept.latest) }
        ensures version { version_in store ≢ 3 → deltas_in store ≡ 0 }
    {
        let chain = store.chain();
        let most = store.deltas();
        match latest_of(mesh, chain, most) {
            Ok(latest) => Ok(KeptStore {
                store,
                latest,
                spare: None,
            }),
            Err(NoMemory) => Err(NoMemory),
        }
    }
}

/// Puts the state of a mesh into a store as its latest checkpoint: as a record on the state before it, where the store is of version 3 and has room
/// for one, else whole. A store of version 1 is renewed by it, as one of version 2. A stop at any moment leaves what the disk held, or the new
/// checkpoint. All memory is taken before the disk is written: if allocation fails the disk is as before. A refusal drops the store.
pub fn put_checkpoint<D: Disk>(
    alloc: Global,
    p: &Problem,
    mesh: &Mesh,
    kept: KeptStore,
    disk: &mut D,
) -> Result<KeptStore, CheckpointFault>
    requires whole { is_spent mesh.now ≡ false }
    requires sound { IsSound p.now (state_of mesh.now) }
    requires may { MayPut D.seen D.moment D.leaves p.now kept (state_of mesh.now) disk.old }
    ensures next { IfOk result (λ after. (s : State) → IsLater (state_of mesh.now) s → MayPut D.seen D.moment D.leaves p.now after s disk.new) }
    ensures store { IfOk result (λ after. (chain : ℕ) × IsStoreAfter p.now ((state_of mesh.now).step + 1) chain kept.store after.store) }
    ensures settled { IfOk result (λ _. Only (D.seen disk.new) (D.leaves disk.new (D.moment disk.new))) }
    ensures put { IsPut D.seen D.moment D.leaves D.faults (problem_in kept.store) p.now (state_of mesh.now) (fault_in result) disk.old disk.new }
{
    let KeptStore {
        store,
        latest,
        spare,
    } = kept;
    let most = store.deltas();
    match latest {
        Some(old) => {
            let place = match place_over(alloc, p, store.chain() + 1, most, &old, mesh) {
                Ok(place) => place,
                Err(NoMemory) => return Err(CheckpointFault::NoMemory),
            };
            match put_record(alloc, p, &old, mesh, store, disk) {
                Ok(store) => Ok(kept_after(store, place, Some(old), mesh)),
                Err(fault) => Err(fault),
            }
        }
        None => {
            let place = match place_beside(alloc, p, 0, most, &spare, mesh) {
                Ok(place) => place,
                Err(NoMemory) => return Err(CheckpointFault::NoMemory),
            };
            match put_whole(alloc, p, mesh, store, disk) {
                Ok(store) => Ok(kept_after(store, place, spare, mesh)),
                Err(fault) => Err(fault),
            }
        }
    }
}
