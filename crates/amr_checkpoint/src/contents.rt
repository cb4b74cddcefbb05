//! Reading what a disk holds for a program: the readings of the store, of its problem and of its latest state, in their order.
ghost use Rattle.std.specs.Prelude.{◌≡◌, ◌≤◌, ℕ, List, Some, None, false, IfOk, IfSome, IsErrOf};
ghost use Rattle.amr_causes.specs.Causes.{Rose};
ghost use Rattle.amr_def.specs.declared.problem.Problem.{Problem};
ghost use Rattle.amr_disk.specs.Image.{Only};
ghost use Rattle.amr_store.specs.Phases.{OnlyReads};
ghost use Rattle.amr_store.specs.Shown.{Shows, ShowsState};
ghost use Rattle.amr_store.specs.Stands.{IsStoreReady, is_shut};
ghost use Rattle.amr_store.specs.Stored.{Held, State, stored};
ghost use Rattle.amr_checkpoint.specs.Checkpoints.{IsReadReady, IsStoreFor, IsUsable, content_of};
ghost use Rattle.amr_checkpoint.specs.Reasons.{fault_of_call};
ghost use Rattle.amr_checkpoint.specs.Contents.{Holds, IsStorable, latest_read, room_for};

use crate::faults::CheckpointFault;
use crate::latest::{StateFault, read_state};
use amr_causes::NoMemory;
use amr_codec::{slot_size, slot_size2};
use amr_def::Problem;
use amr_delta::delta_size;
use amr_disk::Disk;
use amr_patch::Mesh;
use amr_problem::{JudgeFault, judge};
use amr_store::{Found, Part, Store, StoreFault};
use std::alloc::Global;

/// What a disk holds for a program.
#[derive(Drop)]
pub enum Checkpoint {
    /// No store was made.
    Empty,
    /// A part of the store is damaged, the first one found.
    Damaged(Part),
    /// A store of this problem, with no state yet.
    Fresh(Store, Problem),
    /// A store of this problem, and its latest state.
    At(Store, Problem, Mesh),
}

/// How many bytes a slot has in a store of the problem, by the store's version.
fn room_for(p: &Problem, version: u32) -> u64
    ensures { result ≡ room_for version p.now }
{
    match version {
        1 => slot_size(p),
        3 => delta_size(p),
        _ => slot_size2(p),
    }
}

/// Why a call on a store that is not shut was refused.
pub(crate) fn fault_of_call(fault: StoreFault) -> CheckpointFault
    ensures { result ≡ fault_of_call fault }
{
    match fault {
        StoreFault::DiskFault | StoreFault::Shut => CheckpointFault::DiskFault,
        StoreFault::NoMemory => CheckpointFault::NoMemory,
    }
}

/// The problem that the bytes of a store are: none where they are no problem, or one of several species, of which a store keeps none.
fn stored_problem(alloc: Global, bytes: &[u8]) -> Result<Option<Problem>, NoMemory>
    ensures some { IfOk result (λ found. IfSome found (IsStorable bytes.now)) }
    ensures none { IfOk result (λ found. found ≡ None → (p : Problem) → ¬ (IsStorable bytes.now p)) }
{
    match judge(alloc, bytes) {
        Ok(problem) => {
            if problem.species == 1 {
                Ok(Some(problem))
            } else {
                Ok(None)
            }
        }
        Err(JudgeFault::Fault(_fault)) => Ok(None),
        Err(JudgeFault::NoMemory) => Err(NoMemory),
    }
}

/// The checkpoint of a store that has room for the problem's states.
fn read_latest<D: Disk>(
    alloc: Global,
    mut store: Store,
    problem: Problem,
    disk: &mut D,
) -> Result<Checkpoint, CheckpointFault>
    requires ready { IsStoreReady D.seen D.moment D.leaves store disk.old }
    requires store { IsStoreFor problem store }
    ensures read { IfOk result (λ found. (s : List ℕ) (held : State) → D.seen disk.old ≡ Some s → stored s ≡ Held held → ShowsState store held
        → content_of found ≡ latest_read held problem held.latest) }
    ensures usable { IfOk result IsUsable }
    ensures ready { IfOk result (λ found. IsReadReady D.seen D.moment D.leaves found disk.new) }
    ensures settled { Only (D.seen disk.new) (D.leaves disk.new (D.moment disk.new)) }
    ensures reads { OnlyReads D.seen D.moment D.leaves disk.old disk.new }
    ensures later { D.faults disk.old ≤ D.faults disk.new }
    ensures disk_fault { IsErrOf result CheckpointFault.DiskFault → Rose (D.faults disk.old) (D.faults disk.new) }
    ensures no_disk_fault { ¬ (IsErrOf result CheckpointFault.DiskFault) → D.faults disk.new ≡ D.faults disk.old }
{
    match store.latest(alloc, disk) {
        Ok(Some(bytes)) => match read_state(alloc, &mut store, &problem, &bytes, disk) {
            Ok(mesh) => Ok(Checkpoint::At(store, problem, mesh)),
            Err(StateFault::Damaged(part)) => Ok(Checkpoint::Damaged(part)),
            Err(StateFault::Refused(fault)) => Err(fault),
        },
        Ok(None) => Ok(Checkpoint::Fresh(store, problem)),
        Err(fault) => Err(fault_of_call(fault)),
    }
}

/// The checkpoint of a store of which no part is damaged, so far as the store tells.
fn read_store<D: Disk>(
    alloc: Global,
    store: Store,
    disk: &mut D,
) -> Result<Checkpoint, CheckpointFault>
    requires ready { IsStoreReady D.seen D.moment D.leaves store disk.old }
    requires unshut { is_shut store ≡ false }
    ensures holds { IfOk result (λ found. (s : List ℕ) → D.seen disk.old ≡ Some s → Shows store (stored s) → Holds s (content_of found)) }
    ensures usable { IfOk result IsUsable }
    ensures ready { IfOk result (λ found. IsReadReady D.seen D.moment D.leaves found disk.new) }
    ensures settled { Only (D.seen disk.new) (D.leaves disk.new (D.moment disk.new)) }
    ensures reads { OnlyReads D.seen D.moment D.leaves disk.old disk.new }
    ensures later { D.faults disk.old ≤ D.faults disk.new }
    ensures disk_fault { IsErrOf result CheckpointFault.DiskFault → Rose (D.faults disk.old) (D.faults disk.new) }
    ensures no_disk_fault { ¬ (IsErrOf result CheckpointFault.DiskFault) → D.faults disk.new ≡ D.faults disk.old }
{
    let problem = match stored_problem(alloc, store.problem()) {
        Ok(Some(problem)) => problem,
        Ok(None) => return Ok(Checkpoint::Damaged(Part::Problem)),
        Err(NoMemory) => return Err(CheckpointFault::NoMemory),
    };
    if store.slot_size() == room_for(&problem, store.version()) {
        read_latest(alloc, store, problem, disk)
    } else {
        Ok(Checkpoint::Damaged(Part::Size))
    }
}

/// What a disk holds for a program: exactly what its image does, by the bytes alone. Begins with a sync and only reads. But where the disk
/// failed a stop leaves what a read gives.
pub fn read_checkpoint<D: Disk>(alloc: Global, disk: &mut D) -> Result<Checkpoint, CheckpointFault>
    ensures holds { IfOk result (λ found. (s : List ℕ) → D.seen disk.old ≡ Some s → Holds s (content_of found)) }
    ensures usable { IfOk result IsUsable }
    ensures ready { IfOk result (λ found. IsReadReady D.seen D.moment D.leaves found disk.new) }
    ensures settled { ¬ (IsErrOf result CheckpointFault.DiskFault) → Only (D.seen disk.new) (D.leaves disk.new (D.moment disk.new)) }
    ensures reads { OnlyReads D.seen D.moment D.leaves disk.old disk.new }
    ensures later { D.faults disk.old ≤ D.faults disk.new }
    ensures disk_fault { IsErrOf result CheckpointFault.DiskFault → Rose (D.faults disk.old) (D.faults disk.new) }
    ensures no_disk_fault { ¬ (IsErrOf result CheckpointFault.DiskFault) → D.faults disk.new ≡ D.faults disk.old }
{
    match Store::open(alloc, disk) {
        Ok(Found::Ready(store)) => read_store(alloc, store, disk),
        Ok(Found::Nothing) => Ok(Checkpoint::Empty),
        Ok(Found::Damaged(part)) => Ok(Checkpoint::Damaged(part)),
        Err(fault) => Err(fault_of_call(fault)),
    }
}
