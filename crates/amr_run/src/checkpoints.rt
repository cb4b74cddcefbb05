//! Runs that keep checkpoints.
ghost use Rattle.std.specs.Prelude.{◌≡◌, ◌≢◌, ◌-◌, ◌<◌, ◌≤◌, ◌∷◌, ℕ, List, Some, None, Err, false, IfErr, IfOk, IfSome};
ghost use Rattle.amr_causes.specs.Bytes.{Grows};
ghost use Rattle.amr_causes.specs.Causes.{Rose};
ghost use Rattle.amr_checkpoint.specs.Checkpoints.{CanGoOn, IsMeshFor, IsResumedReady, IsStoreFor, MayPut, content_resumed};
ghost use Rattle.amr_checkpoint.specs.Contents.{Holds, IsStorable, state_from};
ghost use Rattle.amr_checkpoint.specs.KeptCheckpoints.{Keeps, checkpoints_of, fault_in, made_of, run_of};
ghost use Rattle.amr_checkpoint.specs.Outside.{outside_at};
ghost use Rattle.amr_def.specs.Facts.{IsSound};
ghost use Rattle.amr_def.specs.Run.{finish, start};
ghost use Rattle.amr_def.specs.State.{State};
ghost use Rattle.amr_payload.specs.Delta.{IsLater};
ghost use Rattle.amr_disk.specs.Image.{Only};
ghost use Rattle.amr_drive.specs.States.{states_after};
ghost use Rattle.amr_patch.specs.Meshes.{is_spent, state_of};
ghost use Rattle.amr_store.specs.Phases.{OnlyReads};
ghost use Rattle.amr_store.specs.Stands.{IsStoreReady, last_in, problem_in};
ghost use Rattle.amr_run.specs.KeptAnswers.{KeptReplies};
ghost use Rattle.amr_run.specs.Outcome.{EndsAtSource, StopsKept, status_of};

use crate::Status;
use crate::commands::Workshop;
use crate::keeper::Keeper;
use amr_advance::Crew;
use amr_causes::NoMemory;
use amr_checkpoint::{
    CheckpointFault, KeepFault, Keeping, KeptStore, ResumeFault, Resumed, keep_state, make_store,
    resume,
};
use amr_disk::Disk;
use amr_drive::{DriveFault, drive, start};
use amr_io::Sink;
use amr_patch::Mesh;
use amr_store::Store;
use amr_workers::Gate;
use std::sync::Wait;
use std::thread::Threads;

/// Makes the steps of a run from the state of a mesh, which stands in the store or has been kept, and keeps those that follow.
fn run_on<R: Threads + Wait + Sync, E: Sink, D: Disk, G: Gate + Sync>(
    workers: &Workshop<'_, R, G>,
    keeping: &Keeping<'_>,
    mut mesh: Mesh,
    kept: KeptStore,
    err: &mut E,
    disk: &mut D,
) -> Result<Mesh, KeepFault>
    requires mesh { IsMeshFor keeping.now.problem.now mesh }
    requires ahead { (state_of mesh).step ≤ keeping.now.target }
    requires within { keeping.now.target ≤ keeping.now.problem.now.steps }
    requires some { 0 < keeping.now.every }
    requires may { (s : State) → IsLater (state_of mesh) s → MayPut D.seen D.moment D.leaves keeping.now.problem.now kept s disk.old }
    requires some_workers { 1 ≤ workers.now.count }
    requires few_workers { workers.now.count ≤ 64 }
    requires gate { (worker task : ℕ) → worker < workers.now.count → G.admits workers.now.gate.now worker task }
    ensures whole { IfOk result (λ m. is_spent m ≡ false) }
    ensures value { IfOk result (λ m. state_of m ≡ finish keeping.now.problem.now (state_of mesh) keeping.now.target) }
    ensures kept { let shown = outside_at D.seen D.moment D.leaves D.faults E.holds E.faults in
        Keeps keeping.now.deltas (shown disk.old err.old) (shown disk.new err.new)
        (checkpoints_of (run_of (problem_in kept.store) keeping.now)
        (states_after keeping.now.problem.now (state_of mesh) (keeping.now.target - (state_of mesh).step))) (fault_in result) }
{
    let crew = Crew {
        ranks: 1,
        workers: workers.count,
    };
    let mut lent = Some(kept);
    let mut keeper = Keeper {
        keeping: *keeping,
        store: &mut lent,
        err,
        disk,
    };
    match drive(
        workers.runtime,
        keeping.alloc,
        keeping.problem,
        &mut mesh,
        keeping.target,
        crew,
        workers.gate,
        &mut keeper,
    ) {
        Ok(()) => Ok(mesh),
        Err(DriveFault::After(fault)) => Err(fault),
        Err(DriveFault::NoMemory) => Err(KeepFault::NoMemory),
    }
}

/// Makes a run from its start, which is kept too where it is a mark.
fn run_new<R: Threads + Wait + Sync, E: Sink, D: Disk, G: Gate + Sync>(
    workers: &Workshop<'_, R, G>,
    keeping: &Keeping<'_>,
    store: Store,
    err: &mut E,
    disk: &mut D,
) -> Result<Mesh, KeepFault>
    requires within { keeping.now.target ≤ keeping.now.problem.now.steps }
    requires some { 0 < keeping.now.every }
    requires store { IsStoreFor keeping.now.problem.now store }
    requires none { last_in store ≡ None }
    requires ready { IsStoreReady D.seen D.moment D.leaves store disk.old }
    requires some_workers { 1 ≤ workers.now.count }
    requires few_workers { workers.now.count ≤ 64 }
    requires gate { (worker task : ℕ) → worker < workers.now.count → G.admits workers.now.gate.now worker task }
    ensures whole { IfOk result (λ m. is_spent m ≡ false) }
    ensures value { IfOk result (λ m. state_of m ≡ finish keeping.now.problem.now (start keeping.now.problem.now) keeping.now.target) }
    ensures kept { let shown = outside_at D.seen D.moment D.leaves D.faults E.holds E.faults in
        Keeps keeping.now.deltas (shown disk.old err.old) (shown disk.new err.new)
        (checkpoints_of (run_of (problem_in store) keeping.now)
        (start keeping.now.problem.now ∷ states_after keeping.now.problem.now (start keeping.now.problem.now) keeping.now.target)) (fault_in result) }
{
    let mesh = match start(keeping.alloc, keeping.problem) {
        Ok(mesh) => mesh,
        Err(NoMemory) => return Err(KeepFault::NoMemory),
    };
    match keep_state(keeping, &mesh, KeptStore::fresh(store), err, disk) {
        Ok(kept) => run_on(workers, keeping, mesh, kept, err, disk),
        Err(fault) => Err(fault),
    }
}

/// Makes a run from what was found on the disk to its target, and keeps its checkpoints.
fn run_from<R: Threads + Wait + Sync, E: Sink, D: Disk, G: Gate + Sync>(
    workers: &Workshop<'_, R, G>,
    keeping: &Keeping<'_>,
    bytes: &[u8],
    resumed: Resumed,
    err: &mut E,
    disk: &mut D,
) -> Result<Mesh, KeepFault>
    requires accepted { IsStorable bytes.now keeping.now.problem.now }
    requires within { keeping.now.target ≤ keeping.now.problem.now.steps }
    requires some { 0 < keeping.now.every }
    requires deltas { IfSome keeping.now.deltas (λ d. (0 < d) × (d ≤ 7)) }
    requires can_go_on { CanGoOn bytes.now keeping.now.problem.now keeping.now.target resumed }
    requires holds { (s : List ℕ) → D.seen disk.old ≡ Some s → Holds s (content_resumed bytes.now keeping.now.problem.now resumed) }
    requires ready { IsResumedReady D.seen D.moment D.leaves resumed disk.old }
    requires settled { Only (D.seen disk.old) (D.leaves disk.old (D.moment disk.old)) }
    requires some_workers { 1 ≤ workers.now.count }
    requires few_workers { workers.now.count ≤ 64 }
    requires gate { (worker task : ℕ) → worker < workers.now.count → G.admits workers.now.gate.now worker task }
    ensures whole { IfOk result (λ m. is_spent m ≡ false) }
    ensures value { IfOk result (λ m. state_of m
        ≡ finish keeping.now.problem.now (state_from keeping.now.problem.now (content_resumed bytes.now keeping.now.problem.now resumed)) keeping.now.target) }
    ensures kept { let shown = outside_at D.seen D.moment D.leaves D.faults E.holds E.faults in
        Keeps keeping.now.deltas (shown disk.old err.old) (shown disk.new err.new)
        (made_of (run_of bytes.now keeping.now) (content_resumed bytes.now keeping.now.problem.now resumed)) (fault_in result) }
{
    match resumed {
        Resumed::Nothing => match make_store(
            keeping.alloc,
            keeping.problem,
            bytes,
            keeping.deltas,
            disk,
        ) {
            Ok(store) => run_new(workers, keeping, store, err, disk),
            Err(CheckpointFault::DiskFault) => Err(KeepFault::DiskFault),
            Err(CheckpointFault::NoMemory) => Err(KeepFault::NoMemory),
        },
        Resumed::Fresh(store) => run_new(workers, keeping, store, err, disk),
        Resumed::At(store, mesh) => match KeptStore::at(store, &mesh) {
            Ok(kept) => run_on(workers, keeping, mesh, kept, err, disk),
            Err(NoMemory) => Err(KeepFault::NoMemory),
        },
    }
}

/// The mesh of a run at its target, which goes on from what the disk holds and keeps its checkpoints, or the status that refuses
/// it. Acknowledges each checkpoint on `err` once it stands.
pub(crate) fn keep_run<R: Threads + Wait + Sync, E: Sink, D: Disk, G: Gate + Sync>(
    workers: &Workshop<'_, R, G>,
    keeping: &Keeping<'_>,
    bytes: &[u8],
    err: &mut E,
    disk: &mut D,
) -> Result<Mesh, Status>
    requires accepted { IsStorable bytes.now keeping.now.problem.now }
    requires within { keeping.now.target ≤ keeping.now.problem.now.steps }
    requires some { 0 < keeping.now.every }
    requires deltas { IfSome keeping.now.deltas (λ d. (0 < d) × (d ≤ 7)) }
    requires some_workers { 1 ≤ workers.now.count }
    requires few_workers { workers.now.count ≤ 64 }
    requires gate { (worker task : ℕ) → worker < workers.now.count → G.admits workers.now.gate.now worker task }
    ensures whole { IfOk result (λ m. is_spent m ≡ false) }
    ensures sound { IfOk result (λ m. IsSound keeping.now.problem.now (state_of m)) }
    ensures outcome { (said : List ℕ) × Grows E.holds err.old err.new said
        × KeptReplies result bytes.now keeping.now.problem.now keeping.now.every keeping.now.target (D.seen disk.old) said
        × StopsKept D.seen D.moment D.leaves disk.old disk.new (status_of result) (run_of bytes.now keeping.now) said }
    ensures refused { IfErr result (λ status. status ≢ Status.Done) }
    ensures no_source { ¬ (EndsAtSource (status_of result)) }
    ensures disk_fault { result ≡ Err Status.DiskFault → Rose (D.faults disk.old) (D.faults disk.new) }
    ensures no_disk_fault { result ≢ Err Status.DiskFault → D.faults disk.new ≡ D.faults disk.old }
    ensures write_fault { result ≡ Err Status.WriteFault → Rose (E.faults err.old) (E.faults err.new) }
    ensures no_write_fault { result ≢ Err Status.WriteFault → E.faults err.new ≡ E.faults err.old }
    ensures settled { result ≢ Err Status.DiskFault → Only (D.seen disk.new) (D.leaves disk.new (D.moment disk.new)) }
    ensures unwritten { (refusal : _) → result ≡ Err (Status.Store refusal) → OnlyReads D.seen D.moment D.leaves disk.old disk.new }
{
    let resumed = match resume(keeping.alloc, bytes, keeping.target, disk) {
        Ok(resumed) => resumed,
        Err(fault) => return Err(Status::from(fault)),
    };
    match run_from(workers, keeping, bytes, resumed, err, disk) {
        Ok(mesh) => Ok(mesh),
        Err(fault) => Err(Status::from(fault)),
    }
}
