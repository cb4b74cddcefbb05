//! Keeping a state of a run: a checkpoint where its step is a mark, and the line that acknowledges it.
ghost use Rattle.std.specs.Prelude.{◌≡◌, ◌<◌, ◌∷◌, [], true, false, IfOk, IsErrOf};
ghost use Rattle.amr_def.specs.Facts.{IsSound};
ghost use Rattle.amr_patch.specs.Meshes.{is_spent, state_of};
ghost use Rattle.amr_def.specs.State.{State};
ghost use Rattle.amr_payload.specs.Delta.{IsLater};
ghost use Rattle.amr_store.specs.Stands.{problem_in, version_in};
ghost use Rattle.amr_checkpoint.specs.Checkpoints.{MayPut, renewed_version};
ghost use Rattle.amr_checkpoint.specs.KeptCheckpoints.{Keeps, checkpoints_of, fault_in, run_of};
ghost use Rattle.amr_checkpoint.specs.Marks.{is_mark};
ghost use Rattle.amr_checkpoint.specs.Outside.{outside_at};

use crate::checkpoint::{KeptStore, put_checkpoint};
use crate::faults::{CheckpointFault, KeepFault};
use crate::lines::put_checkpoint_line;
use crate::marks::is_mark;
use amr_def::Problem;
use amr_disk::Disk;
use amr_io::Sink;
use amr_patch::Mesh;
use std::alloc::Global;

/// What a run keeps its checkpoints by: memory, its problem, and the steps that are marks.
#[derive(Clone, Copy)]
pub struct Keeping<'a> {
    /// Memory for the bytes of a state.
    pub alloc: Global,
    /// The problem of the run.
    pub problem: &'a Problem,
    /// Each multiple of so many steps is a mark, at least 1.
    pub every: u32,
    /// The step that the run goes to, which is a mark too.
    pub target: u32,
    /// How many records follow each whole state in a store that the run makes, from 1 to 7. None: the store is of version 2.
    pub deltas: Option<u32>,
}

/// Keeps the state of a mesh where its step is a mark: puts it into the store, and then, once it stands, writes its line to `err`.
/// A stop at any moment leaves what the disk held, or the new checkpoint. All memory is taken before the disk is written: if
/// allocation fails the disk is as before. A refusal drops the store; `WriteFault` comes after the checkpoint stands.
pub fn keep_state<E: Sink, D: Disk>(
    keeping: &Keeping<'_>,
    mesh: &Mesh,
    kept: KeptStore,
    err: &mut E,
    disk: &mut D,
) -> Result<KeptStore, KeepFault>
    requires whole { is_spent mesh.now ≡ false }
    requires sound { IsSound keeping.now.problem.now (state_of mesh.now) }
    requires some { 0 < keeping.now.every }
    requires may { MayPut D.seen D.moment D.leaves keeping.now.problem.now kept (state_of mesh.now) disk.old }
    ensures next { IfOk result (λ after. (s : State) → IsLater (state_of mesh.now) s
        → MayPut D.seen D.moment D.leaves keeping.now.problem.now after s disk.new) }
    ensures version { is_mark keeping.now.every keeping.now.target (state_of mesh.now).step ≡ true
        → IfOk result (λ after. version_in after.store ≡ renewed_version (version_in kept.store)) }
    ensures problem { IfOk result (λ after. problem_in after.store ≡ problem_in kept.store) }
    ensures kept { let shown = outside_at D.seen D.moment D.leaves D.faults E.holds E.faults in
        Keeps keeping.now.deltas (shown disk.old err.old) (shown disk.new err.new)
        (checkpoints_of (run_of (problem_in kept.store) keeping.now) (state_of mesh.now ∷ [])) (fault_in result) }
    ensures memory { IsErrOf result KeepFault.NoMemory → disk.new ≡ disk.old }
{
    let step = mesh.step();
    if !is_mark(keeping.every, keeping.target, step) {
        return Ok(kept);
    }
    match put_checkpoint(keeping.alloc, keeping.problem, mesh, kept, disk) {
        Ok(after) => match put_checkpoint_line(err, step) {
            Ok(()) => Ok(after),
            Err(_) => Err(KeepFault::WriteFault),
        },
        Err(CheckpointFault::DiskFault) => Err(KeepFault::DiskFault),
        Err(CheckpointFault::NoMemory) => Err(KeepFault::NoMemory),
    }
}
