//! What a run goes on from, and what is shown of a store.
ghost use Rattle.std.specs.Prelude.{◌≡◌, ◌≤◌, ◌<◌, ℕ, List, Some, None, IfOk, IfErr, IfSome, IsErrOf};
ghost use Rattle.amr_causes.specs.Causes.{Rose};
ghost use Rattle.amr_def.specs.declared.problem.Problem.{Problem};
ghost use Rattle.amr_disk.specs.Image.{Only};
ghost use Rattle.amr_problem.specs.Judgement.{IsProblemOf};
ghost use Rattle.amr_store.specs.Phases.{OnlyReads};
ghost use Rattle.amr_checkpoint.specs.Checkpoints.{CanGoOn, IsMeshFor, IsResumedReady, IsUsable, TakesStore, content_at_mesh, content_of, content_resumed};
ghost use Rattle.amr_checkpoint.specs.Contents.{Content, Empty, Holds, IsStorable};
ghost use Rattle.amr_checkpoint.specs.Refusals.{IsOtherProblem, RefusesRun, RefusesShow};
ghost use Rattle.amr_checkpoint.specs.declared.refusal.Refusal.{Refusal};

use crate::contents::{Checkpoint, read_checkpoint};
use crate::difference::first_difference;
use crate::faults::{CheckpointFault, ResumeFault};
use crate::refusal::Refusal;
use amr_def::Problem;
use amr_disk::Disk;
use amr_patch::Mesh;
use amr_store::Store;
use std::alloc::Global;

/// What a run that keeps checkpoints goes on from.
#[derive(Drop)]
pub enum Resumed {
    /// Nothing: no store was made. The run begins at the start, and makes one.
    Nothing,
    /// A store of the run's problem with no state yet. The run begins at the start.
    Fresh(Store),
    /// A store of the run's problem, and the state in it that the run goes on from.
    At(Store, Mesh),
}

/// What is shown of a store: its problem and its latest state.
#[derive(Drop)]
pub struct Shown {
    /// The stored problem.
    pub problem: Problem,
    /// The stored state.
    pub mesh: Mesh,
}

/// The refusal of another problem.
fn other_problem(kept: &[u8], given: &[u8]) -> Option<Refusal>
    ensures some { IfSome result (IsOtherProblem kept.now given.now) }
    ensures none { result ≡ None → kept.now ≡ given.now }
{
    match first_difference(kept, given) {
        Some(place) => Some(Refusal::WrongProblem {
            kept: kept.len() as u64,
            given: given.len() as u64,
            place: place as u64,
        }),
        None => None,
    }
}

/// The refusal of a state past the target.
fn past(stored: u32, target: u32) -> Option<Refusal>
    ensures some { IfSome result (λ refusal. (target < stored) × (refusal ≡ Refusal.Ahead stored target)) }
    ensures none { result ≡ None → stored ≤ target }
{
    if target < stored {
        Some(Refusal::Ahead { stored, target })
    } else {
        None
    }
}

/// What a run goes on from, by what was read.
fn go_on(found: Checkpoint, bytes: &[u8], target: u32) -> Result<Resumed, Refusal>
    requires { IsUsable found }
    ensures store { IfOk result (TakesStore found) }
    ensures nothing { IfOk result (λ resumed. resumed ≡ Resumed.Nothing → content_of found ≡ Empty) }
    ensures problem { IfOk result (λ resumed. ¬ (resumed ≡ Resumed.Nothing) → (p : Problem) × IsStorable bytes.now p) }
    ensures holds { IfOk result (λ resumed. (p : Problem) → IsProblemOf bytes.now p → content_of found ≡ content_resumed bytes.now p resumed) }
    ensures can_go_on { IfOk result (λ resumed. (p : Problem) → IsProblemOf bytes.now p → CanGoOn bytes.now p target resumed) }
    ensures refused { IfErr result (RefusesRun bytes.now target (content_of found)) }
{
    match found {
        Checkpoint::Empty => Ok(Resumed::Nothing),
        Checkpoint::Damaged(part) => Err(Refusal::Damaged(part)),
        Checkpoint::Fresh(store, _) => match other_problem(store.problem(), bytes) {
            Some(refusal) => Err(refusal),
            None => Ok(Resumed::Fresh(store)),
        },
        Checkpoint::At(store, _, mesh) => match other_problem(store.problem(), bytes) {
            Some(refusal) => Err(refusal),
            None => match past(mesh.step(), target) {
                Some(refusal) => Err(refusal),
                None => Ok(Resumed::At(store, mesh)),
            },
        },
    }
}

/// What is shown, by what was read.
fn shown_of(found: Checkpoint) -> Result<Shown, Refusal>
    requires { IsUsable found }
    ensures holds { IfOk result (λ shown. (bytes : List ℕ) × (content_of found ≡ content_at_mesh bytes shown.problem shown.mesh)) }
    ensures mesh { IfOk result (λ shown. IsMeshFor shown.problem shown.mesh) }
    ensures refused { IfErr result (RefusesShow (content_of found)) }
{
    match found {
        Checkpoint::Empty => Err(Refusal::Empty),
        Checkpoint::Damaged(part) => Err(Refusal::Damaged(part)),
        Checkpoint::Fresh(_, _) => Err(Refusal::Empty),
        Checkpoint::At(_, problem, mesh) => Ok(Shown { problem, mesh }),
    }
}

/// What a run to a target goes on from, of the problem that these bytes are; or why what the disk holds refuses it. It goes on
/// from nothing only where the disk holds nothing, and from a store only where the bytes are a problem. Begins with a sync and only
/// reads. But where the disk failed a stop leaves what a read gives.
pub fn resume<D: Disk>(
    alloc: Global,
    bytes: &[u8],
    target: u32,
    disk: &mut D,
) -> Result<Resumed, ResumeFault>
    ensures nothing { IfOk result (λ resumed. (s : List ℕ) → resumed ≡ Resumed.Nothing → D.seen disk.old ≡ Some s → Holds s Empty) }
    ensures problem { IfOk result (λ resumed. ¬ (resumed ≡ Resumed.Nothing) → (p : Problem) × IsStorable bytes.now p) }
    ensures holds { IfOk result (λ resumed. (s : List ℕ) (p : Problem) → D.seen disk.old ≡ Some s → IsProblemOf bytes.now p
        → Holds s (content_resumed bytes.now p resumed)) }
    ensures can_go_on { IfOk result (λ resumed. (p : Problem) → IsProblemOf bytes.now p → CanGoOn bytes.now p target resumed) }
    ensures refused { (refusal : Refusal) (s : List ℕ) → IsErrOf result (ResumeFault.Refused refusal) → D.seen disk.old ≡ Some s
        → (content : Content) × Holds s content × RefusesRun bytes.now target content refusal }
    ensures ready { IfOk result (λ resumed. IsResumedReady D.seen D.moment D.leaves resumed disk.new) }
    ensures settled { ¬ (IsErrOf result ResumeFault.DiskFault) → Only (D.seen disk.new) (D.leaves disk.new (D.moment disk.new)) }
    ensures reads { OnlyReads D.seen D.moment D.leaves disk.old disk.new }
    ensures later { D.faults disk.old ≤ D.faults disk.new }
    ensures disk_fault { IsErrOf result ResumeFault.DiskFault → Rose (D.faults disk.old) (D.faults disk.new) }
    ensures no_disk_fault { ¬ (IsErrOf result ResumeFault.DiskFault) → D.faults disk.new ≡ D.faults disk.old }
{
    match read_checkpoint(alloc, disk) {
        Ok(found) => match go_on(found, bytes, target) {
            Ok(resumed) => Ok(resumed),
            Err(refusal) => Err(ResumeFault::Refused(refusal)),
        },
        Err(CheckpointFault::DiskFault) => Err(ResumeFault::DiskFault),
        Err(CheckpointFault::NoMemory) => Err(ResumeFault::NoMemory),
    }
}

/// The problem and the state that the disk holds, or why there is nothing to show. Begins with a sync and only reads. But where the disk
/// failed a stop leaves what a read gives.
pub fn show<D: Disk>(alloc: Global, disk: &mut D) -> Result<Shown, ResumeFault>
    ensures holds { IfOk result (λ shown. (s : List ℕ) → D.seen disk.old ≡ Some s
        → (bytes : List ℕ) × Holds s (content_at_mesh bytes shown.problem shown.mesh)) }
    ensures mesh { IfOk result (λ shown. IsMeshFor shown.problem shown.mesh) }
    ensures refused { (refusal : Refusal) (s : List ℕ) → IsErrOf result (ResumeFault.Refused refusal) → D.seen disk.old ≡ Some s
        → (content : Content) × Holds s content × RefusesShow content refusal }
    ensures settled { ¬ (IsErrOf result ResumeFault.DiskFault) → Only (D.seen disk.new) (D.leaves disk.new (D.moment disk.new)) }
    ensures reads { OnlyReads D.seen D.moment D.leaves disk.old disk.new }
    ensures later { D.faults disk.old ≤ D.faults disk.new }
    ensures disk_fault { IsErrOf result ResumeFault.DiskFault → Rose (D.faults disk.old) (D.faults disk.new) }
    ensures no_disk_fault { ¬ (IsErrOf result ResumeFault.DiskFault) → D.faults disk.new ≡ D.faults disk.old }
{
    match read_checkpoint(alloc, disk) {
        Ok(found) => match shown_of(found) {
            Ok(shown) => Ok(shown),
            Err(refusal) => Err(ResumeFault::Refused(refusal)),
        },
        Err(CheckpointFault::DiskFault) => Err(ResumeFault::DiskFault),
        Err(CheckpointFault::NoMemory) => Err(ResumeFault::NoMemory),
    }
}
