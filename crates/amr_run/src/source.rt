//! What the source gives: a problem, or a batch of them.
ghost use Rattle.std.specs.Prelude.{◌≡◌, ◌≢◌, List, ℕ, Err, OnOk};
ghost use Rattle.std.specs.Io.KnownBytes.{IsAtEnd};
ghost use Rattle.amr_causes.specs.Bytes.{WereLeft};
ghost use Rattle.amr_causes.specs.Causes.{Rose};
ghost use Rattle.amr_run.specs.Sources.{Reads, ReadsBatch, ReadsStorable, TakesAtMost};
ghost use Rattle.amr_run.specs.Refusals.{batch_unread};

use crate::Status;
use amr_batch::{Span, jobs};
use amr_def::Problem;
use amr_io::{ReadAll, Source, read_all};
use amr_problem::judge;
use std::alloc::Global;

/// The most bytes that a problem has.
const MOST_BYTES: usize = 65536;

/// The most bytes that a batch has.
const MOST_BATCH_BYTES: usize = 1_048_576;

/// A problem, and the bytes that it was read from.
#[derive(Drop)]
pub(crate) struct ReadProblem {
    pub bytes: Vec<u8>,
    pub problem: Problem,
}

/// The bytes of a batch, and where its jobs stand in them.
#[derive(Drop)]
pub(crate) struct ReadBatch {
    pub bytes: Vec<u8>,
    pub jobs: Vec<Span>,
}

/// The problem that the source gives, read to its end.
pub(crate) fn read_problem<S: Source>(alloc: Global, src: &mut S) -> Result<ReadProblem, Status>
    ensures problem { (bytes : List ℕ) × WereLeft (S.left src.old) bytes × Reads result bytes }
    ensures ended { OnOk result (IsAtEnd (S.left src.new)) }
    ensures taken { TakesAtMost 65537 (S.left src.old) (S.left src.new) }
    ensures read_fault { result ≡ Err Status.ReadFault → Rose (S.faults src.old) (S.faults src.new) }
    ensures no_read_fault { result ≢ Err Status.ReadFault → S.faults src.new ≡ S.faults src.old }
{
    let bytes = read_all(alloc, src, MOST_BYTES)?;
    let problem = judge(alloc, &bytes)?;
    Ok(ReadProblem { bytes, problem })
}

/// The problem of one species that the source gives, read to its end. One of more is refused: the store doesn't keep it.
pub(crate) fn read_storable<S: Source>(alloc: Global, src: &mut S) -> Result<ReadProblem, Status>
    ensures problem { (bytes : List ℕ) × WereLeft (S.left src.old) bytes × ReadsStorable result bytes }
    ensures ended { OnOk result (IsAtEnd (S.left src.new)) }
    ensures taken { TakesAtMost 65537 (S.left src.old) (S.left src.new) }
    ensures read_fault { result ≡ Err Status.ReadFault → Rose (S.faults src.old) (S.faults src.new) }
    ensures no_read_fault { result ≢ Err Status.ReadFault → S.faults src.new ≡ S.faults src.old }
{
    match read_problem(alloc, src) {
        Ok(given) => {
            let species = given.problem.species;
            if species == 1 {
                Ok(given)
            } else {
                Err(Status::Species(species))
            }
        }
        Err(refusal) => Err(refusal),
    }
}

/// The batch that the source gives, read to its end.
pub(crate) fn read_batch<S: Source>(alloc: Global, src: &mut S) -> Result<ReadBatch, Status>
    ensures batch { (bytes : List ℕ) × WereLeft (S.left src.old) bytes × ReadsBatch result bytes }
    ensures ended { OnOk result (IsAtEnd (S.left src.new)) }
    ensures taken { TakesAtMost 1048577 (S.left src.old) (S.left src.new) }
    ensures read_fault { result ≡ Err Status.ReadFault → Rose (S.faults src.old) (S.faults src.new) }
    ensures no_read_fault { result ≢ Err Status.ReadFault → S.faults src.new ≡ S.faults src.old }
{
    let bytes = match read_all(alloc, src, MOST_BATCH_BYTES) {
        Ok(bytes) => bytes,
        Err(fault) => return Err(batch_unread(fault)),
    };
    let jobs = jobs(alloc, &bytes)?;
    Ok(ReadBatch { bytes, jobs })
}

/// The status of a batch that was not read: more bytes than it may have are malformed at the place after the longest.
fn batch_unread(fault: ReadAll) -> Status
    ensures { result ≡ batch_unread fault }
{
    match fault {
        ReadAll::TooLong => Status::BadBatch(MOST_BATCH_BYTES as u64),
        ReadAll::ReadFault => Status::ReadFault,
        ReadAll::NoMemory => Status::NoMemory,
    }
}
