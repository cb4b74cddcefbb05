//! A batch, read.

ghost use Rattle.std.specs.Prelude.{◌≡◌, ◌≢◌, ℕ, ◌+◌, ◌<◌, ◌≤◌, length, map, slice_index, IfOk, IfSome, IfNone};
ghost use Rattle.std.specs.List.{All};
ghost use Rattle.amr_batch.specs.Batch.{BeginsWith, HasNoJob, IsBatch, IsMalformedAt, IsSpanOf, bytes_in};

use crate::numeral::numeral;
use std::alloc::{AllocFailed, Global};

/// The greatest length of a batch, in bytes.
const MOST_BYTES: usize = 1_048_576;

/// How many jobs a batch has at most.
const MOST_JOBS: usize = 256;

/// What a job's line begins with.
const MARK: &[u8; 4] = b"job ";

/// Where a job's bytes stand in a batch: from which offset on, and how many.
#[derive(Clone, Copy, Debug, PartialEq, Eq)]
pub struct Span {
    pub from: u32,
    pub len: u32,
}

/// Why bytes have no jobs.
#[derive(Clone, Copy, Debug, PartialEq, Eq, Drop)]
pub enum JobsFault {
    /// They are no batch: the offset at which the first job begins that isn't whole and of the form, or is the 257th; 1,048,576
    /// where there are more bytes than that.
    BadBatch(u64),
    /// Memory ran out.
    NoMemory,
}

impl<T: Drop> From<AllocFailed<T>> for JobsFault {
    ghost use Rattle.amr_batch.specs.declared.spans.JobsFault.TheVariants.{NoMemory};

    ghost from_gives = { λ _ e. e ≡ NoMemory };

    fn from(_: AllocFailed<T>) -> Self {
        JobsFault::NoMemory
    }
}

/// The place of the first newline.
fn newline_at(bytes: &[u8]) -> Option<usize>
    ensures inside { IfSome result (λ i. i < length bytes.now) }
    ensures before { IfSome result (λ i. (k : ℕ) → k < i → slice_index bytes.now k ≢ 10) }
    ensures here { IfSome result (λ i. slice_index bytes.now i ≡ 10) }
    ensures none { IfNone result ((k : ℕ) → k < length bytes.now → slice_index bytes.now k ≢ 10) }
{
    for (i, b) in bytes.iter().enumerate() {
        if *b == b'\n' {
            return Some(i);
        }
    }
    None
}

/// The job that these bytes begin with.
fn first_job(bytes: &[u8]) -> Option<Span>
    requires { length bytes.now ≤ 1048576 }
    ensures found { IfSome result (λ s. BeginsWith bytes.now s.from s.len) }
    ensures none { IfNone result (HasNoJob bytes.now) }
{
    let Some(line) = bytes.strip_prefix(MARK) else {
        return None;
    };
    let Some(end) = newline_at(line) else {
        return None;
    };
    let Some(len) = numeral(&line[..end]) else {
        return None;
    };
    let from = MARK.len() + end + 1;
    if bytes.len() - from < len as usize {
        return None;
    }
    Some(Span {
        from: from as u32,
        len,
    })
}

/// The jobs of a batch, in order: where the bytes of each stand. A batch is at most 256 jobs and 1,048,576 bytes; a job is a
/// line `job LEN` and then LEN bytes, at most 65,536, LEN without leading zeros. `BadBatch` comes exactly where the bytes are
/// no batch.
pub fn jobs(alloc: Global, bytes: &[u8]) -> Result<Vec<Span>, JobsFault>
    ensures batch { IfOk result (λ spans. IsBatch bytes.now (map (bytes_in bytes.now) spans.items)) }
    ensures inside { IfOk result (λ spans. All (IsSpanOf bytes.now) spans.items) }
    ensures malformed { (place : ℕ) → result ≡ Err (JobsFault.BadBatch place) → IsMalformedAt bytes.now place }
{
    if bytes.len() > MOST_BYTES {
        return Err(JobsFault::BadBatch(MOST_BYTES as u64));
    }
    let mut spans = Vec::new(alloc);
    let mut at = 0;
    while at < bytes.len() {
        if spans.len() == MOST_JOBS {
            return Err(JobsFault::BadBatch(at as u64));
        }
        let Some(job) = first_job(&bytes[at..]) else {
            return Err(JobsFault::BadBatch(at as u64));
        };
        let span = Span {
            from: at as u32 + job.from,
            len: job.len,
        };
        spans.push(span)?;
        at += job.from as usize + job.len as usize;
    }
    Ok(spans)
}
