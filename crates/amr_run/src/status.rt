//! How a call ended.
ghost use Rattle.std.specs.Prelude.{◌≡◌};
ghost use Rattle.amr_run.specs.Texts.{exit_status};

use crate::views::ViewPart;
use amr_batch::JobsFault;
use amr_causes::NoMemory;
use amr_checkpoint::{KeepFault, Refusal, ResumeFault};
use amr_io::{ReadAll, WriteFault};
use amr_problem::{JudgeFault, ProblemFault};

/// How a call of [`amr`](crate::amr) ended, in the order in which the causes are looked for.
#[derive(Debug, Drop)]
pub enum Status {
    /// The answer went out.
    Done,
    /// The words are no command.
    Usage,
    /// The source failed.
    ReadFault,
    /// The bytes of the source are no problem.
    Problem(ProblemFault),
    /// The bytes of the source are no batch: the offset at which the first job begins that isn't whole and of the form, or is one
    /// too many; 1,048,576 where there are more bytes than that.
    BadBatch(u64),
    /// The problem has so many species, and the store keeps one.
    Species(u32),
    /// The problem has no such view: this part of it is outside.
    BadView(ViewPart),
    /// The disk failed.
    DiskFault,
    /// What is stored refuses the command.
    Store(Refusal),
    /// The sink of the answer failed, or the stream of errors where it was to acknowledge a checkpoint.
    WriteFault,
    /// Memory ran out.
    NoMemory,
}

impl Status {
    /// The exit status of the program.
    pub fn code(&self) -> u8
        ensures { result ≡ exit_status self.now }
    {
        match self {
            Status::Done => 0,
            Status::Usage => 2,
            Status::Problem(_) => 3,
            Status::ReadFault => 4,
            Status::WriteFault => 5,
            Status::DiskFault => 6,
            Status::Store(_) => 7,
            Status::BadBatch(_) => 8,
            Status::Species(_) => 7,
            Status::NoMemory => 9,
            Status::BadView(_) => 10,
        }
    }
}

impl From<ReadAll> for Status {
    ghost use Rattle.amr_run.specs.Refusals.{problem_unread};

    ghost from_gives = { λ e status. status ≡ problem_unread e };

    fn from(fault: ReadAll) -> Self {
        match fault {
            ReadAll::TooLong => Status::Problem(ProblemFault::TooLong),
            ReadAll::ReadFault => Status::ReadFault,
            ReadAll::NoMemory => Status::NoMemory,
        }
    }
}

impl From<JudgeFault> for Status {
    ghost use Rattle.amr_run.specs.Refusals.{judge_refused};

    ghost from_gives = { λ e status. status ≡ judge_refused e };

    fn from(fault: JudgeFault) -> Self {
        match fault {
            JudgeFault::Fault(fault) => Status::Problem(fault),
            JudgeFault::NoMemory => Status::NoMemory,
        }
    }
}

impl From<JobsFault> for Status {
    ghost use Rattle.amr_run.specs.Refusals.{jobs_refused};

    ghost from_gives = { λ e status. status ≡ jobs_refused e };

    fn from(fault: JobsFault) -> Self {
        match fault {
            JobsFault::BadBatch(place) => Status::BadBatch(place),
            JobsFault::NoMemory => Status::NoMemory,
        }
    }
}

impl From<NoMemory> for Status {
    ghost use Rattle.amr_run.specs.declared.status.Status.TheVariants.{NoMemory as no_memory};

    ghost from_gives = { λ e status. status ≡ no_memory };

    fn from(_: NoMemory) -> Self {
        Status::NoMemory
    }
}

impl From<WriteFault> for Status {
    ghost use Rattle.amr_run.specs.declared.status.Status.TheVariants.{WriteFault as write_fault};

    ghost from_gives = { λ e status. status ≡ write_fault };

    fn from(_: WriteFault) -> Self {
        Status::WriteFault
    }
}

impl From<KeepFault> for Status {
    ghost use Rattle.amr_run.specs.Refusals.{keep_refused};

    ghost from_gives = { λ e status. status ≡ keep_refused e };

    fn from(fault: KeepFault) -> Self {
        match fault {
            KeepFault::DiskFault => Status::DiskFault,
            KeepFault::WriteFault => Status::WriteFault,
            KeepFault::NoMemory => Status::NoMemory,
        }
    }
}

impl From<ResumeFault> for Status {
    ghost use Rattle.amr_run.specs.Refusals.{resume_refused};

    ghost from_gives = { λ e status. status ≡ resume_refused e };

    fn from(fault: ResumeFault) -> Self {
        match fault {
            ResumeFault::DiskFault => Status::DiskFault,
            ResumeFault::Refused(refusal) => Status::Store(refusal),
            ResumeFault::NoMemory => Status::NoMemory,
        }
    }
}
