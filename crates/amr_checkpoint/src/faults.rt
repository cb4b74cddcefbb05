//! Why calls on a store are refused.
use crate::refusal::Refusal;
use amr_causes::NoMemory;
use amr_store::StoreFault;

/// Why a call that reads or writes a store is refused.
#[derive(Clone, Copy, Debug, PartialEq, Eq, Drop)]
pub enum CheckpointFault {
    /// The disk failed in this call; its count of faults rose.
    DiskFault,
    /// Memory ran out.
    NoMemory,
}

/// Why a state of a run is not kept.
#[derive(Clone, Copy, Debug, PartialEq, Eq, Drop)]
pub enum KeepFault {
    /// The disk failed in this call; its count of faults rose.
    DiskFault,
    /// The stream of errors failed in this call; its count of faults rose. The checkpoint stands.
    WriteFault,
    /// Memory ran out.
    NoMemory,
}

/// Why a run does not go on from a store, or nothing of it is shown.
#[derive(Clone, Copy, Debug, PartialEq, Eq, Drop)]
pub enum ResumeFault {
    /// The disk failed in this call; its count of faults rose.
    DiskFault,
    /// What is stored refuses it.
    Refused(Refusal),
    /// Memory ran out.
    NoMemory,
}
