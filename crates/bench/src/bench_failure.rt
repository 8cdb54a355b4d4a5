use cluster::HostFault;
use disk::{DiskFault, NoMemory};
use paxos_block::Damaged;
use std::alloc::AllocError;
use std::io;
use thiserror::Error;
use torn_block::SequenceSpent;

/// Why a benchmark did not come to its end.
#[derive(Debug, Drop, Error)]
pub enum BenchFailure {
    #[error("the only words are `times`, `tables` and `refused`")]
    Usage,
    #[error("out of memory")]
    NoMemory,
    #[error(transparent)]
    Disk(#[from] DiskFault),
    #[error(transparent)]
    Block(#[from] SequenceSpent),
    #[error(transparent)]
    Row(#[from] Damaged),
    #[error(transparent)]
    Host(#[from] HostFault),
    #[error(transparent)]
    Stream(#[from] io::Error),
    /// An operation answered otherwise than it has to.
    #[error("an operation had the wrong outcome")]
    Wrong,
}

impl From<AllocError> for BenchFailure {
    fn from(_: AllocError) -> Self {
        BenchFailure::NoMemory
    }
}

impl From<NoMemory> for BenchFailure {
    fn from(_: NoMemory) -> Self {
        BenchFailure::NoMemory
    }
}

impl From<lock_table::NoMemory> for BenchFailure {
    fn from(_: lock_table::NoMemory) -> Self {
        BenchFailure::NoMemory
    }
}
