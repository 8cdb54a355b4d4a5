use cluster::HostFault;
use disk::NoMemory;
use dlm_tasks::CommandFailure;
use lock_script::ScriptFault;
use std::alloc::AllocError;
use std::io;
use thiserror::Error;

/// Why a job did not come to its end.
#[derive(Debug, Drop, Error)]
pub enum Failure {
    #[error("the words are a job and a number below 2^32")]
    Usage,
    #[error("out of memory")]
    NoMemory,
    #[error(transparent)]
    Script(#[from] ScriptFault),
    #[error(transparent)]
    Host(#[from] HostFault),
    #[error(transparent)]
    Stream(#[from] io::Error),
    #[error("a script could not be run")]
    Run,
    /// An operation answered otherwise than it has to.
    #[error("an operation had the wrong outcome")]
    Wrong,
}

impl From<AllocError> for Failure {
    fn from(_: AllocError) -> Self {
        Failure::NoMemory
    }
}

impl From<NoMemory> for Failure {
    fn from(_: NoMemory) -> Self {
        Failure::NoMemory
    }
}

impl From<lock_table::NoMemory> for Failure {
    fn from(_: lock_table::NoMemory) -> Self {
        Failure::NoMemory
    }
}

impl From<CommandFailure> for Failure {
    fn from(_: CommandFailure) -> Self {
        Failure::Run
    }
}
