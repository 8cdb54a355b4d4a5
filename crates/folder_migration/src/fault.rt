ghost use Rattle.std.specs.Prelude.{◌≡◌};
ghost use Rattle.folder_migration.specs.declared.fault.MoveFault.TheVariants.{NoMemory, Folder, Lock};

use folders::{FolderFault, LockFault};
use host::Refusal;
use std::alloc::AllocError;
use thiserror::Error;

/// Why a cluster did not move.
#[derive(Clone, Copy, Debug, PartialEq, Eq, Error)]
pub enum MoveFault {
    #[error("out of memory")]
    NoMemory,
    /// The old images are not used, or new ones are there, or cannot be made.
    #[error("{0}")]
    Folder(FolderFault),
    /// The new log would have fewer slots than the old one.
    #[error("fewer slots than the old images have")]
    TooFewSlots,
    /// Somebody works as host 0 of the old cluster.
    #[error("{0}")]
    Lock(LockFault),
    /// The old log could not be recovered.
    #[error("{0}")]
    Refused(Refusal),
    /// A call on a new image failed once they were there.
    #[error("the migration failed")]
    MigrationFailed,
}

impl From<AllocError> for MoveFault {
    ghost from_gives = { λ _ fault. fault ≡ NoMemory };

    fn from(_: AllocError) -> Self {
        MoveFault::NoMemory
    }
}

impl From<disk::NoMemory> for MoveFault {
    ghost from_gives = { λ _ fault. fault ≡ NoMemory };

    fn from(_: disk::NoMemory) -> Self {
        MoveFault::NoMemory
    }
}

impl From<FolderFault> for MoveFault {
    ghost from_gives = { λ of fault. fault ≡ Folder of };

    fn from(fault: FolderFault) -> Self {
        MoveFault::Folder(fault)
    }
}

impl From<LockFault> for MoveFault {
    ghost from_gives = { λ of fault. fault ≡ Lock of };

    fn from(fault: LockFault) -> Self {
        MoveFault::Lock(fault)
    }
}
