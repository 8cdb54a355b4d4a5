ghost use Rattle.std.specs.Prelude.{◌≡◌};
ghost use Rattle.folders.specs.declared.fault.FolderFault.TheVariants.{NoMemory};
ghost use Rattle.in_place.specs.declared.in_place_fault.InPlaceFault.TheVariants.{Folder, Lock};

use folders::{FolderFault, LockFault};
use std::alloc::AllocError;
use thiserror::Error;

/// Why a folder was not made endless in place.
#[derive(Clone, Copy, Debug, PartialEq, Eq, Error)]
pub enum InPlaceFault {
    /// An image is missing or refused, or not one of the set, or a file or device of one could not be used.
    #[error("{0}")]
    Folder(FolderFault),
    /// Somebody works under a host's number, or it could not be locked.
    #[error("{0}")]
    Lock(LockFault),
    /// Its log has fewer slots than an epoch needs.
    #[error("fewer slots than an epoch needs")]
    TooFewSlots,
    /// Its table was carried over into another folder, and goes on there.
    #[error("renewed into another folder")]
    Renewed,
}

impl From<AllocError> for InPlaceFault {
    ghost from_gives = { λ _ fault. fault ≡ Folder NoMemory };

    fn from(_: AllocError) -> Self {
        InPlaceFault::Folder(FolderFault::NoMemory)
    }
}

impl From<FolderFault> for InPlaceFault {
    ghost from_gives = { λ of fault. fault ≡ Folder of };

    fn from(fault: FolderFault) -> Self {
        InPlaceFault::Folder(fault)
    }
}

impl From<LockFault> for InPlaceFault {
    ghost from_gives = { λ of fault. fault ≡ Lock of };

    fn from(fault: LockFault) -> Self {
        InPlaceFault::Lock(fault)
    }
}
