ghost use Rattle.std.specs.Prelude.{◌≡◌};
ghost use Rattle.folder_migration.specs.declared.renew_fault.NewFault.TheVariants as new;
ghost use Rattle.folder_migration.specs.declared.renew_fault.RenewFault.TheVariants as renew;

use folders::{FolderFault, LockFault};
use host::Refusal;
use lock_command::ClientNumber;
use thiserror::Error;

/// Why the new images of a renewal are not made.
#[derive(Clone, Copy, Debug, PartialEq, Eq, Error)]
pub enum NewFault {
    /// New images are there, or cannot be made.
    #[error("{0}")]
    Folder(FolderFault),
    /// Somebody works as host 0 of the new cluster, as another renewal does.
    #[error("{0}")]
    Lock(LockFault),
}

impl From<FolderFault> for NewFault {
    ghost from_gives = { λ of fault. fault ≡ new.Folder of };

    fn from(fault: FolderFault) -> Self {
        NewFault::Folder(fault)
    }
}

impl From<LockFault> for NewFault {
    ghost from_gives = { λ of fault. fault ≡ new.Lock of };

    fn from(fault: LockFault) -> Self {
        NewFault::Lock(fault)
    }
}

/// Why a cluster was not renewed.
#[derive(Clone, Copy, Debug, PartialEq, Eq, Error)]
pub enum RenewFault {
    #[error("out of memory")]
    NoMemory,
    /// The old images are not used.
    #[error("{0}")]
    Old(FolderFault),
    /// The old images and the new ones must never be taken for one set.
    #[error("the old images have this cluster number")]
    SameCluster,
    /// Somebody works under the host's number in the old folder.
    #[error("{0}")]
    Lock(LockFault),
    /// The old log could not be recovered.
    #[error("{0}")]
    Refused(Refusal),
    /// The old log has slots left, so its table may still change.
    #[error("the log is not full")]
    NotFull,
    /// A client that is to be left out has a lock, or waits for one.
    #[error("a client that is to be left out has locks")]
    HasLocks(ClientNumber),
    /// The new log would have no slot left behind what is carried over.
    #[error("as few slots as commands that carry the table over")]
    TooFewSlots,
    /// The new images are not made.
    #[error("{0}")]
    New(NewFault),
    /// A call on a new image failed once they were there.
    #[error("the renewal failed")]
    RenewalFailed,
}

impl From<FolderFault> for RenewFault {
    ghost from_gives = { λ of fault. fault ≡ renew.Old of };

    fn from(fault: FolderFault) -> Self {
        RenewFault::Old(fault)
    }
}

impl From<LockFault> for RenewFault {
    ghost from_gives = { λ of fault. fault ≡ renew.Lock of };

    fn from(fault: LockFault) -> Self {
        RenewFault::Lock(fault)
    }
}

impl From<Refusal> for RenewFault {
    ghost from_gives = { λ of fault. fault ≡ renew.Refused of };

    fn from(refusal: Refusal) -> Self {
        RenewFault::Refused(refusal)
    }
}

impl From<NewFault> for RenewFault {
    ghost from_gives = { λ of fault. fault ≡ renew.New of };

    fn from(fault: NewFault) -> Self {
        RenewFault::New(fault)
    }
}

impl From<disk::NoMemory> for RenewFault {
    ghost from_gives = { λ _ fault. fault ≡ renew.NoMemory };

    fn from(_: disk::NoMemory) -> Self {
        RenewFault::NoMemory
    }
}
