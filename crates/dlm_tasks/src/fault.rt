ghost use Rattle.std.specs.Prelude.{◌≡◌, ◌↔◌, ◌⊎◌};
ghost use Rattle.std.specs.IoError.{error_kind};
ghost use Rattle.dlm_tasks.specs.Faults.{of_epoch, of_script, of_refusal, of_folder, of_filling, of_finding, of_in_place, of_lock, of_move, of_new, of_renewal, of_replacing};
ghost use Rattle.dlm_tasks.specs.declared.fault.Fault.TheVariants.{NoMemory, Unreadable};

use disk::ImageFault;
use dlm_words::RefusalText;
use epoch_images::EpochFault;
use folder_migration::{FillFault, MoveFault, NewFault, RenewFault};
use folders::{Finding, FolderFault, LockFault, image_fault_name, image_fault_number};
use host::Refusal;
use in_place::{InPlaceFault, ReplaceFault};
use simulator::ScriptFault;
use std::io;
use std::io::ErrorKind;
use thiserror::Error;

/// Why the program refuses its task, with the number and the name of the refusal.
#[derive(Clone, Copy, Debug, PartialEq, Eq, Error)]
pub enum Fault {
    /// A block of an image is damaged.
    #[error("5 Damaged")]
    Damaged,
    /// An operation of a host was refused.
    #[error("{0}")]
    Operation(RefusalText),
    /// The image of this number is not used.
    #[error("{number} {name} disk{disk}", number = image_fault_number(*.fault), name = image_fault_name(*.fault))]
    Image { disk: u8, fault: ImageFault },
    #[error("21 NoMemory")]
    NoMemory,
    #[error("22 JournalFull")]
    JournalFull,
    /// The number of the script's first bad line, from 1.
    #[error("23 BadLine {0}")]
    BadLine(usize),
    /// The script cannot be read.
    #[error("26 Unreadable")]
    Unreadable,
    #[error("27 SeatTaken")]
    SeatTaken,
    #[error("28 SeatsMissing")]
    SeatsMissing,
    #[error("29 AlreadyThere")]
    AlreadyThere,
    /// The number of the first wrong run of a sweep, from 0: its answers do not fit the log that was recovered.
    #[error("31 WrongRun {0}")]
    WrongRun(usize),
    /// A log that is moved needs as many slots as it had, and one that is renewed more than its table takes. One that is made endless needs as many as an epoch.
    #[error("33 TooFewSlots")]
    TooFewSlots,
    #[error("34 MigrationFailed")]
    MigrationFailed,
    #[error("35 OpenCall")]
    OpenCall,
    /// The number of a host under which somebody else works.
    #[error("36 HostInUse host{0}")]
    HostInUse(u8),
    /// The number of a host that could not be locked.
    #[error("37 NoLock host{0}")]
    NoLock(u8),
    /// A log that is to be renewed has slots left.
    #[error("38 NotFull")]
    NotFull,
    /// The new images of a renewal would have the cluster number of the old ones.
    #[error("39 SameCluster")]
    SameCluster,
    /// A log that is to be filled knows no client.
    #[error("40 NoClient")]
    NoClient,
    /// An earlier program renewed the folder that is to be made endless.
    #[error("41 RenewedElsewhere")]
    RenewedElsewhere,
    /// The number of a client that a renewal is to leave out, and that has a lock.
    #[error("42 HasLocks client{0}")]
    HasLocks(u8),
}

impl Fault {
    /// Why a source could not be read. Only where the system refused memory it is for want of memory.
    pub fn of_reading(error: &io::Error) -> Self
        ensures memory { (result ≡ NoMemory) ↔ (error_kind error.now ≡ ErrorKind.OutOfMemory) }
        ensures unreadable { (result ≡ NoMemory) ⊎ (result ≡ Unreadable) }
    {
        match error.kind() {
            ErrorKind::OutOfMemory => Fault::NoMemory,
            _ => Fault::Unreadable,
        }
    }
}

impl From<ScriptFault> for Fault {
    ghost from_gives = { λ of fault. fault ≡ of_script of };

    fn from(fault: ScriptFault) -> Self {
        match fault {
            ScriptFault::NoMemory => Fault::NoMemory,
            ScriptFault::BadLine(number) => Fault::BadLine(number),
        }
    }
}

impl From<Refusal> for Fault {
    ghost from_gives = { λ of fault. fault ≡ of_refusal of };

    fn from(refusal: Refusal) -> Self {
        Fault::Operation(RefusalText(refusal))
    }
}

impl From<EpochFault> for Fault {
    ghost from_gives = { λ of fault. fault ≡ of_epoch of };

    fn from(fault: EpochFault) -> Self {
        match fault {
            EpochFault::NoMemory => Fault::NoMemory,
            EpochFault::Refused(refusal) => Fault::from(refusal),
        }
    }
}

impl From<FolderFault> for Fault {
    ghost from_gives = { λ of fault. fault ≡ of_folder of };

    fn from(fault: FolderFault) -> Self {
        match fault {
            FolderFault::NoMemory => Fault::NoMemory,
            FolderFault::AlreadyThere => Fault::AlreadyThere,
            FolderFault::Image { disk, fault } => Fault::Image { disk, fault },
        }
    }
}

impl From<Finding> for Fault {
    ghost from_gives = { λ of fault. fault ≡ of_finding of };

    fn from(finding: Finding) -> Self {
        match finding {
            Finding::Image { disk, fault } => Fault::Image { disk, fault },
            Finding::Damaged => Fault::Damaged,
        }
    }
}

impl From<LockFault> for Fault {
    ghost from_gives = { λ of fault. fault ≡ of_lock of };

    fn from(fault: LockFault) -> Self {
        match fault {
            LockFault::NoMemory => Fault::NoMemory,
            LockFault::InUse(host) => Fault::HostInUse(host),
            LockFault::NoLock(host) => Fault::NoLock(host),
        }
    }
}

impl From<MoveFault> for Fault {
    ghost from_gives = { λ of fault. fault ≡ of_move of };

    fn from(fault: MoveFault) -> Self {
        match fault {
            MoveFault::NoMemory => Fault::NoMemory,
            MoveFault::Folder(fault) => Fault::from(fault),
            MoveFault::TooFewSlots => Fault::TooFewSlots,
            MoveFault::Lock(fault) => Fault::from(fault),
            MoveFault::Refused(refusal) => Fault::from(refusal),
            MoveFault::MigrationFailed => Fault::MigrationFailed,
        }
    }
}

impl From<InPlaceFault> for Fault {
    ghost from_gives = { λ of fault. fault ≡ of_in_place of };

    fn from(fault: InPlaceFault) -> Self {
        match fault {
            InPlaceFault::Folder(fault) => Fault::from(fault),
            InPlaceFault::Lock(fault) => Fault::from(fault),
            InPlaceFault::TooFewSlots => Fault::TooFewSlots,
            InPlaceFault::Renewed => Fault::RenewedElsewhere,
        }
    }
}

impl From<ReplaceFault> for Fault {
    ghost from_gives = { λ of fault. fault ≡ of_replacing of };

    fn from(fault: ReplaceFault) -> Self {
        match fault {
            ReplaceFault::Folder(fault) => Fault::from(fault),
            ReplaceFault::Lock(fault) => Fault::from(fault),
            ReplaceFault::NoMajority => Fault::from(Refusal::NoMajority),
        }
    }
}

impl From<FillFault> for Fault {
    ghost from_gives = { λ of fault. fault ≡ of_filling of };

    fn from(fault: FillFault) -> Self {
        match fault {
            FillFault::NoMemory => Fault::NoMemory,
            FillFault::NoClient => Fault::NoClient,
            FillFault::Refused(refusal) => Fault::from(refusal),
        }
    }
}

impl From<NewFault> for Fault {
    ghost from_gives = { λ of fault. fault ≡ of_new of };

    fn from(fault: NewFault) -> Self {
        match fault {
            NewFault::Folder(fault) => Fault::from(fault),
            NewFault::Lock(fault) => Fault::from(fault),
        }
    }
}

impl From<RenewFault> for Fault {
    ghost from_gives = { λ of fault. fault ≡ of_renewal of };

    fn from(fault: RenewFault) -> Self {
        match fault {
            RenewFault::NoMemory => Fault::NoMemory,
            RenewFault::Old(fault) => Fault::from(fault),
            RenewFault::SameCluster => Fault::SameCluster,
            RenewFault::Lock(fault) => Fault::from(fault),
            RenewFault::Refused(refusal) => Fault::from(refusal),
            RenewFault::NotFull => Fault::NotFull,
            RenewFault::HasLocks(client) => Fault::HasLocks(client.get()),
            RenewFault::TooFewSlots => Fault::TooFewSlots,
            RenewFault::New(fault) => Fault::from(fault),
            RenewFault::RenewalFailed => Fault::MigrationFailed,
        }
    }
}

impl From<disk::NoMemory> for Fault {
    ghost from_gives = { λ _ fault. fault ≡ NoMemory };

    fn from(_: disk::NoMemory) -> Self {
        Fault::NoMemory
    }
}

impl From<lock_table::NoMemory> for Fault {
    ghost from_gives = { λ _ fault. fault ≡ NoMemory };

    fn from(_: lock_table::NoMemory) -> Self {
        Fault::NoMemory
    }
}
