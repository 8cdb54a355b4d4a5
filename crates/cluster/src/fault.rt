use attempt::Refusal;
use thiserror::Error;

/// Why a call on a cluster was refused.
#[derive(Clone, Copy, Debug, PartialEq, Eq, Error)]
pub enum HostFault {
    /// The host's operation was refused, for this reason.
    #[error(transparent)]
    Refused(Refusal),
    /// Memory was refused.
    #[error("out of memory")]
    NoMemory,
    /// A million entries are kept or promised.
    #[error("the journal is full")]
    JournalFull,
    /// The host was handed out already.
    #[error("the seat is taken")]
    SeatTaken,
    /// The seat of a host that was started is not given back.
    #[error("seats are missing")]
    SeatsMissing,
    /// A disk's book was found with a call open, or with another number.
    #[error("a call is open on the disk")]
    OpenCall,
}
