use thiserror::Error;

/// Why a host did not begin a task, or gave it up.
#[derive(Clone, Copy, Debug, PartialEq, Eq, Error)]
pub enum BeginFault {
    /// Another task is under way.
    #[error("another task is under way")]
    Busy,
    /// The task has no try, or its command is not the host's own, or no client may ask for it.
    #[error("the host may not be given this task")]
    NotAllowed,
    /// Memory was refused where the host came to an epoch. It knows nothing then.
    #[error("out of memory")]
    NoMemory,
}
