ghost use Rattle.std.specs.Prelude.{◌≡◌};
ghost use Rattle.epoch_images.specs.declared.fault.EpochFault.TheVariants as variant;

use attempt::Refusal;
use disk::NoMemory;
use thiserror::Error;

/// Why a task ended without what it was begun for.
#[derive(Clone, Copy, Debug, PartialEq, Eq, Error)]
pub enum EpochFault {
    /// Memory was refused where the host came to an epoch. It knows nothing then, and looks for the newest epoch in its next task.
    #[error("out of memory")]
    NoMemory,
    /// The task was refused. What was learned before is kept.
    #[error(transparent)]
    Refused(Refusal),
}

impl From<NoMemory> for EpochFault {
    ghost from_gives = { λ _ given. given ≡ variant.NoMemory };

    fn from(_: NoMemory) -> Self {
        EpochFault::NoMemory
    }
}
