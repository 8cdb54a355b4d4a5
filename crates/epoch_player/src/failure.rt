ghost use Rattle.std.specs.Prelude.{◌≡◌};
ghost use Rattle.epoch_player.specs.declared.failure.PlayFailure.TheVariants.{NoMemory, Output};

use std::io;
use thiserror::Error;

/// Why a script was not run to its end.
#[derive(Debug, Drop, Error)]
pub enum PlayFailure {
    #[error("out of memory")]
    NoMemory,
    #[error("output failed")]
    Output(io::Error),
}

impl From<io::Error> for PlayFailure {
    ghost from_gives = { λ of failure. failure ≡ Output of };

    fn from(error: io::Error) -> Self {
        PlayFailure::Output(error)
    }
}

impl From<disk::NoMemory> for PlayFailure {
    ghost from_gives = { λ _ failure. failure ≡ NoMemory };

    fn from(_: disk::NoMemory) -> Self {
        PlayFailure::NoMemory
    }
}

impl From<lock_table::NoMemory> for PlayFailure {
    ghost from_gives = { λ _ failure. failure ≡ NoMemory };

    fn from(_: lock_table::NoMemory) -> Self {
        PlayFailure::NoMemory
    }
}
