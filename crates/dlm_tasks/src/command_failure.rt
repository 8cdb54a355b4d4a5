ghost use Rattle.std.specs.Prelude.{◌≡◌};
ghost use Rattle.dlm_tasks.specs.declared.command_failure.CommandFailure.TheVariants.{Output, Refused};
ghost use Rattle.dlm_tasks.specs.Faults.{of_epoch, of_filling, of_play, of_refusal};

use crate::fault::Fault;
use epoch_images::EpochFault;
use epoch_player::PlayFailure;
use folder_migration::FillFault;
use host::Refusal;
use std::io;
use thiserror::Error;

/// How a task ends that does not end well.
#[derive(Debug, Drop, Error)]
pub enum CommandFailure {
    #[error(transparent)]
    Refused(Fault),
    #[error("output failed")]
    Output(io::Error),
}

impl From<Fault> for CommandFailure {
    ghost from_gives = { λ of failure. failure ≡ Refused of };

    fn from(fault: Fault) -> Self {
        CommandFailure::Refused(fault)
    }
}

impl From<Refusal> for CommandFailure {
    ghost from_gives = { λ of failure. failure ≡ Refused (of_refusal of) };

    fn from(refusal: Refusal) -> Self {
        CommandFailure::Refused(Fault::from(refusal))
    }
}

impl From<EpochFault> for CommandFailure {
    ghost from_gives = { λ of failure. failure ≡ Refused (of_epoch of) };

    fn from(fault: EpochFault) -> Self {
        CommandFailure::Refused(Fault::from(fault))
    }
}

impl From<FillFault> for CommandFailure {
    ghost from_gives = { λ of failure. failure ≡ Refused (of_filling of) };

    fn from(fault: FillFault) -> Self {
        CommandFailure::Refused(Fault::from(fault))
    }
}

impl From<io::Error> for CommandFailure {
    ghost from_gives = { λ of failure. failure ≡ Output of };

    fn from(error: io::Error) -> Self {
        CommandFailure::Output(error)
    }
}

impl From<PlayFailure> for CommandFailure {
    ghost from_gives = { λ of failure. failure ≡ of_play of };

    fn from(failure: PlayFailure) -> Self {
        match failure {
            PlayFailure::NoMemory => CommandFailure::Refused(Fault::NoMemory),
            PlayFailure::Output(error) => CommandFailure::Output(error),
        }
    }
}
