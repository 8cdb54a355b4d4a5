ghost use Rattle.std.specs.Prelude.{◌≡◌};
ghost use Rattle.folders.specs.declared.fault.FolderFault.TheVariants.{NoMemory, Image};

use crate::set::SetFault;
use disk::ImageFault;
use std::alloc::AllocError;
use thiserror::Error;

/// Why a folder's images are not used, or not made.
#[derive(Clone, Copy, Debug, PartialEq, Eq, Error)]
pub enum FolderFault {
    #[error("out of memory")]
    NoMemory,
    /// One of the files that were to be made is there.
    #[error("an image is there already")]
    AlreadyThere,
    /// The image of this number has this fault.
    #[error("disk {disk}: {fault}")]
    Image { disk: u8, fault: ImageFault },
}

impl From<AllocError> for FolderFault {
    ghost from_gives = { λ _ fault. fault ≡ NoMemory };

    fn from(_: AllocError) -> Self {
        FolderFault::NoMemory
    }
}

impl From<SetFault> for FolderFault {
    ghost from_gives = { λ of fault. fault ≡ Image of.disk of.fault };

    fn from(fault: SetFault) -> Self {
        FolderFault::Image {
            disk: fault.disk,
            fault: fault.fault,
        }
    }
}
