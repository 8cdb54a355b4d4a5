use std::alloc::AllocError;
use thiserror::Error;

/// Why a disk did not carry out a call.
#[derive(Clone, Copy, Debug, PartialEq, Eq, Error)]
pub enum DiskFault {
    /// The disk crashed since the boot number was given. Nothing was done.
    #[error("the disk has crashed since it was attached to")]
    Reset,
    /// The device failed. A write that fails may leave any bytes in its range; every other call changes nothing.
    #[error("the device failed")]
    Failed,
    /// The disk is lost, and answers so to every call from now on.
    #[error("the disk is lost")]
    Gone,
}

/// Why an image file is not used.
#[derive(Clone, Copy, Debug, PartialEq, Eq, Error)]
pub enum ImageFault {
    /// The gate of its header is not open.
    #[error("the image is not formatted")]
    NotFormatted,
    /// Its header is not that of an image of this name and length.
    #[error("the image has a wrong header")]
    WrongHeader,
    /// The file could not be opened, read, made or written.
    #[error("the image cannot be read or written")]
    Unreadable,
    /// It is a right image of the first layout, which is used no more.
    #[error("the image has the old layout")]
    OldLayout,
}

/// Memory was refused.
#[derive(Clone, Copy, Debug, PartialEq, Eq, Error)]
#[error("out of memory")]
pub struct NoMemory;

impl From<AllocError> for NoMemory {
    fn from(_: AllocError) -> Self {
        NoMemory
    }
}
