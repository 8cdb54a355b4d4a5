use thiserror::Error;

/// Why an image is not used as one of a log without an end. Of several faults the first of this list is told.
#[derive(Clone, Copy, Debug, PartialEq, Eq, Error)]
pub enum HeaderFault {
    /// The gate of its header is not open.
    #[error("the image is not formatted")]
    NotFormatted,
    /// Its version is of a log that ends, or of a device of several machines.
    #[error("the header of the image has an older version")]
    OlderVersion,
    /// A later program made it.
    #[error("the header of the image has a newer version")]
    NewerVersion,
    /// It is not the disk that it is named as.
    #[error("the image is another disk")]
    WrongDisk,
    /// There is no such disk among so many, or there are too many.
    #[error("the image is of a set of a wrong number of disks")]
    WrongDisks,
    /// An epoch has too few slots to carry a table over, or more than an image may have.
    #[error("the image has a wrong number of slots")]
    WrongSlots,
    /// It takes part only from an epoch that there never is.
    #[error("the image takes part from no epoch")]
    WrongEpoch,
    /// It is being made of an image of a log that ends, and its version may not be sure.
    #[error("the image is not endless yet")]
    Unfinished,
    /// Bytes of the header that say nothing are not 0.
    #[error("the header of the image is damaged")]
    Damaged,
    /// It is not as long as its header says.
    #[error("the image has a wrong length")]
    WrongLength,
}
