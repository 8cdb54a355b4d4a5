use thiserror::Error;

/// Why a device is not used. Of several faults the first of this list is told.
#[derive(Clone, Copy, Debug, PartialEq, Eq, Error)]
pub enum DeviceFault {
    /// The gate of its header is not open.
    #[error("the device is not formatted")]
    NotFormatted,
    /// Its header is neither of version 3 nor of version 5.
    #[error("the header of the device has another version")]
    WrongVersion,
    /// It is not the disk that it is named as, or there is no such disk among so many.
    #[error("the device is another disk")]
    WrongDisk,
    /// It has more or fewer slots than a log of its kind may have.
    #[error("the device has a wrong number of slots")]
    WrongSlots,
    /// Its sectors have none of the lengths that sectors may have.
    #[error("the device has a wrong sector size")]
    WrongSectorSize,
    /// A block does not lie in one sector.
    #[error("the blocks of the device are cut into parts")]
    WrongParts,
    /// It is for no host, or for more than there may be.
    #[error("the device has a wrong number of hosts")]
    WrongHosts,
    /// What says how writes are made is neither 0 nor 1.
    #[error("the device says in no known way how it is written")]
    WrongWrites,
    /// Bytes of the header that say nothing are not 0.
    #[error("the header of the device has bytes that nobody wrote")]
    WrongRest,
    /// The device is shorter than what its header says.
    #[error("the device is too short")]
    TooShort,
}
