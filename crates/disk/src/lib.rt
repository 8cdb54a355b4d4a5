//! Disks that hosts share: the calls of a device, and a simulated disk that can fail, tear, crash and be lost.
#![tactic(auto)]

mod boot;
mod bytes;
mod device;
mod fault;
mod file;
mod image;
mod law;
mod marks;
mod pages;
mod simulated;
mod word;

pub use boot::Boot;
pub use device::Disk;
pub use fault::{DiskFault, ImageFault, NoMemory};
pub use file::{FileDisk, READ_LENGTH};
pub use law::{calls_keep_the_shape, larger_disks_serve};
pub use simulated::SimDisk;
