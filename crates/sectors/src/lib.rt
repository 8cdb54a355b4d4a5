//! Devices that several machines write: a sector for each block, its stamp, the place of each, and the header.
#![tactic(auto)]

mod fault;
mod geometry;
mod header;
mod law;
mod name;
mod number;
mod owner;
mod place;
mod row;
mod sector;
mod set;

pub use fault::DeviceFault;
pub use geometry::{Geometry, device_size, is_geometry, row_size, slot_rows};
pub use header::{
    DEVICE_HEADER_LENGTH, DEVICE_VERSION, DeviceHeader, ENDLESS_DEVICE_VERSION,
    decode_device_header, encode_device_header, is_device_header,
};
pub use law::{
    headers_come_back, images_have_rows, names_come_back, new_devices_show, places_are_apart,
    reads_show, reads_that_agree, rows_are_moments, rows_come_back, writes_of_sectors,
    writes_raise, writes_show,
};
pub use name::{MachineName, NAME_LENGTH, NAMED_LENGTH, name_in, put_name};
pub use owner::{Owner, owner_of};
pub use place::{SectorRange, beat_sector, block_at, row_at, slot_row, vote_sector};
pub use row::{agree, gather};
pub use sector::{STAMPED_LENGTH, StampSpent, put_in, stamp_in};
pub use set::{SetFault, check_set};
