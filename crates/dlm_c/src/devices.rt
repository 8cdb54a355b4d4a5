//! Devices that several machines use at once, as C is given them: their headers, the places of their sectors, and what those have.
ghost use Rattle.std.specs.Prelude.{◌≡◌, ◌+◌, ◌≤◌, ◌↔◌, IsTrue, length};
ghost use Rattle.torn_block.specs.declared.layout.TheConstants.{BLOCK_LENGTH};
ghost use Rattle.sectors.specs.Headers.{IsDeviceHeader};
ghost use Rattle.dlm_c.specs.Devices.{geometry_of, header_of, image_of, FindsBlock, FindsDevice, FindsRow, GivesRow, LaysOutDevice, PutsIn};

use crate::device::{Device, FirstBytes, Sectors};
use c_host::{BAD_ARGUMENT, DIFFERENT, HeaderBytes, Row, STAMP_SPENT};
use endless_image::{EndlessHeader, Kind, encode_endless_header, image_size};
use paxos_block::{Header, encode_header, image_length};
use sectors::{
    DeviceHeader, STAMPED_LENGTH, agree, block_at, decode_device_header, device_size,
    encode_device_header, gather, is_device_header, put_in, row_at, row_size,
};
use torn_block::{BLOCK_LENGTH, ClusterLayout};

/// Tells the first bytes of a device that is to be made, and how long it is.
#[unsafe(no_mangle)]
pub extern "C" fn dlm_c_device_header(
    device: &Device,
    disks: u32,
    cluster: u64,
    disk: u32,
    into: &mut FirstBytes,
    size: &mut u64,
) -> i32
    ensures { LaysOutDevice (header_of device.now disks cluster disk) into.old into.new size.old size.new result }
{
    let (Ok(disks), Ok(disk), Some(geometry)) = (
        u8::try_from(disks),
        u8::try_from(disk),
        device.geometry(),
    ) else {
        return BAD_ARGUMENT;
    };
    let header = DeviceHeader {
        disk,
        disks,
        cluster,
        geometry,
        dsync: device.dsync == 1,
    };
    if !is_device_header(&header) {
        return BAD_ARGUMENT;
    }
    into.bytes = encode_device_header(&header);
    *size = device_size(&geometry);
    0
}

/// Tells the shape of a device of this length with these first bytes, and the image that it shows, if it is right as that of this disk.
#[unsafe(no_mangle)]
pub extern "C" fn dlm_c_device(
    disk: u32,
    size: u64,
    first: &FirstBytes,
    device: &mut Device,
    image: &mut HeaderBytes,
) -> i32
    ensures { FindsDevice disk size first.now.bytes device.old device.new image.old image.new result }
{
    let Ok(disk) = u8::try_from(disk) else {
        return BAD_ARGUMENT;
    };
    let Ok(header) = decode_device_header(disk, size, &first.bytes) else {
        return BAD_ARGUMENT;
    };
    *device = Device::of(&header);
    *image = image_of(&header);
    0
}

// The image that a device with this header shows.
fn image_of(header: &DeviceHeader) -> HeaderBytes
    requires { IsDeviceHeader header.now }
    ensures { result ≡ image_of header.now }
{
    let slots = header.geometry.slots;
    let cluster = header.cluster;
    match header.geometry.kind {
        Kind::Ending => HeaderBytes {
            size: image_length::<ClusterLayout>(slots),
            bytes: encode_header::<ClusterLayout>(&Header {
                disk: header.disk,
                disks: header.disks,
                slots,
                cluster,
            }),
        },
        Kind::Endless => HeaderBytes {
            size: image_size(slots),
            bytes: encode_endless_header(&EndlessHeader {
                disk: header.disk,
                disks: header.disks,
                slots,
                cluster,
                first_epoch: 0,
            }),
        },
    }
}

/// Tells where the sectors of a row are, by the place that the row has in an image.
#[unsafe(no_mangle)]
pub extern "C" fn dlm_c_device_row(device: &Device, at: u64, into: &mut Sectors) -> i32
    ensures { FindsRow (geometry_of device.now) at into.old into.new result }
{
    let Some(geometry) = device.geometry() else {
        return BAD_ARGUMENT;
    };
    let Some(place) = row_at(&geometry, at) else {
        return BAD_ARGUMENT;
    };
    *into = Sectors {
        place,
        length: row_size(&geometry),
        offset: 0,
    };
    0
}

/// Tells which sector has so many bytes of a block, by the place that they have in an image.
#[unsafe(no_mangle)]
pub extern "C" fn dlm_c_device_block(
    device: &Device,
    at: u64,
    long: usize,
    into: &mut Sectors,
) -> i32
    ensures { FindsBlock (geometry_of device.now) at long into.old into.new result }
{
    let Some(geometry) = device.geometry() else {
        return BAD_ARGUMENT;
    };
    let Some(range) = block_at(&geometry, at, long) else {
        return BAD_ARGUMENT;
    };
    *into = Sectors {
        place: range.place,
        length: u64::from(geometry.sector_size),
        offset: range.offset as u64,
    };
    0
}

/// Gives the row whose sectors were read twice, if both reads saw the same.
#[unsafe(no_mangle)]
pub extern "C" fn dlm_c_device_agreed(
    device: &Device,
    one: &[u8],
    other: &[u8],
    row: &mut Row,
) -> i32
    ensures { GivesRow (geometry_of device.now) one.now other.now row.old.bytes row.new.bytes result }
{
    let Some(geometry) = device.geometry() else {
        return BAD_ARGUMENT;
    };
    let long = row_size(&geometry);
    if one.len() as u64 != long || other.len() as u64 != long {
        return BAD_ARGUMENT;
    }
    if !agree(&geometry, one, other) {
        return DIFFERENT;
    }
    gather(&geometry, one, &mut row.bytes);
    0
}

/// Puts bytes into the block of a sector, with the next stamp.
#[unsafe(no_mangle)]
pub extern "C" fn dlm_c_device_put(sector: &mut [u8], offset: u64, from: &[u8]) -> i32
    ensures { PutsIn offset from.now sector.old sector.new result }
{
    if sector.len() < STAMPED_LENGTH || !has_room(offset, from) {
        return BAD_ARGUMENT;
    }
    match put_in(sector, offset as usize, from) {
        Ok(()) => 0,
        Err(_) => STAMP_SPENT,
    }
}

fn has_room(offset: u64, from: &[u8]) -> bool
    ensures { IsTrue result ↔ (offset + length from.now ≤ BLOCK_LENGTH) }
{
    offset <= BLOCK_LENGTH as u64 && from.len() <= BLOCK_LENGTH - offset as usize
}
