ghost use Rattle.std.specs.Prelude.{◌≡◌, ◌==◌, ◌↔◌, IsTrue, IfOk, IfNone, Ok, Err, Some, length};
ghost use Rattle.std.specs.List.{list_all};
ghost use Rattle.paxos_block.specs.Saying.{flag_of};
ghost use Rattle.sectors.specs.Headers.{IsNamed, IsDeviceHeader, IsRight, IsFirst, IsVersion, header_saying, header_in, kind_by, version_by};
ghost use Rattle.sectors.specs.declared.fault.DeviceFault.{DeviceFault};

use crate::fault::DeviceFault;
use crate::geometry::{
    Geometry, device_size, is_geometry, is_host_count, is_sector_size, is_slot_count,
};
use crate::number::{NUMBER_LENGTH, SHORT_LENGTH, number_in, put_short, put_zeros, short_in};
use endless_image::Kind;
use torn_block::{DISKS, OPEN_GATE, put_number};

/// The bytes of the header: as many as the longest sector has.
pub const DEVICE_HEADER_LENGTH: usize = 4096;

/// The version of such a device, where an image has the number of its layout.
pub const DEVICE_VERSION: u8 = 3;

/// The version of one whose log has no end.
pub const ENDLESS_DEVICE_VERSION: u8 = 5;

// Where the fields are, and the zeros after them.
const GATE_AT: usize = 0;

const VERSION_AT: usize = 1;

const DISK_AT: usize = 2;

const DISKS_AT: usize = 3;

const SLOTS_AT: usize = 4;

const CLUSTER_AT: usize = SLOTS_AT + SHORT_LENGTH;

const SECTOR_SIZE_AT: usize = CLUSTER_AT + NUMBER_LENGTH;

const PARTS_AT: usize = SECTOR_SIZE_AT + SHORT_LENGTH;

const HOSTS_AT: usize = PARTS_AT + 1;

const WRITES_AT: usize = HOSTS_AT + 1;

const REST_AT: usize = WRITES_AT + 1;

// A block is never cut: the whole of it is in one sector.
const PARTS: u8 = 1;

/// What a device says of itself.
#[derive(Clone, Copy, Debug, PartialEq, Eq)]
pub struct DeviceHeader {
    /// The number of this disk among those of its set, from 0.
    pub disk: u8,
    /// How many disks the set has, 1 to 7.
    pub disks: u8,
    /// Any number; all disks of a set have the same.
    pub cluster: u64,
    pub geometry: Geometry,
    /// Whether each write is made with O_DSYNC.
    pub dsync: bool,
}

/// Whether a device may have this header. Any cluster number will do.
pub fn is_device_header(header: &DeviceHeader) -> bool
    ensures { IsTrue result ↔ IsDeviceHeader header.now }
{
    is_named(header.disk, header) && is_geometry(&header.geometry)
}

// The disk is the one with this number among as many as the header says.
fn is_named(disk: u8, header: &DeviceHeader) -> bool
    ensures { IsTrue result ↔ IsNamed disk header.now }
{
    header.disk == disk && header.disk < header.disks && header.disks <= DISKS
}

/// The header of a device, by the disk that it is named as, its length in bytes, and its first bytes. Hand in zeros for those that a
/// shorter device does not have.
pub fn decode_device_header(
    disk: u8,
    long: u64,
    bytes: &[u8; DEVICE_HEADER_LENGTH],
) -> Result<DeviceHeader, DeviceFault>
    // What is read is right, and what is right is read.
    ensures right { IfOk result (IsRight disk long bytes.now) }
    ensures only { (header : DeviceHeader) → IsRight disk long bytes.now header → result ≡ Ok header }
    // Each refusal has its cause, and is told where no refusal before it has one.
    ensures told { (fault : DeviceFault) → (result ≡ Err fault) ↔ IsFirst disk long bytes.now fault }
{
    let header = header_in(bytes);
    match first_fault(disk, long, bytes, &header) {
        Some(fault) => Err(fault),
        None => Ok(header),
    }
}

// What is wrong with a device, by its first bytes and what their fields say.
fn first_fault(
    disk: u8,
    long: u64,
    bytes: &[u8; DEVICE_HEADER_LENGTH],
    header: &DeviceHeader,
) -> Option<DeviceFault>
    requires { header.now ≡ header_in bytes.now }
    ensures told { (fault : DeviceFault) → (result ≡ Some fault) ↔ IsFirst disk long bytes.now fault }
    ensures none { IfNone result (IsRight disk long bytes.now (header_in bytes.now)) }
{
    if bytes[GATE_AT] != OPEN_GATE {
        return Some(DeviceFault::NotFormatted);
    }
    if !is_version(bytes[VERSION_AT]) {
        return Some(DeviceFault::WrongVersion);
    }
    if !is_named(disk, header) {
        return Some(DeviceFault::WrongDisk);
    }
    if !is_slot_count(header.geometry.kind, header.geometry.slots) {
        return Some(DeviceFault::WrongSlots);
    }
    if !is_sector_size(header.geometry.sector_size) {
        return Some(DeviceFault::WrongSectorSize);
    }
    if bytes[PARTS_AT] != PARTS {
        return Some(DeviceFault::WrongParts);
    }
    if !is_host_count(header.geometry.hosts) {
        return Some(DeviceFault::WrongHosts);
    }
    if bytes[WRITES_AT] > 1 {
        return Some(DeviceFault::WrongWrites);
    }
    if !are_zeros(&bytes[REST_AT..]) {
        return Some(DeviceFault::WrongRest);
    }
    if long < device_size(&header.geometry) {
        return Some(DeviceFault::TooShort);
    }
    None
}

fn are_zeros(bytes: &[u8]) -> bool
    ensures { result ≡ list_all (λ b. b == 0) bytes.now }
{
    bytes.iter().all(|&b| b == 0)
}

fn header_in(bytes: &[u8]) -> DeviceHeader
    requires { length bytes.now ≡ DEVICE_HEADER_LENGTH }
    ensures { result ≡ header_in bytes.now }
{
    DeviceHeader {
        disk: bytes[DISK_AT],
        disks: bytes[DISKS_AT],
        cluster: number_in(&bytes[CLUSTER_AT..]),
        geometry: Geometry {
            sector_size: short_in(&bytes[SECTOR_SIZE_AT..]),
            hosts: bytes[HOSTS_AT],
            kind: kind_by(bytes[VERSION_AT]),
            slots: short_in(&bytes[SLOTS_AT..]),
        },
        dsync: bytes[WRITES_AT] == 1,
    }
}

/// The first bytes of a device with this header, which needs `device_size(&header.geometry)` bytes.
pub fn encode_device_header(header: &DeviceHeader) -> [u8; DEVICE_HEADER_LENGTH]
    requires { IsDeviceHeader header.now }
    ensures { result ≡ header_saying header.now }
{
    let mut bytes = [0; DEVICE_HEADER_LENGTH];
    put_header(&mut bytes, header);
    bytes
}

fn put_header(bytes: &mut [u8], header: &DeviceHeader)
    requires { length bytes.old ≡ DEVICE_HEADER_LENGTH }
    ensures { bytes.new ≡ header_saying header.now }
{
    let (front, back) = bytes.split_at_mut(SLOTS_AT);
    let (slots, rest) = back.split_at_mut(SHORT_LENGTH);
    let (cluster, end) = rest.split_at_mut(NUMBER_LENGTH);
    let (sector_size, end) = end.split_at_mut(SHORT_LENGTH);
    let (kinds, zeros) = end.split_at_mut(REST_AT - PARTS_AT);
    let version = version_by(header.geometry.kind);
    front.copy_from_slice(&[OPEN_GATE, version, header.disk, header.disks]);
    put_short(slots, header.geometry.slots);
    put_number(cluster, header.cluster);
    put_short(sector_size, header.geometry.sector_size);
    kinds.copy_from_slice(&[PARTS, header.geometry.hosts, flag(header.dsync)]);
    put_zeros(zeros);
}

fn is_version(version: u8) -> bool
    ensures { IsTrue result ↔ IsVersion version }
{
    version == DEVICE_VERSION || version == ENDLESS_DEVICE_VERSION
}

// What the version says, right or not.
fn kind_by(version: u8) -> Kind
    ensures { result ≡ kind_by version }
{
    if version == ENDLESS_DEVICE_VERSION {
        Kind::Endless
    } else {
        Kind::Ending
    }
}

fn version_by(kind: Kind) -> u8
    ensures { result ≡ version_by kind }
{
    match kind {
        Kind::Ending => DEVICE_VERSION,
        Kind::Endless => ENDLESS_DEVICE_VERSION,
    }
}

fn flag(set: bool) -> u8
    ensures { result ≡ flag_of set }
{
    if set { 1 } else { 0 }
}
