ghost use Rattle.std.specs.Prelude.{◌≡◌, ◌≤◌, ◌↔◌, ◌+◌, ◌*◌, IsTrue};
ghost use Rattle.torn_block.specs.declared.layout.TheConstants.{SLOTS};
ghost use Rattle.endless_image.specs.Kinds.{IsSlotsBy};
ghost use Rattle.sectors.specs.Geometry as shapes;
ghost use Rattle.sectors.specs.Geometry.{IsGeometry, IsSectorSize, IsHostCount, rows_by};

use crate::header::DEVICE_HEADER_LENGTH;
use endless_image::{Kind, LEAST_SLOTS};
use torn_block::{HOSTS, SLOTS};

/// The shape of a device: a header, and then rows of sectors, a sector for each host. The first row has the heartbeat blocks. The
/// others follow as they do in the image: of a log that ends one for each slot.
#[derive(Clone, Copy, Debug, PartialEq, Eq)]
pub struct Geometry {
    /// The bytes of a sector: 512, 1024, 2048 or 4096, and no fewer than the device writes at once.
    pub sector_size: u32,
    /// How many host numbers there are, 1 to 16.
    pub hosts: u8,
    /// Whether the log ends.
    pub kind: Kind,
    /// How many slots there are, 1 to 4096. Of a log without an end: how many an epoch has, 320 to 4096.
    pub slots: u32,
}

/// Whether a device may have this shape.
pub fn is_geometry(geometry: &Geometry) -> bool
    ensures { IsTrue result ↔ IsGeometry geometry.now }
{
    is_sector_size(geometry.sector_size)
        && is_host_count(geometry.hosts)
        && is_slot_count(geometry.kind, geometry.slots)
}

pub(crate) fn is_sector_size(size: u32) -> bool
    ensures { IsTrue result ↔ IsSectorSize size }
{
    size == 512 || size == 1024 || size == 2048 || size == 4096
}

pub(crate) fn is_host_count(hosts: u8) -> bool
    ensures { IsTrue result ↔ IsHostCount hosts }
{
    1 <= hosts && usize::from(hosts) <= HOSTS
}

pub(crate) fn is_slot_count(kind: Kind, slots: u32) -> bool
    ensures { IsTrue result ↔ IsSlotsBy kind slots }
{
    match kind {
        Kind::Ending => 1 <= slots && slots <= SLOTS,
        Kind::Endless => LEAST_SLOTS <= slots && slots <= SLOTS,
    }
}

/// The rows that follow the first: of a log that ends one for each slot. One without an end has two areas, and two rows of standings.
pub fn slot_rows(geometry: &Geometry) -> u32
    requires { IsGeometry geometry.now }
    ensures rows { result ≡ shapes.slot_rows geometry.now }
    ensures few { result ≤ 2 * SLOTS + 3 }
{
    rows_by(geometry.kind, geometry.slots)
}

fn rows_by(kind: Kind, slots: u32) -> u32
    requires { IsSlotsBy kind slots }
    ensures rows { result ≡ rows_by kind slots }
    ensures few { result ≤ 2 * SLOTS + 3 }
{
    match kind {
        Kind::Ending => slots,
        Kind::Endless => 2 * slots + 3,
    }
}

/// The bytes of a row on the device.
pub fn row_size(geometry: &Geometry) -> u64
    requires { IsGeometry geometry.now }
    ensures { result ≡ shapes.row_size geometry.now }
{
    u64::from(geometry.sector_size) * u64::from(geometry.hosts)
}

/// The bytes that a device needs.
pub fn device_size(geometry: &Geometry) -> u64
    requires { IsGeometry geometry.now }
    ensures { result ≡ shapes.device_size geometry.now }
{
    let row = row_size(geometry);
    DEVICE_HEADER_LENGTH as u64 + row + row * u64::from(slot_rows(geometry))
}
