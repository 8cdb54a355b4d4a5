ghost use Rattle.std.specs.Prelude.{◌≡◌, IfSome, IfNone};
ghost use Rattle.sectors.specs.Geometry.{IsGeometry};
ghost use Rattle.dlm_c.specs.Devices.{endless_of, geometry_of, kind_of, shape_of};

use endless_image::Kind;
use sectors::{DEVICE_HEADER_LENGTH, DeviceHeader, Geometry, is_geometry};

/// The shape of a device that several machines use, and how it is written, as C keeps them.
#[repr(C)]
#[derive(Clone, Copy, Drop)]
pub struct Device {
    pub sector_size: u32,
    pub hosts: u32,
    pub slots: u32,
    /// 1 where each write is made with O_DSYNC.
    pub dsync: u32,
    /// 1 where the log has no end. The slots are then those of an epoch.
    pub endless: u32,
}

/// The first bytes of a device.
#[repr(C)]
#[derive(Clone, Copy, Drop)]
pub struct FirstBytes {
    pub bytes: [u8; DEVICE_HEADER_LENGTH],
}

/// Whole sectors of a device, and where in them the bytes that are meant begin.
#[repr(C)]
#[derive(Clone, Copy, Drop)]
pub struct Sectors {
    /// In bytes from the start of the device.
    pub place: u64,
    pub length: u64,
    pub offset: u64,
}

impl Device {
    /// Its shape, if a device may have that.
    pub fn geometry(&self) -> Option<Geometry>
        ensures some { IfSome result (λ geometry. (geometry ≡ geometry_of self.now) × IsGeometry geometry) }
        ensures none { IfNone result (¬ IsGeometry (geometry_of self.now)) }
    {
        let Ok(hosts) = u8::try_from(self.hosts) else {
            return None;
        };
        let geometry = Geometry {
            sector_size: self.sector_size,
            hosts,
            kind: kind_of(self.endless),
            slots: self.slots,
        };
        if !is_geometry(&geometry) {
            return None;
        }
        Some(geometry)
    }

    /// What a header says of it.
    pub fn of(header: &DeviceHeader) -> Device
        ensures { result ≡ shape_of header.now }
    {
        Device {
            sector_size: header.geometry.sector_size,
            hosts: u32::from(header.geometry.hosts),
            slots: header.geometry.slots,
            dsync: u32::from(header.dsync),
            endless: endless_of(header.geometry.kind),
        }
    }
}

// The kind of log that C names, and how it is told one.
fn kind_of(endless: u32) -> Kind
    ensures { result ≡ kind_of endless }
{
    if endless == 1 {
        Kind::Endless
    } else {
        Kind::Ending
    }
}

fn endless_of(kind: Kind) -> u32
    ensures { result ≡ endless_of kind }
{
    match kind {
        Kind::Ending => 0,
        Kind::Endless => 1,
    }
}
