// From where a window looks.
ghost use Rattle.std.specs.Prelude.{◌<◌};
ghost use Rattle.torn_block.specs.declared.layout.TheConstants.{HOSTS};

use standings::Epoch;

/// The host, on disks whose areas have so many slots, and its epoch.
#[derive(Clone, Copy)]
pub struct Standpoint {
    pub host: u8,
    pub slots: u16,
    pub epoch: Epoch,
    /// The host only looks: rows are shown to it from outside of the epoch, too.
    pub only_looks: bool,
    ghost host_in_range: { host < HOSTS },
    ghost area_in_range: { epoch.area < 2 },
}
