ghost use Rattle.std.specs.Prelude.{◌≡◌, ◌≢◌, ◌↔◌, IsOk, Err};
ghost use Rattle.sectors.specs.Sets.{IsSameSet};

use crate::header::DeviceHeader;
use thiserror::Error;

/// Why two devices are not of one set. Of several differences the first of this list is told.
#[derive(Clone, Copy, Debug, PartialEq, Eq, Error)]
pub enum SetFault {
    #[error("the devices have different cluster numbers")]
    OtherCluster,
    #[error("the devices are of sets of different sizes")]
    OtherDisks,
    #[error("the log of one device ends, and that of the other does not")]
    OtherKind,
    #[error("the devices have different numbers of slots")]
    OtherSlots,
    #[error("the devices have different numbers of hosts")]
    OtherHosts,
}

/// Whether two devices are of one set. Their sector sizes, and how writes are made, may differ.
pub fn check_set(one: &DeviceHeader, other: &DeviceHeader) -> Result<(), SetFault>
    ensures same { IsOk result ↔ IsSameSet one.now other.now }
    ensures cluster { (result ≡ Err SetFault.OtherCluster) ↔ (one.now.cluster ≢ other.now.cluster) }
    ensures disks { (result ≡ Err SetFault.OtherDisks) ↔
        ((one.now.cluster ≡ other.now.cluster) × (one.now.disks ≢ other.now.disks)) }
    ensures kind { (result ≡ Err SetFault.OtherKind) ↔
        ((one.now.cluster ≡ other.now.cluster) × (one.now.disks ≡ other.now.disks) ×
        (one.now.geometry.kind ≢ other.now.geometry.kind)) }
    ensures slots { (result ≡ Err SetFault.OtherSlots) ↔
        ((one.now.cluster ≡ other.now.cluster) × (one.now.disks ≡ other.now.disks) ×
        (one.now.geometry.kind ≡ other.now.geometry.kind) ×
        (one.now.geometry.slots ≢ other.now.geometry.slots)) }
    ensures hosts { (result ≡ Err SetFault.OtherHosts) ↔
        ((one.now.cluster ≡ other.now.cluster) × (one.now.disks ≡ other.now.disks) ×
        (one.now.geometry.kind ≡ other.now.geometry.kind) ×
        (one.now.geometry.slots ≡ other.now.geometry.slots) ×
        (one.now.geometry.hosts ≢ other.now.geometry.hosts)) }
{
    if one.cluster != other.cluster {
        return Err(SetFault::OtherCluster);
    }
    if one.disks != other.disks {
        return Err(SetFault::OtherDisks);
    }
    if one.geometry.kind != other.geometry.kind {
        return Err(SetFault::OtherKind);
    }
    if one.geometry.slots != other.geometry.slots {
        return Err(SetFault::OtherSlots);
    }
    if one.geometry.hosts != other.geometry.hosts {
        return Err(SetFault::OtherHosts);
    }
    Ok(())
}
