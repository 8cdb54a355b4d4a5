ghost use Rattle.std.specs.Prelude.{◌≡◌, ◌≢◌, ◌↔◌, IsOk, Err};
ghost use Rattle.endless_image.specs.Sets.{IsSameSet};

use crate::header::EndlessHeader;
use thiserror::Error;

/// Why two images are not of one set. Of several differences the first of this list is told.
#[derive(Clone, Copy, Debug, PartialEq, Eq, Error)]
pub enum SetFault {
    #[error("the images have different cluster numbers")]
    OtherCluster,
    #[error("the images are of sets of different sizes")]
    OtherDisks,
    #[error("the images have different numbers of slots")]
    OtherSlots,
}

/// Whether two images are of one set. They may take part from different epochs.
pub fn check_set(one: &EndlessHeader, other: &EndlessHeader) -> Result<(), SetFault>
    ensures same { IsOk result ↔ IsSameSet one.now other.now }
    ensures cluster { (result ≡ Err SetFault.OtherCluster) ↔ (one.now.cluster ≢ other.now.cluster) }
    ensures disks { (result ≡ Err SetFault.OtherDisks) ↔
        ((one.now.cluster ≡ other.now.cluster) × (one.now.disks ≢ other.now.disks)) }
    ensures slots { (result ≡ Err SetFault.OtherSlots) ↔
        ((one.now.cluster ≡ other.now.cluster) × (one.now.disks ≡ other.now.disks) ×
        (one.now.slots ≢ other.now.slots)) }
{
    if one.cluster != other.cluster {
        return Err(SetFault::OtherCluster);
    }
    if one.disks != other.disks {
        return Err(SetFault::OtherDisks);
    }
    if one.slots != other.slots {
        return Err(SetFault::OtherSlots);
    }
    Ok(())
}
