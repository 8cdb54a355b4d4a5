ghost use Rattle.std.specs.Prelude.{[], ◌≡◌};
ghost use Rattle.epoch_host.specs.Leading.{LeadsTo};
ghost use Rattle.log_folders.specs.AnySets.{AreFirsts};

use crate::epoch_disk_host::EpochDiskHost;
use disk::FileDisk;
use lock_command::HostNumber;
use log_folders::{EndlessFolder, first_epochs};
use std::alloc::Global;
use std::fs::OpenFile;
use std::os::unix::fs::FileExt;

/// A host over the disks of a folder whose log has no end. It knows of no epoch yet.
pub fn start_epoch_host<F: FileExt + OpenFile + Drop>(
    folder: EndlessFolder<F>,
    alloc: Global,
    host: HostNumber,
) -> EpochDiskHost<FileDisk<F>>
    ensures fresh { LeadsTo folder.config host [] result.host }
    ensures disks { result.disks ≡ folder.disks.items }
    // Each disk takes part from the epoch on that its image tells.
    ensures firsts { AreFirsts folder.found result.firsts }
    ensures of { (result.host.host ≡ host) × (result.host.config ≡ folder.config) }
{
    let firsts = first_epochs(&folder.found);
    EpochDiskHost::start(alloc, host, folder.config, firsts, folder.disks)
}
