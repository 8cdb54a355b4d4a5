ghost use Rattle.std.specs.Prelude.{◌≡◌, IfOk};
ghost use Rattle.host.specs.Host.{fresh};
ghost use Rattle.host.specs.Kept.{LeadsTo};

use crate::disk_host::DiskHost;
use disk::{FileDisk, NoMemory};
use folders::Folder;
use lock_command::HostNumber;
use std::alloc::Global;
use std::fs::OpenFile;
use std::os::unix::fs::FileExt;

/// A host over the disks of a folder. It has learned nothing yet.
pub fn start_host<F: FileExt + OpenFile + Drop>(
    folder: Folder<F>,
    alloc: Global,
    host: HostNumber,
) -> Result<DiskHost<FileDisk<F>>, NoMemory>
    ensures fresh { IfOk result (λ started. LeadsTo folder.config host fresh started.core) }
    ensures disks { IfOk result (λ started. started.disks ≡ folder.disks.items) }
{
    DiskHost::start(alloc, host, folder.config, folder.disks)
}
