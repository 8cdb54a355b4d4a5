ghost use Rattle.std.specs.Prelude.{◌≡◌, ◌≤◌, IfErr, IfOk, Err, Ok, length};
ghost use Rattle.migration.specs.declared.end.End.TheVariants.{Migrated};
ghost use Rattle.folder_migration.specs.Moving.{AreLarge};
ghost use Rattle.folder_migration.specs.Recovery.{AreLarge as AreLargeOld, RecoversTo};
ghost use Rattle.folder_migration.specs.Writing.{Writes, StopsFor};

use crate::fault::MoveFault;
use crate::moving::move_log;
use crate::old_log::recover_log;
use disk::Disk;
use folders::FolderFault;
use host::Config;
use migration::End;
use std::alloc::Global;

/// Recovers the log of the old disks, and writes what stands for it onto new ones, which are made once the log is known. Gives the number of its commands.
pub fn migrate_disks<D: Disk, E: Disk + Drop, F: FnOnce() -> Result<Vec<E>, FolderFault>>(
    alloc: Global,
    config: Config,
    cluster: u64,
    disks: &mut [D],
    new_config: Config,
    make: F,
) -> Result<u16, MoveFault>
    requires as_many { length disks.old ≡ config.disks }
    requires large { AreLargeOld D.device config.slots disks.old }
    requires wider { config.slots ≤ new_config.slots }
    requires may_make { (log : _) (left : _) → RecoversTo D.gives config disks.old left log → F.pre make }
    requires made { (made : _) → F.post make (Ok made) → (length made.items ≡ new_config.disks) × AreLarge E.device new_config.slots made.items }
    ensures written { IfOk result (λ commands. Writes D.gives E.gives (λ images. (made : _) × F.post make (Ok made) × (made.items ≡ images)) config new_config cluster disks.old disks.new commands Migrated) }
    ensures stopped { IfErr result (StopsFor D.gives E.gives (λ images. (made : _) × F.post make (Ok made) × (made.items ≡ images)) (λ fault. F.post make (Err fault)) config new_config cluster disks.old disks.new) }
{
    let log = recover_log(alloc, config, disks)?;
    let commands = log.len() as u16;
    let mut images = make()?;
    match move_log(new_config, cluster, log, &mut images) {
        End::Migrated => Ok(commands),
        End::MigrationFailed => Err(MoveFault::MigrationFailed),
    }
}
