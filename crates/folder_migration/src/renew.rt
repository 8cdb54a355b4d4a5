ghost use Rattle.std.specs.Prelude.{◌≡◌, ◌⊎◌, IfOk, IfErr, length, true, false};
ghost use Rattle.disk.specs.FileStates.{FileGives};
ghost use Rattle.host.specs.Host.{Recovering};
ghost use Rattle.dlm_images.specs.Operations.{HasOperated};
ghost use Rattle.migration.specs.declared.end.End.TheVariants.{Migrated};
ghost use Rattle.folder_migration.specs.Migrating.{AreBlank};
ghost use Rattle.folder_migration.specs.Renewing.{Carries};
ghost use Rattle.folder_migration.specs.RenewingFolders.{AreLeftFinished, AreLeftUnfinished, CameToRenew, EndsOver, IsNewFault, MayNotRenew, NothingIsLeft};
ghost use Rattle.folder_migration.specs.declared.old_log.TheConstants.{TRIES};

use crate::finishing::{finish_left, holds_command};
use crate::new_folder::{find_new, first_host, make_free_images, open_new_folder};
use crate::old_log::TRIES;
use crate::renew_fault::{NewFault, RenewFault};
use crate::renewal::renew_disks;
use disk::FileDisk;
use dlm_images::{DiskHost, start_host};
use folders::{TryLock, find_folder, lock_host, open_folder, refuse_taken};
use host::Config;
use lock_command::{ClientNumber, HostNumber};
use std::fs::OpenFile;
use std::os::unix::fs::FileExt;
use std::rt::Files;

/// What came of a renewal.
#[derive(Clone, Copy, Debug, PartialEq, Eq)]
pub enum Renewed {
    /// So many commands carry the table over onto so many new images.
    Renewed { commands: u16, disks: u8 },
    /// An earlier run was ended between two gates, so all new images were complete. Now the gates of the others are open, too, and all are synced.
    Finished { disks: u8 },
}

/// Carries the table after a full log over into a new folder, without these clients. It works as this host of the old cluster. Nobody else works on
/// either folder.
///
/// Where an earlier run was ended between two gates, the gates that are left are opened, all are synced, and nothing else is done.
pub fn renew_folder<R: Files + AllocGlobal>(
    rt: &R,
    old: &str,
    host: HostNumber,
    new: &str,
    config: Config,
    cluster: u64,
    leave: &[ClientNumber],
) -> Result<Renewed, RenewFault>
where
    R::File: FileExt + OpenFile + TryLock + Drop,
    ensures came_to { IfOk result (CameToRenew host config cluster leave.now) }
    ensures fault { IfErr result (MayNotRenew host config cluster leave.now) }
{
    let old = find_folder(rt, old)?;
    let images = open_folder(rt, old.as_str())?;
    if images.cluster == cluster {
        return Err(RenewFault::SameCluster);
    }
    let new = find_new(rt, new)?;
    let disks = config.disks();
    // What a `format` that was ended has left looks like a run that was, but for this.
    if holds_a_table(rt, new.as_str(), config)?
        && finish_renewal(rt, new.as_str(), config, cluster)?
    {
        return Ok(Renewed::Finished { disks });
    }
    let _lock = lock_host(rt, old.as_str(), host)?;
    let slots = images.config.slots();
    let mut over = start_host(images, rt.alloc(), host)?;
    let commands = renew_over(rt, &mut over, slots, new.as_str(), config, cluster, leave)?;
    Ok(Renewed::Renewed { commands, disks })
}

/// Whether some new image holds a command, as each does once a table with a client is carried over.
fn holds_a_table<R: Files + AllocGlobal>(
    rt: &R,
    folder: &str,
    config: Config,
) -> Result<bool, RenewFault>
where
    R::File: FileExt + OpenFile + Drop,
    ensures fault { IfErr result (λ fault. fault ≡ RenewFault.NoMemory) }
{
    let Ok(mut images) = open_new_folder(rt, folder, config) else {
        return Err(RenewFault::NoMemory);
    };
    for disk in 0..images.len() {
        if holds_command(&mut images[disk]) {
            return Ok(true);
        }
    }
    Ok(false)
}

/// Opens the gates that are left of a run which was ended between two of them. Whether there was one is the result.
fn finish_renewal<R: Files + AllocGlobal>(
    rt: &R,
    folder: &str,
    config: Config,
    cluster: u64,
) -> Result<bool, RenewFault>
where
    R::File: FileExt + OpenFile + Drop,
    ensures finished { IfOk result (λ finished. finished ≡ true → AreLeftFinished config cluster) }
    ensures none { IfOk result (λ finished. finished ≡ false → NothingIsLeft config cluster) }
    ensures fault { IfErr result (λ fault. (fault ≡ RenewFault.NoMemory) ⊎ ((fault ≡ RenewFault.RenewalFailed) × AreLeftUnfinished config cluster)) }
{
    let Ok(mut images) = open_new_folder(rt, folder, config) else {
        return Err(RenewFault::NoMemory);
    };
    match finish_left(config, cluster, &mut images) {
        Ok(finished) => Ok(finished),
        Err(_) => Err(RenewFault::RenewalFailed),
    }
}

// What is done through a host is a function of its own, to which the host is lent: who owns one drops it on each way out.

/// Recovers the old log, which has so many slots, and carries its table over once all of them are learned.
fn renew_over<R: Files + AllocGlobal>(
    rt: &R,
    host: &mut DiskHost<FileDisk<R::File>>,
    slots: u16,
    new: &str,
    config: Config,
    cluster: u64,
    leave: &[ClientNumber],
) -> Result<u16, RenewFault>
where
    R::File: FileExt + OpenFile + TryLock + Drop,
    ensures recovered { HasOperated FileGives Recovering TRIES host.old host.new }
    ensures full { IfOk result (λ commands. length host.new.core.prefix ≡ slots) }
    ensures renewed { IfOk result (λ commands. Carries FileGives (AreBlank config) config cluster leave.now host.new.core.prefix commands Migrated) }
    ensures stopped { IfErr result (EndsOver slots config cluster leave.now host.new) }
{
    host.recover(TRIES)?;
    if host.learned() != slots {
        return Err(RenewFault::NotFull);
    }
    renew_disks(
        rt.alloc(),
        host,
        config,
        cluster,
        leave,
        ||
            ensures blank { IfOk result (λ made. AreBlank config made.0.items) }
            ensures fault { IfErr result (IsNewFault config.disks) }
        { make_new_images(rt, new, config) },
    )
}

/// Makes the new images of zeros, if none of them is there. The lock on host 0's number that is given keeps other renewals away.
fn make_new_images<R: Files + AllocGlobal>(
    rt: &R,
    folder: &str,
    config: Config,
) -> Result<(Vec<FileDisk<R::File>>, R::File), NewFault>
where
    R::File: FileExt + OpenFile + TryLock + Drop,
    ensures blank { IfOk result (λ made. AreBlank config made.0.items) }
    ensures fault { IfErr result (IsNewFault config.disks) }
{
    refuse_taken(rt, folder, config)?;
    let lock = lock_host(rt, folder, first_host())?;
    // A run that had the lock may have made them meanwhile.
    let images = make_free_images(rt, folder, config)?;
    Ok((images, lock))
}
