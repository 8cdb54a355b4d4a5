ghost use Rattle.std.specs.Prelude.{◌≡◌, ◌⊎◌, ◌≤◌, ◌<◌, IfOk, IfErr, true, false};
ghost use Rattle.folder_migration.specs.Migrating.{AreFinished, AreNotBegun, AreNotFinished, CameTo, MayFail, with_slots};

use crate::fault::MoveFault;
use crate::finishing::{finish, has_gate};
use crate::gate::Gate;
use crate::migrating::migrate_disks;
use crate::new_folder::{first_host, make_free_images, open_new_folder};
use folders::{Access, FolderFault, TryLock, find_folder, lock_host, open_images};
use host::Config;
use paxos_block::SlotCount;
use std::fs::OpenFile;
use std::os::unix::fs::FileExt;
use std::rt::Files;
use torn_block::Layout1;

/// What came of a migration.
#[derive(Clone, Copy, Debug, PartialEq, Eq)]
pub enum Moved {
    /// So many commands were written onto so many new images.
    Moved { commands: u16, disks: u8 },
    /// The gate of a new image was open already, so all of them were complete. Now the gates of the others are open, too, and all are synced.
    Finished { disks: u8 },
}

/// Moves the log of a folder of the first layout onto new images in another folder, with so many slots. No host runs on either.
///
/// Where an earlier run was ended once it had opened a gate, the gates that are left are opened, all are synced, and nothing else is done.
pub fn migrate_folder<R: Files + AllocGlobal>(
    rt: &R,
    old: &str,
    new: &str,
    slots: SlotCount,
) -> Result<Moved, MoveFault>
where
    R::File: FileExt + OpenFile + TryLock + Drop,
    ensures came_to { IfOk result (CameTo slots) }
    ensures fault { IfErr result (MayFail slots) }
{
    let old = find_folder(rt, old)?;
    let images = open_images::<Layout1, R>(rt, old.as_str(), Access::ReadAndWrite)?;
    let cluster = images.cluster;
    let config = new_config(images.config, slots)?;
    let disks = config.disks();
    let new = find_folder(rt, new)?;
    if finish_earlier(rt, new.as_str(), config, cluster)? {
        return Ok(Moved::Finished { disks });
    }
    // Two migrations at once would both be host 0.
    let _lock = lock_host(rt, old.as_str(), first_host())?;
    let mut old_disks = images.disks;
    let commands = migrate_disks(
        rt.alloc(),
        images.config,
        cluster,
        &mut old_disks,
        config,
        || make_free_images(rt, new.as_str(), config),
    )?;
    Ok(Moved::Moved { commands, disks })
}

/// How large the new set is to be.
fn new_config(config: Config, slots: SlotCount) -> Result<Config, MoveFault>
    ensures new { IfOk result (λ new. (new ≡ with_slots config slots) × (config.slots ≤ slots)) }
    ensures fault { IfErr result (λ fault. (fault ≡ MoveFault.TooFewSlots) × (slots < config.slots)) }
{
    if slots.get() < config.slots() {
        return Err(MoveFault::TooFewSlots);
    }
    match Config::new(config.disks(), slots.get()) {
        Some(new) => Ok(new),
        None => unreachable!(),
    }
}

/// Opens the gates that an earlier run has left, and makes sure of all, if it had opened one. Whether it had is the result.
fn finish_earlier<R: Files + AllocGlobal>(
    rt: &R,
    folder: &str,
    config: Config,
    cluster: u64,
) -> Result<bool, MoveFault>
where
    R::File: FileExt + OpenFile + Drop,
    ensures finished { IfOk result (λ finished. finished ≡ true → AreFinished config cluster) }
    ensures none { IfOk result (λ finished. finished ≡ false → AreNotBegun config cluster) }
    ensures fault { IfErr result (λ fault. (fault ≡ MoveFault.Folder FolderFault.NoMemory) ⊎ ((fault ≡ MoveFault.MigrationFailed) × AreNotFinished config cluster)) }
{
    let mut images = open_new_folder(rt, folder, config)?;
    if !has_gate(config, cluster, &mut images, Gate::Open) {
        return Ok(false);
    }
    match finish(config, cluster, &mut images) {
        Ok(()) => Ok(true),
        Err(_) => Err(MoveFault::MigrationFailed),
    }
}
