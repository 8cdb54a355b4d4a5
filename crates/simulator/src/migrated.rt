// Simulated disks as a migration left them.
ghost use Rattle.std.specs.Prelude.{◌≡◌, ◌+◌, ◌*◌, ◌≤◌, ◌<◌, ℕ, false, None, Some, IfOk, OnOk, OnErr, length, map, replicate, slice_get, slice_index_or};
ghost use Rattle.disk.specs.Disk.{written, synced};
ghost use Rattle.disk.specs.Simulated.{SimState, fresh_disk};
ghost use Rattle.torn_block.specs.Layout.{cluster_version};
ghost use Rattle.paxos_block.specs.Places.{image_length, row_place};
ghost use Rattle.paxos_block.specs.Image.{rows_for};
ghost use Rattle.lock_command.specs.declared.command.Command.{Command};
ghost use Rattle.lock_command.specs.Command.{spelling};
ghost use Rattle.world.specs.Entry.{migrated_to};
ghost use Rattle.world.specs.World.{ReadsBack};
ghost use Rattle.world.specs.Opening.{CanBegin};
ghost use Rattle.simulator.specs.Kept.{calm};

use disk::{Boot, Disk, NoMemory, SimDisk};
use lock_command::{Command, Value};
use migration::row_for;
use paxos_block::{Config, row_place};
use std::alloc::Global;
use torn_block::ClusterLayout;

/// The disks of a cluster, on each of which a complete migration left these commands.
pub fn migrated_disks(
    alloc: Global,
    config: Config,
    log: &[Command],
) -> Result<Vec<SimDisk>, NoMemory>
    requires { length log.now ≤ config.slots }
    ensures disks { IfOk result (λ disks. disks.items ≡
        replicate config.disks (calm (migrated_to (fresh_disk (image_length cluster_version config.slots)) log.now))) }
    ensures can { IfOk result (λ _. CanBegin (record { shape = config; moved = log.now })) }
{
    let values = spellings(alloc, log)?;
    let count = usize::from(config.disks());
    let mut disks = Vec::with_capacity(alloc, count)?;
    for _ in 0..count {
        disks.push_reserved(migrated_disk(alloc, config, &values)?);
    }
    Ok(disks)
}

/// Makes of the disks of a cluster, whatever they hold, those on each of which a complete migration left these commands. No disk is
/// made. If memory is refused, nothing has changed.
pub fn migrate_again(
    alloc: Global,
    config: Config,
    disks: &mut [SimDisk],
    log: &[Command],
) -> Result<(), NoMemory>
    requires fits { length log.now ≤ config.slots }
    requires many { length disks.old ≡ config.disks }
    requires sized { (d : ℕ) (other : SimState) → d < config.disks →
        length (slice_index_or disks.old d other).disk.bytes ≡
        image_length cluster_version config.slots }
    ensures disks { OnOk result (disks.new ≡
        replicate config.disks (calm (migrated_to (fresh_disk (image_length cluster_version config.slots)) log.now))) }
    ensures can { OnOk result (CanBegin (record { shape = config; moved = log.now })) }
    ensures unchanged { OnErr result (disks.new ≡ disks.old) }
{
    let spelled = spellings(alloc, log)?;
    let many = usize::from(config.disks());
    for at in 0..many {
        let disk = &mut disks[at];
        disk.renew();
        lay(config, disk, &spelled);
    }
    Ok(())
}

/// The spellings of these commands.
fn spellings(alloc: Global, log: &[Command]) -> Result<Vec<Value>, NoMemory>
    ensures values { IfOk result (λ values. values.items ≡ map spelling log.now) }
    ensures reads { IfOk result (λ _. (k : ℕ) (command : Command) → slice_get log.now k ≡ Some command → ReadsBack command) }
{
    let mut values = Vec::with_capacity(alloc, log.len())?;
    for command in log {
        values.push_reserved(command.encode());
    }
    Ok(values)
}

/// A disk of zeros, but for a row for each of these values from the first slot on. Nothing on it is unsynced.
fn migrated_disk(alloc: Global, config: Config, values: &[Value]) -> Result<SimDisk, NoMemory>
    requires { length values.now ≤ config.slots }
    ensures { IfOk result (λ disk. disk ≡
        calm (synced (written (fresh_disk (image_length cluster_version config.slots)) (row_place cluster_version 0) (rows_for values.now)))) }
{
    let mut disk = SimDisk::new(alloc, config.image_length())?;
    lay(config, &mut disk, values);
    Ok(disk)
}

/// Writes on a disk of zeros a row for each of these values from the first slot on, and syncs it.
fn lay(config: Config, disk: &mut SimDisk, values: &[Value])
    requires fits { length values.now ≤ config.slots }
    requires fresh { disk.old ≡ calm (fresh_disk (image_length cluster_version config.slots)) }
    ensures { disk.new ≡
        calm (synced (written (fresh_disk (image_length cluster_version config.slots)) (row_place cluster_version 0) (rows_for values.now))) }
{
    let boot = Boot { number: 1 };
    for (slot, value) in values.iter().enumerate() {
        write(
            disk,
            boot,
            row_place::<ClusterLayout>(slot as u32),
            &row_for(value),
        );
    }
    sync(disk, boot);
}

/// A write on a disk that is there, and that no failure was asked of. So it succeeds.
fn write(disk: &mut SimDisk, boot: Boot, at: u64, from: &[u8])
    requires calm { disk.old.failing ≡ None }
    requires there { (disk.old.disk.gone ≡ false) × (boot.number ≡ disk.old.disk.boot) }
    requires range { at + length from.now ≤ length disk.old.disk.bytes }
    ensures { disk.new ≡ record disk.old { disk = written disk.old.disk at from.now } }
{
    let _ = disk.write(boot, at, from);
}

/// A sync of such a disk.
fn sync(disk: &mut SimDisk, boot: Boot)
    requires calm { disk.old.failing ≡ None }
    requires there { (disk.old.disk.gone ≡ false) × (boot.number ≡ disk.old.disk.boot) }
    ensures { disk.new ≡ record disk.old { disk = synced disk.old.disk } }
{
    let _ = disk.sync(boot);
}
