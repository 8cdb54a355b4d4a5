ghost use Rattle.std.specs.Prelude.{◌≡◌, ◌+◌, ◌≤◌, true, false, IfErr, IfOk, OnOk, length};
ghost use Rattle.torn_block.specs.declared.layout.TheConstants.{ROW_LENGTH};
ghost use Rattle.folders.specs.Layout.{header_of};
ghost use Rattle.folder_migration.specs.declared.finishing.TheConstants.{FIRST_SLOT};
ghost use Rattle.folder_migration.specs.Gates.{AreFinishedFrom, AreLeftOpen, AreStoppedFrom, HasGate, HaveNoGate, HaveNothingLeft, IsStopped};

use crate::gate::{Gate, find_gate, leave_open};
use disk::{Disk, DiskFault};
use host::Config;
use paxos_block::Header;
use torn_block::ROW_LENGTH;

/// Where the first slot of an image begins, behind its header and its heartbeats.
const FIRST_SLOT: u64 = 2 * ROW_LENGTH as u64;

/// Whether an image has anything in its first slot. One that cannot tell has not.
pub fn holds_command<D: Disk>(device: &mut D) -> bool
    ensures device { D.device device.new ≡ D.device device.old }
{
    if device.size() < FIRST_SLOT + ROW_LENGTH as u64 {
        return false;
    }
    match first_row(device) {
        Ok(row) => row.iter().any(|byte| *byte != 0),
        Err(_) => false,
    }
}

fn first_row<D: Disk>(device: &mut D) -> Result<[u8; ROW_LENGTH], DiskFault>
    requires { FIRST_SLOT + ROW_LENGTH ≤ (D.device device.old).size }
    ensures device { D.device device.new ≡ D.device device.old }
{
    let mut row = [0; ROW_LENGTH];
    let boot = device.attach()?;
    device.read(boot, FIRST_SLOT, &mut row)?;
    Ok(row)
}

/// Whether the gate of some new image is found so. Once one is, no other is looked at.
pub fn has_gate<D: Disk>(config: Config, cluster: u64, images: &mut [D], gate: Gate) -> bool
    requires as_many { length images.old ≡ config.disks }
    ensures found { result ≡ true → HasGate D.gives D.device config cluster gate images.old images.new }
    ensures none { result ≡ false → HaveNoGate D.gives D.device config cluster gate config.disks images.old images.new }
    ensures as_many { length images.new ≡ length images.old }
{
    for disk in 0..config.disks() {
        let header = new_header(config, cluster, disk);
        if find_gate(&mut images[usize::from(disk)], &header) == gate {
            return true;
        }
    }
    false
}

/// Opens the gates that are left of a run which was ended between two of them. Whether there was one is the result.
pub fn finish_left<D: Disk>(
    config: Config,
    cluster: u64,
    images: &mut [D],
) -> Result<bool, DiskFault>
    requires as_many { length images.old ≡ config.disks }
    ensures finished { IfOk result (λ finished. finished ≡ true → AreFinishedFrom D.gives D.device config cluster images.old images.new) }
    ensures none { IfOk result (λ finished. finished ≡ false → HaveNothingLeft D.gives D.device config cluster images.old images.new) }
    ensures stopped { IfErr result (λ fault. AreStoppedFrom D.gives D.device config cluster images.old fault images.new) }
{
    if !has_gate(config, cluster, images, Gate::Open) {
        return Ok(false);
    }
    if !has_gate(config, cluster, images, Gate::Closed) {
        return Ok(false);
    }
    finish(config, cluster, images)?;
    Ok(true)
}

/// Opens the gates of the images that are complete but for them, and makes sure of those that are open. Where that fails, no other is looked at.
pub fn finish<D: Disk>(config: Config, cluster: u64, images: &mut [D]) -> Result<(), DiskFault>
    requires as_many { length images.old ≡ config.disks }
    ensures left_open { OnOk result (AreLeftOpen D.gives D.device config cluster config.disks images.old images.new) }
    ensures stopped { IfErr result (λ fault. IsStopped D.gives D.device config cluster images.old fault images.new) }
{
    for disk in 0..config.disks() {
        let header = new_header(config, cluster, disk);
        leave_open(&mut images[usize::from(disk)], &header)?;
    }
    Ok(())
}

fn new_header(config: Config, cluster: u64, disk: u8) -> Header
    ensures { result ≡ header_of config cluster disk }
{
    Header {
        disk,
        disks: config.disks(),
        slots: u32::from(config.slots()),
        cluster,
    }
}
