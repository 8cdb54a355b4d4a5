// What drives attempts over simulated disks.
ghost use Rattle.std.specs.Prelude.{◌≤◌, ◌+◌, ℕ, List, length};
ghost use Rattle.std.specs.Bool.{OnTrue};
ghost use Rattle.torn_block.specs.Layout.{Version};
ghost use Rattle.attempt.specs.History.{Fits};
ghost use Rattle.attempt.specs.DeviceCalls.{device_call_of, heard_as};

use attempt::{DeviceCall, Heard};
use disk::{Disk, DiskFault, NoMemory, SimDisk};
use paxos_block::Value;
use std::alloc::{AllocError, Global};
use torn_block::VALUE_LENGTH;

// An input of this byte alone.
pub(crate) fn value(byte: u8) -> Value {
    [byte; VALUE_LENGTH]
}

// So many disks of so many zeros.
pub(crate) fn blank_disks(
    alloc: Global,
    count: usize,
    length: u64,
) -> Result<Vec<SimDisk>, NoMemory> {
    let mut disks = Vec::new(alloc);
    for _ in 0..count {
        disks
            .push(SimDisk::new(alloc, length)?)
            .map_err(|failed| NoMemory::from(AllocError::from(failed)))?;
    }
    Ok(disks)
}

// Whether so many bytes lie on the disk.
fn has_range(disk: &SimDisk, at: u64, len: u64) -> bool
    ensures { OnTrue result (at + len ≤ length disk.now.disk.bytes) }
{
    let size = disk.size();
    at <= size && len <= size - at
}

// Makes the call. A range that is not on the disk fails.
pub(crate) fn answer<'a, const N: usize>(
    disk: &mut SimDisk,
    call: &DeviceCall<'_>,
    row: &'a mut [u8; N],
) -> Heard<'a, [u8; N]>
    ensures { (v : Version) (bytes_of : List ℕ → List ℕ) → Fits (device_call_of v call.now) (heard_as v bytes_of result) }
{
    match call {
        DeviceCall::Attach => match disk.attach() {
            Ok(boot) => Heard::Booted(boot),
            Err(fault) => Heard::Fault(fault),
        },
        DeviceCall::Sync { boot } => match disk.sync(*boot) {
            Ok(()) => Heard::Done,
            Err(fault) => Heard::Fault(fault),
        },
        DeviceCall::Write { boot, at, bytes } => {
            if !has_range(disk, *at, bytes.len() as u64) {
                return Heard::Fault(DiskFault::Failed);
            }
            match disk.write(*boot, *at, bytes) {
                Ok(()) => Heard::Done,
                Err(fault) => Heard::Fault(fault),
            }
        }
        DeviceCall::Read { boot, at } => {
            if !has_range(disk, *at, N as u64) {
                return Heard::Fault(DiskFault::Failed);
            }
            match disk.read(*boot, *at, row) {
                Ok(()) => Heard::Told(row),
                Err(fault) => Heard::Fault(fault),
            }
        }
    }
}
