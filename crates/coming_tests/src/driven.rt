// Disks of two areas, and what drives hosts over them.
ghost use Rattle.std.specs.Prelude.{◌≡◌, ◌≤◌, ◌<◌, ◌+◌, ℕ, List, length};
ghost use Rattle.std.specs.Bool.{OnTrue};
ghost use Rattle.torn_block.specs.Layout.{Version};
ghost use Rattle.attempt.specs.History.{Fits};
ghost use Rattle.attempt.specs.DeviceCalls.{device_call_of, heard_as};

use attempt::{DeviceCall, Heard};
use coming::Coming;
use disk::{Disk, DiskFault, SimDisk};
use standings::{decode_standings, whole_length};
use std::alloc::Global;
use std::test::Fail;
use torn_block::{BLOCK_LENGTH, HOSTS, ROW_LENGTH};

/// An image of so many slots has seven rows: of the header, of the heartbeat area, and of each slot.
pub(crate) const SLOTS: u16 = 5;

/// So many of them have blocks.
pub(crate) const AREA_ROWS: u64 = 6;

/// Where they begin in each area, and where its row of standings is, counted in rows.
pub(crate) const FIRST_ROWS: [u64; 2] = [1, 9];

pub(crate) const STANDINGS: [u64; 2] = [7, 8];

/// More calls than any host makes.
pub(crate) const ENOUGH: usize = 2000;

// Whether so many bytes lie on the disk.
fn has_range(disk: &SimDisk, at: u64, len: u64) -> bool
    ensures { OnTrue result (at + len ≤ length disk.now.disk.bytes) }
{
    let size = disk.size();
    at <= size && len <= size - at
}

/// Makes the call. A range that is not on the disk fails.
pub(crate) fn answer<'a>(
    disk: &mut SimDisk,
    call: &DeviceCall<'_>,
    row: &'a mut [u8; ROW_LENGTH],
) -> Heard<'a>
    ensures { (v : Version) (bytes_of : List ℕ → List ℕ) → Fits (device_call_of v call.now) (heard_as v bytes_of result) }
{
    match call {
        DeviceCall::Attach => match disk.attach() {
            Ok(boot) => Heard::Booted(boot),
            Err(fault) => Heard::Fault(fault),
        },
        DeviceCall::Sync { boot } => match disk.sync(*boot) {
            Ok(()) => Heard::Done,
            Err(fault) => Heard::Fault(fault),
        },
        DeviceCall::Write { boot, at, bytes } => {
            if !has_range(disk, *at, bytes.len() as u64) {
                return Heard::Fault(DiskFault::Failed);
            }
            match disk.write(*boot, *at, bytes) {
                Ok(()) => Heard::Done,
                Err(fault) => Heard::Fault(fault),
            }
        }
        DeviceCall::Read { boot, at } => {
            if !has_range(disk, *at, ROW_LENGTH as u64) {
                return Heard::Fault(DiskFault::Failed);
            }
            match disk.read(*boot, *at, row) {
                Ok(()) => Heard::Told(row),
                Err(fault) => Heard::Fault(fault),
            }
        }
    }
}

/// Makes so many calls, or fewer where the host ends, and counts them.
pub(crate) fn drive(coming: &mut Coming, disk: &mut SimDisk, calls: usize) -> usize {
    let mut row = [0; ROW_LENGTH];
    for made in 0..calls {
        if coming.end().is_some() {
            return made;
        }
        let call = coming.call();
        let heard = answer(disk, &call, &mut row);
        coming.hear(&heard);
    }
    calls
}

/// A disk on which each block of both areas is of this byte alone. The rows of standings are zeros.
pub(crate) fn used_disk(alloc: Global, byte: u8) -> Result<SimDisk, Fail> {
    let mut disk = SimDisk::new(alloc, whole_length(SLOTS))?;
    for from in FIRST_ROWS {
        for row in 0..AREA_ROWS {
            put_row(&mut disk, from.saturating_add(row), &[byte; ROW_LENGTH])?;
        }
    }
    let boot = disk.attach()?;
    disk.sync(boot)?;
    Ok(disk)
}

// Where a row begins.
fn row_place(row: u64) -> u64 {
    row.saturating_mul(ROW_LENGTH as u64)
}

fn put_row(disk: &mut SimDisk, row: u64, bytes: &[u8; ROW_LENGTH]) -> Result<(), Fail> {
    let at = row_place(row);
    if !has_range(disk, at, ROW_LENGTH as u64) {
        return Err("place".into());
    }
    let boot = disk.attach()?;
    disk.write(boot, at, bytes)?;
    Ok(())
}

fn row_at(disk: &mut SimDisk, row: u64) -> Result<[u8; ROW_LENGTH], Fail> {
    let mut bytes = [0; ROW_LENGTH];
    let at = row_place(row);
    if !has_range(disk, at, ROW_LENGTH as u64) {
        return Err("place".into());
    }
    let boot = disk.attach()?;
    disk.read(boot, at, &mut bytes)?;
    Ok(bytes)
}

/// The number of a host in an area.
pub(crate) fn number_of(disk: &mut SimDisk, area: u8, host: u8) -> Result<u64, Fail> {
    let row = *STANDINGS.get(usize::from(area)).ok_or("area")?;
    if usize::from(host) >= HOSTS {
        return Err("host".into());
    }
    let numbers = decode_standings(&row_at(disk, row)?).ok_or("damaged")?;
    Ok(numbers[usize::from(host)])
}

/// In how many rows of an area the host's block is zeros, and all others are of this byte alone.
pub(crate) fn cleared_rows(disk: &mut SimDisk, area: u8, host: u8, byte: u8) -> Result<u64, Fail> {
    let from = *FIRST_ROWS.get(usize::from(area)).ok_or("area")?;
    let mut cleared = 0u64;
    for row in 0..AREA_ROWS {
        let bytes = row_at(disk, from.saturating_add(row))?;
        let is_cleared = bytes.iter().enumerate().all(|(place, found)| {
            let is_own = place / BLOCK_LENGTH == usize::from(host);
            *found == if is_own { 0 } else { byte }
        });
        if is_cleared {
            cleared = cleared.saturating_add(1);
        }
    }
    Ok(cleared)
}
