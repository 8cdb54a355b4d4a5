// Where blocks are on a device, by their spots and by their places in an image of the cluster's layout.
ghost use Rattle.std.specs.Prelude.{◌≡◌, ◌≢◌, ◌≤◌, ◌<◌, IfSome, IfNone};
ghost use Rattle.paxos_block.specs.Places.{BeatOf, VoteOf};
ghost use Rattle.sectors.specs.Geometry.{IsGeometry, slot_rows};
ghost use Rattle.sectors.specs.Places as places;
ghost use Rattle.sectors.specs.Places.{place_of, RowOf, IsRow, IsRowAt, IsRangeAt, HasNoRangeAt, image_row};

use crate::geometry::{Geometry, row_size, slot_rows};
use crate::header::DEVICE_HEADER_LENGTH;
use torn_block::{BLOCK_LENGTH, ROW_LENGTH};

/// Some bytes of a block: the sector that it lies in, and where in that they begin.
#[derive(Clone, Copy, Debug, PartialEq, Eq)]
pub struct SectorRange {
    /// Where the sector begins, in bytes from the start of the device.
    pub place: u64,
    /// In bytes from the start of the sector.
    pub offset: usize,
}

/// Where a slot's row begins on the device.
pub fn slot_row(geometry: &Geometry, slot: u32) -> u64
    requires shape { IsGeometry geometry.now }
    requires slot { slot < slot_rows geometry.now }
    ensures { result ≡ places.row_place geometry.now slot }
{
    let row = row_size(geometry);
    DEVICE_HEADER_LENGTH as u64 + row + row * u64::from(slot)
}

/// Where the sector of a host's block of a slot begins.
pub fn vote_sector(geometry: &Geometry, slot: u32, host: u8) -> u64
    requires shape { IsGeometry geometry.now }
    requires slot { slot < slot_rows geometry.now }
    requires host { host < geometry.now.hosts }
    ensures { result ≡ place_of geometry.now (VoteOf slot host) }
{
    slot_row(geometry, slot) + u64::from(geometry.sector_size) * u64::from(host)
}

/// Where the sector of a host's heartbeat block begins.
pub fn beat_sector(geometry: &Geometry, host: u8) -> u64
    requires shape { IsGeometry geometry.now }
    requires host { host < geometry.now.hosts }
    ensures { result ≡ place_of geometry.now (BeatOf host) }
{
    DEVICE_HEADER_LENGTH as u64 + u64::from(geometry.sector_size) * u64::from(host)
}

/// Where the sectors of a row begin, by the place that the row has in an image. Nothing, if no row of the device begins there.
pub fn row_at(geometry: &Geometry, at: u64) -> Option<u64>
    requires { IsGeometry geometry.now }
    ensures some { IfSome result (IsRowAt geometry.now at) }
    ensures none { IfNone result ((row : RowOf) → IsRow geometry.now row → at ≢ image_row row) }
{
    let row = at / ROW_LENGTH as u64;
    if at % ROW_LENGTH as u64 != 0 || row == 0 || row > u64::from(slot_rows(geometry)) + 1 {
        return None;
    }
    Some(DEVICE_HEADER_LENGTH as u64 + row_size(geometry) * (row - 1))
}

/// Where so many bytes of one block are, by the place that they have in an image. Nothing, if they do not lie within one block of the
/// device.
pub fn block_at(geometry: &Geometry, at: u64, long: usize) -> Option<SectorRange>
    requires { IsGeometry geometry.now }
    ensures some { IfSome result (IsRangeAt geometry.now at long) }
    ensures none { IfNone result (HasNoRangeAt geometry.now at long) }
{
    let within = at % ROW_LENGTH as u64;
    let host = within / BLOCK_LENGTH as u64;
    let offset = (within % BLOCK_LENGTH as u64) as usize;
    let row = row_at(geometry, at - within)?;
    if host >= u64::from(geometry.hosts) || long > BLOCK_LENGTH - offset {
        return None;
    }
    Some(SectorRange {
        place: row + u64::from(geometry.sector_size) * host,
        offset,
    })
}
