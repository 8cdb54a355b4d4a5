// A row as one read of its sectors gives it.
ghost use Rattle.std.specs.Prelude.{◌≡◌, ◌↔◌, ◌-◌, ◌*◌, ◌≤◌, ◌<◌, length, IsTrue};
ghost use Rattle.disk.specs.Disk.{put_at};
ghost use Rattle.paxos_block.specs.Saying.{zeros};
ghost use Rattle.sectors.specs.Geometry as shapes;
ghost use Rattle.sectors.specs.Geometry.{IsGeometry};
ghost use Rattle.sectors.specs.Row.{IsRowOf, Agree, sector_in};
ghost use Rattle.sectors.specs.Sector.{block_of, stamped_of};

use crate::geometry::Geometry;
use crate::number::put_zeros;
use crate::sector::STAMPED_LENGTH;
use torn_block::{BLOCK_LENGTH, HOSTS, ROW_LENGTH};

/// Puts the blocks of a row's sectors side by side, as an image has them. The block of a host that there is not is zeros.
pub fn gather(geometry: &Geometry, sectors: &[u8], row: &mut [u8; ROW_LENGTH])
    requires shape { IsGeometry geometry.now }
    requires sectors { length sectors.now ≡ shapes.row_size geometry.now }
    ensures { IsRowOf geometry.now sectors.now row.new }
{
    let hosts = usize::from(geometry.hosts);
    for host in 0..hosts {
        put_block(row, host, block_of(geometry, sectors, host));
    }
    clear_from(row, BLOCK_LENGTH * hosts);
}

/// Whether two reads of a row saw the same blocks under the same stamps. What is behind the stamps is not looked at.
pub fn agree(geometry: &Geometry, one: &[u8], other: &[u8]) -> bool
    requires shape { IsGeometry geometry.now }
    requires one { length one.now ≡ shapes.row_size geometry.now }
    requires other { length other.now ≡ shapes.row_size geometry.now }
    ensures { IsTrue result ↔ Agree geometry.now one.now other.now }
{
    for host in 0..usize::from(geometry.hosts) {
        if stamped_of(geometry, one, host) != stamped_of(geometry, other, host) {
            return false;
        }
    }
    true
}

// The block and the stamp of a host's sector.
fn stamped_of<'a>(geometry: &Geometry, sectors: &'a [u8], host: usize) -> &'a [u8]
    requires shape { IsGeometry geometry.now }
    requires sectors { length sectors.now ≡ shapes.row_size geometry.now }
    requires host { host < geometry.now.hosts }
    ensures { result.now ≡ stamped_of (sector_in geometry.now host sectors.now) }
{
    let place = geometry.sector_size as usize * host;
    &sectors[place..place + STAMPED_LENGTH]
}

// The block of a host's sector.
fn block_of<'a>(geometry: &Geometry, sectors: &'a [u8], host: usize) -> &'a [u8]
    requires shape { IsGeometry geometry.now }
    requires sectors { length sectors.now ≡ shapes.row_size geometry.now }
    requires host { host < geometry.now.hosts }
    ensures block { result.now ≡ block_of (sector_in geometry.now host sectors.now) }
    ensures long { length result.now ≡ BLOCK_LENGTH }
{
    let place = geometry.sector_size as usize * host;
    &sectors[place..place + BLOCK_LENGTH]
}

// Puts a host's block into a row.
fn put_block(row: &mut [u8; ROW_LENGTH], host: usize, block: &[u8])
    requires host { host < HOSTS }
    requires block { length block.now ≡ BLOCK_LENGTH }
    ensures { row.new ≡ put_at row.old (BLOCK_LENGTH * host) block.now }
{
    let place = BLOCK_LENGTH * host;
    row[place..place + BLOCK_LENGTH].copy_from_slice(block);
}

// Zeros from a place of a row to its end.
fn clear_from(row: &mut [u8; ROW_LENGTH], place: usize)
    requires { place ≤ ROW_LENGTH }
    ensures { row.new ≡ put_at row.old place (zeros (ROW_LENGTH - place)) }
{
    put_zeros(&mut row[place..]);
}
