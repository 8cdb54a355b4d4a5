// A sector: a block as an image has it, its stamp, and bytes that nobody looks at.
ghost use Rattle.std.specs.Prelude.{◌≡◌, ◌↔◌, ◌+◌, ◌-◌, ◌≤◌, ◌^◌, length, IsErr, OnOk, OnErr};
ghost use Rattle.disk.specs.Disk.{put_at};
ghost use Rattle.sectors.specs.Sector.{stamp_of, sector_with};

use crate::number::{NUMBER_LENGTH, number_in};
use thiserror::Error;
use torn_block::{BLOCK_LENGTH, put_number};

/// The bytes of a sector that say something: its block and its stamp.
pub const STAMPED_LENGTH: usize = BLOCK_LENGTH + NUMBER_LENGTH;

/// The sector's stamp is 2^64 - 1, so there is no greater one.
#[derive(Clone, Copy, Debug, PartialEq, Eq, Error)]
#[error("the sector's stamps are spent")]
pub struct StampSpent;

/// The sector's stamp: how many writes it has had.
pub fn stamp_in(sector: &[u8]) -> u64
    requires { STAMPED_LENGTH ≤ length sector.now }
    ensures { result ≡ stamp_of sector.now }
{
    number_in(&sector[BLOCK_LENGTH..])
}

/// Puts bytes into the block of a sector, and the next stamp behind it.
pub fn put_in(sector: &mut [u8], offset: usize, from: &[u8]) -> Result<(), StampSpent>
    requires sector { STAMPED_LENGTH ≤ length sector.old }
    requires range { offset + length from.now ≤ BLOCK_LENGTH }
    ensures put { OnOk result (sector.new ≡ sector_with offset from.now sector.old) }
    ensures spent { IsErr result ↔ (stamp_of sector.old ≡ 2 ^ 64 - 1) }
    ensures kept { OnErr result (sector.new ≡ sector.old) }
{
    let Some(stamp) = stamp_in(sector).checked_add(1) else {
        return Err(StampSpent);
    };
    let (block, rest) = sector.split_at_mut(BLOCK_LENGTH);
    put_bytes(block, offset, from);
    let (number, _) = rest.split_at_mut(NUMBER_LENGTH);
    put_number(number, stamp);
    Ok(())
}

// Puts bytes into a block, from a place on.
fn put_bytes(block: &mut [u8], offset: usize, from: &[u8])
    requires { offset + length from.now ≤ length block.old }
    ensures { block.new ≡ put_at block.old offset from.now }
{
    block[offset..offset + from.len()].copy_from_slice(from);
}
