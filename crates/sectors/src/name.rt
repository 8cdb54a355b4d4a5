// The name of a machine, in the sector of a host's heartbeat block.
ghost use Rattle.std.specs.Prelude.{◌≡◌, ◌↔◌, ◌-◌, ◌≤◌, ◌^◌, length, IsErr, OnOk, OnErr};
ghost use Rattle.sectors.specs.Names.{name_of, sector_naming};
ghost use Rattle.sectors.specs.Sector.{stamp_of};

use crate::number::NUMBER_LENGTH;
use crate::sector::{STAMPED_LENGTH, StampSpent, stamp_in};
use torn_block::{BLOCK_LENGTH, put_number};

/// The bytes of a machine's name.
pub const NAME_LENGTH: usize = 16;

/// The bytes of a sector that say something where it has a name: its block, its stamp and the name.
pub const NAMED_LENGTH: usize = STAMPED_LENGTH + NAME_LENGTH;

/// The name of a machine. Where it is zeros, it is nobody's.
#[derive(Clone, Copy, Debug, PartialEq, Eq)]
pub struct MachineName {
    pub bytes: [u8; NAME_LENGTH],
}

/// The name that a sector has.
pub fn name_in(sector: &[u8]) -> MachineName
    requires { NAMED_LENGTH ≤ length sector.now }
    ensures { result ≡ name_of sector.now }
{
    let mut bytes = [0; NAME_LENGTH];
    bytes.copy_from_slice(&sector[STAMPED_LENGTH..NAMED_LENGTH]);
    MachineName { bytes }
}

/// Puts a name into a sector, and the next stamp before it. The block stays.
pub fn put_name(sector: &mut [u8], name: &MachineName) -> Result<(), StampSpent>
    requires { NAMED_LENGTH ≤ length sector.old }
    ensures put { OnOk result (sector.new ≡ sector_naming name.now sector.old) }
    ensures spent { IsErr result ↔ (stamp_of sector.old ≡ 2 ^ 64 - 1) }
    ensures kept { OnErr result (sector.new ≡ sector.old) }
{
    let Some(stamp) = stamp_in(sector).checked_add(1) else {
        return Err(StampSpent);
    };
    let (_, rest) = sector.split_at_mut(BLOCK_LENGTH);
    let (number, behind) = rest.split_at_mut(NUMBER_LENGTH);
    let (named, _) = behind.split_at_mut(NAME_LENGTH);
    put_number(number, stamp);
    named.copy_from_slice(&name.bytes);
    Ok(())
}
