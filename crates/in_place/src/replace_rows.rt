ghost use Rattle.std.specs.Prelude.{◌≡◌, ◌≤◌, ◌<◌, IfOk, IfSome, OnErr, OnOk};
ghost use Rattle.disk.specs.Disk.{Done, Read, Told, Write};
ghost use Rattle.torn_block.specs.declared.layout.TheConstants.{ROW_LENGTH};
ghost use Rattle.standings.specs.Epochs as epochs;
ghost use Rattle.endless_image.specs.Sizes.{area_size, size_of};
ghost use Rattle.in_place.specs.Replacing.{EndsWithFault, IsNewestIn, IsNewestOfRows, TellsRows, WritesRows, blank_rows};

use disk::{Boot, Disk, DiskFault};
use standings::{decode_standings, newest, standings_place};
use torn_block::ROW_LENGTH;

/// The rows of standings of a disk: that of the first area and that of the second one.
#[derive(Clone, Copy, Debug, PartialEq, Eq)]
pub struct Rows {
    pub first: [u8; ROW_LENGTH],
    pub second: [u8; ROW_LENGTH],
}

impl Rows {
    /// Those of a disk on which no host has come to an epoch.
    pub fn blank() -> Self
        ensures { result ≡ blank_rows }
    {
        Rows {
            first: [0; ROW_LENGTH],
            second: [0; ROW_LENGTH],
        }
    }

    /// Reads those of a disk.
    pub fn read<D: Disk>(device: &mut D, slots: u16) -> Result<Self, DiskFault>
        requires { size_of slots ≤ (D.device device.old).size }
        ensures told { IfOk result (λ rows. TellsRows D.gives slots rows device.old device.new) }
        ensures device { D.device device.new ≡ D.device device.old }
    {
        let mut first = [0; ROW_LENGTH];
        let mut second = [0; ROW_LENGTH];
        let boot = device.attach()?;
        read_row(device, boot, slots, 0, &mut first)?;
        read_row(device, boot, slots, 1, &mut second)?;
        Ok(Rows { first, second })
    }

    /// Writes them on a disk.
    pub fn write<D: Disk>(&self, device: &mut D, boot: Boot, slots: u16) -> Result<(), DiskFault>
        requires { size_of slots ≤ (D.device device.old).size }
        ensures written { OnOk result (WritesRows D.gives slots boot.number self.now device.old device.new) }
        ensures failed { OnErr result (EndsWithFault D.gives device.new) }
        ensures device { D.device device.new ≡ D.device device.old }
    {
        write_row(device, boot, slots, 0, &self.first)?;
        write_row(device, boot, slots, 1, &self.second)?;
        Ok(())
    }

    /// The newest epoch to which a number of them belongs, or 0. None where a block of them is damaged.
    pub fn newest(&self) -> Option<u64>
        ensures { IfSome result (IsNewestOfRows self.now) }
    {
        let newest = newest_in(0, &self.first)?;
        let newest_of_other = newest_in(1, &self.second)?;
        Some(newest.max(newest_of_other))
    }
}

/// Reads an area's row.
fn read_row<D: Disk>(
    device: &mut D,
    boot: Boot,
    slots: u16,
    area: u8,
    row: &mut [u8; ROW_LENGTH],
) -> Result<(), DiskFault>
    requires area { area < 2 }
    requires large { size_of slots ≤ (D.device device.old).size }
    ensures told { OnOk result (D.gives device.old (Read boot.number (epochs.standings_place (area_size slots) area) ROW_LENGTH) (Told row.new) device.new) }
    ensures device { D.device device.new ≡ D.device device.old }
{
    device.read(boot, standings_place(slots, area), row)?;
    Ok(())
}

/// Writes an area's row.
fn write_row<D: Disk>(
    device: &mut D,
    boot: Boot,
    slots: u16,
    area: u8,
    row: &[u8; ROW_LENGTH],
) -> Result<(), DiskFault>
    requires area { area < 2 }
    requires large { size_of slots ≤ (D.device device.old).size }
    ensures written { OnOk result (D.gives device.old (Write boot.number (epochs.standings_place (area_size slots) area) row.now) Done device.new) }
    ensures failed { OnErr result (EndsWithFault D.gives device.new) }
    ensures device { D.device device.new ≡ D.device device.old }
{
    device.write(boot, standings_place(slots, area), row)?;
    Ok(())
}

/// The newest epoch to which a number in an area's row of standings belongs, or 0. None where a block of the row is damaged.
fn newest_in(area: u8, row: &[u8; ROW_LENGTH]) -> Option<u64>
    ensures { IfSome result (IsNewestIn area row.now) }
{
    let numbers = decode_standings(row)?;
    Some(newest(area, &numbers).unwrap_or(0))
}
