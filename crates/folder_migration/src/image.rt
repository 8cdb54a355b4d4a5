ghost use Rattle.std.specs.Prelude.{◌≡◌, ◌≤◌, OnOk};
ghost use Rattle.folder_migration.specs.Gates.{IsCleared};

use disk::{Disk, DiskFault};
use folders::put_zeros;

/// Makes a disk zeros up to this size, and makes sure of them. Where a call fails no other is made.
pub fn clear<D: Disk>(device: &mut D, size: u64) -> Result<(), DiskFault>
    requires { size ≤ (D.device device.old).size }
    ensures cleared { OnOk result (IsCleared D.gives size device.old device.new) }
    ensures device { D.device device.new ≡ D.device device.old }
{
    let boot = device.attach()?;
    put_zeros(device, boot, size)?;
    device.sync(boot)
}
