ghost use Rattle.std.specs.Prelude.{◌≡◌, ◌≤◌, ◌+◌, ◌<◌, ◌∷◌, [], ℕ, OnOk, IfErr};
ghost use Rattle.disk.specs.Disk.{Write, Sync};
ghost use Rattle.torn_block.specs.declared.layout.TheConstants.{HEADER_LENGTH};
ghost use Rattle.endless_image.specs.InPlace.{AllDone, StopsBy, making, finishing};

use crate::header::{ENDLESS_VERSION, MARK_AT, VERSION_AT};
use disk::{Boot, Disk, DiskFault};

// What is written to mark an image. Whatever a torn write makes of it is a mark too, unless it is 0.
const MARKED: u8 = 1;

/// Makes an image of a log that ends one of a log without an end, once it is as long as that, what follows the old image is zeros, and all of it is synced.
/// Three bytes of its header are written, each by itself. Where a call fails no other is made.
pub fn make_endless<D: Disk>(device: &mut D, boot: Boot) -> Result<(), DiskFault>
    requires { HEADER_LENGTH ≤ (D.device device.old).size }
    ensures made { OnOk result (AllDone D.gives (making boot.number) device.old device.new) }
    ensures stopped { IfErr result (λ fault. StopsBy D.gives (making boot.number) fault device.old device.new) }
    ensures device { D.device device.new ≡ D.device device.old }
{
    device.write(boot, MARK_AT as u64, &[MARKED])?;
    finish_endless(device, boot)
}

/// The same of an image that is marked: an earlier run stopped, and what it wrote last may not be synced yet.
pub fn finish_endless<D: Disk>(device: &mut D, boot: Boot) -> Result<(), DiskFault>
    requires { HEADER_LENGTH ≤ (D.device device.old).size }
    ensures made { OnOk result (AllDone D.gives (finishing boot.number) device.old device.new) }
    ensures stopped { IfErr result (λ fault. StopsBy D.gives (finishing boot.number) fault device.old device.new) }
    ensures device { D.device device.new ≡ D.device device.old }
{
    device.sync(boot)?; // the mark
    device.write(boot, VERSION_AT as u64, &[ENDLESS_VERSION])?;
    device.sync(boot)?; // the version
    device.write(boot, MARK_AT as u64, &[0])?;
    device.sync(boot)
}
