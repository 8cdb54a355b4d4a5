ghost use Rattle.std.specs.Prelude.{◌≡◌, ◌≤◌, IfOk, IfErr, OnOk, length};
ghost use Rattle.torn_block.specs.declared.layout.TheConstants.{DISKS, HEADER_LENGTH};
ghost use Rattle.endless_image.specs.Sizes.{size_of};
ghost use Rattle.folders.specs.Finishing.{HaveSize};
ghost use Rattle.folders.specs.Formatting.{HaveRoom};
ghost use Rattle.in_place.specs.InPlaceImages.{AreChanged, AreFound, AreMadeEndless, AreReady, StopsChanging, StopsLooking, StopsMaking, StopsReadying};

use crate::in_place_disk::{Due, MakeFault, change_header, look_at, make_ready};
use disk::Disk;
use endless_image::EndlessHeader;
use torn_block::DISKS;

/// Makes the images of a set endless in place, on disks that are as long as the new images. All are of the set whose header is given, but for the number
/// of the disk and the first epoch. What an earlier run has left goes on from there.
///
/// All images are looked at first, and their disks are synced. Then room is made behind those of a log that ends. Only then headers are changed.
pub fn make_all_endless<D: Disk>(devices: &mut [D], set: &EndlessHeader) -> Result<(), MakeFault>
    requires few { length devices.old ≤ DISKS }
    requires sizes { HaveSize D.device (size_of set.now.slots) devices.old }
    ensures made { OnOk result (AreMadeEndless D.gives set.now devices.old devices.new) }
    ensures stopped { IfErr result (StopsMaking D.gives set.now devices.old devices.new) }
{
    let due = look_at_all(devices, set)?;
    make_all_ready(devices, set.slots, &due)?;
    change_all(devices, &due)
}

/// What is due on each image. Nothing is written.
fn look_at_all<D: Disk>(
    devices: &mut [D],
    set: &EndlessHeader,
) -> Result<[Due; DISKS as usize], MakeFault>
    requires few { length devices.old ≤ DISKS }
    requires sizes { HaveSize D.device (size_of set.now.slots) devices.old }
    ensures found { IfOk result (λ due. AreFound D.gives set.now due devices.old devices.new) }
    ensures sizes { OnOk result (HaveSize D.device (size_of set.now.slots) devices.new) }
    ensures as_many { OnOk result (length devices.new ≡ length devices.old) }
    ensures stopped { IfErr result (StopsLooking D.gives set.now devices.old devices.new) }
{
    let mut due = [Due::Nothing; DISKS as usize];
    for disk in 0..devices.len() {
        let one = look_at(&mut devices[disk], set, disk as u8)?;
        due[disk] = one;
    }
    Ok(due)
}

/// Makes room behind each image of a log that ends.
fn make_all_ready<D: Disk>(
    devices: &mut [D],
    slots: u32,
    due: &[Due; DISKS as usize],
) -> Result<(), MakeFault>
    requires few { length devices.old ≤ DISKS }
    requires sizes { HaveSize D.device (size_of slots) devices.old }
    ensures ready { OnOk result (AreReady D.gives slots due.now devices.old devices.new) }
    ensures sizes { OnOk result (HaveSize D.device (size_of slots) devices.new) }
    ensures as_many { OnOk result (length devices.new ≡ length devices.old) }
    ensures stopped { IfErr result (StopsReadying D.gives slots due.now devices.old devices.new) }
{
    for disk in 0..devices.len() {
        make_ready(&mut devices[disk], slots, due[disk], disk as u8)?;
    }
    Ok(())
}

/// Makes the calls that are due on the header of each image.
fn change_all<D: Disk>(devices: &mut [D], due: &[Due; DISKS as usize]) -> Result<(), MakeFault>
    requires few { length devices.old ≤ DISKS }
    requires large { HaveRoom D.device HEADER_LENGTH devices.old }
    ensures changed { OnOk result (AreChanged D.gives due.now devices.old devices.new) }
    ensures stopped { IfErr result (StopsChanging D.gives due.now devices.old devices.new) }
{
    for disk in 0..devices.len() {
        change_header(&mut devices[disk], due[disk], disk as u8)?;
    }
    Ok(())
}
