ghost use Rattle.std.specs.Prelude.{◌≡◌, ◌≤◌, ◌<◌, ℕ, List, OnErr, OnOk, IfOk, IfErr, length};
ghost use Rattle.folders.specs.Formatting.{AreOpened, EndsInFault, HasGateOpened, HaveRoom, MakesOnly, OpensGate, StopsOpening};
ghost use Rattle.folders.specs.Layout.{WritesZeros};
ghost use Rattle.log_folders.specs.Formatting.{AreClosed, AreLaidOutTogether, IsLaidOutClosed, OpensNoGate, StopsLaying};
ghost use Rattle.log_folders.specs.NewSets.{header_for, size_for};

use crate::new_set::NewSet;
use disk::{Boot, Disk, DiskFault};
use folders::LayFault;
use torn_block::{DISKS, OPEN_GATE};

/// How many zeros are written at once.
pub(crate) const CHUNK: usize = 4096;

/// Writes the images of a set with no blocks. Only once each of them is whole and synced the first gate is opened. Where a call fails no other
/// is made.
pub fn lay_out<D: Disk>(devices: &mut [D], set: &NewSet) -> Result<(), LayFault>
    requires as_many { length devices.old ≡ set.now.config.disks }
    requires large { HaveRoom D.device (size_for set.now) devices.old }
    ensures laid_out { OnOk result (AreLaidOutTogether D.gives set.now devices.old devices.new) }
    ensures stopped { IfErr result (StopsLaying D.gives set.now devices.old devices.new) }
{
    let boots = write_images(devices, set)?;
    open_gates(devices, set, &boots)
}

/// Writes the images with closed gates, and tells under which boots of their disks.
fn write_images<D: Disk>(
    devices: &mut [D],
    set: &NewSet,
) -> Result<[Boot; DISKS as usize], LayFault>
    requires as_many { length devices.old ≡ set.now.config.disks }
    requires large { HaveRoom D.device (size_for set.now) devices.old }
    ensures whole { IfOk result (λ boots.
        AreClosed D.gives set.now boots set.now.config.disks devices.old devices.new) }
    ensures large { OnOk result (HaveRoom D.device (size_for set.now) devices.new) }
    ensures stopped { IfErr result (StopsLaying D.gives set.now devices.old devices.new) }
    ensures as_many { OnOk result (length devices.new ≡ length devices.old) }
{
    let mut boots = [Boot { number: 0 }; DISKS as usize];
    for disk in 0..set.disks() {
        let boot = write_image(&mut devices[usize::from(disk)], set, disk)?;
        boots[usize::from(disk)] = boot;
    }
    Ok(boots)
}

/// Opens the gates of images that are whole.
fn open_gates<D: Disk>(
    devices: &mut [D],
    set: &NewSet,
    boots: &[Boot; DISKS as usize],
) -> Result<(), LayFault>
    requires as_many { length devices.old ≡ set.now.config.disks }
    requires large { HaveRoom D.device 1 devices.old }
    ensures opened { OnOk result (AreOpened D.gives boots.now set.now.config.disks devices.old devices.new) }
    ensures stopped { IfErr result (StopsOpening D.gives set.now.config devices.old devices.new) }
{
    for disk in 0..set.disks() {
        let boot = boots[usize::from(disk)];
        open_gate(&mut devices[usize::from(disk)], boot, disk)?;
    }
    Ok(())
}

/// Writes the image of this disk with no blocks and a closed gate, and makes sure of it.
fn write_image<D: Disk>(device: &mut D, set: &NewSet, disk: u8) -> Result<Boot, LayFault>
    requires disk { disk < set.now.config.disks }
    requires large { size_for set.now ≤ (D.device device.old).size }
    ensures whole { IfOk result (λ boot.
        IsLaidOutClosed D.gives (size_for set.now) (header_for set.now disk) boot.number device.old device.new) }
    ensures fault { IfErr result (λ why. why ≡ LayFault.NotWhole disk) }
    ensures failed { OnErr result (
        EndsInFault D.gives (OpensNoGate (header_for set.now disk)) device.old device.new) }
    ensures closed { MakesOnly D.gives (OpensNoGate (header_for set.now disk)) device.old device.new }
    ensures device { D.device device.new ≡ D.device device.old }
{
    match put_closed(device, set, disk) {
        Ok(boot) => Ok(boot),
        Err(_) => Err(LayFault::NotWhole(disk)),
    }
}

/// The image is put there, by so many calls. Where one fails no other is made.
fn put_closed<D: Disk>(device: &mut D, set: &NewSet, disk: u8) -> Result<Boot, DiskFault>
    requires disk { disk < set.now.config.disks }
    requires large { size_for set.now ≤ (D.device device.old).size }
    ensures whole { IfOk result (λ boot.
        IsLaidOutClosed D.gives (size_for set.now) (header_for set.now disk) boot.number device.old device.new) }
    ensures failed { OnErr result (
        EndsInFault D.gives (OpensNoGate (header_for set.now disk)) device.old device.new) }
    ensures closed { MakesOnly D.gives (OpensNoGate (header_for set.now disk)) device.old device.new }
    ensures device { D.device device.new ≡ D.device device.old }
{
    let size = set.image_size();
    let boot = device.attach()?;
    put_zeros(device, boot, size)?;
    device.sync(boot)?;
    let mut bytes = set.first_bytes(disk);
    bytes[0] = 0;
    device.write(boot, 0, &bytes)?;
    device.sync(boot)?;
    Ok(boot)
}

/// Opens the gate of this disk's image, and makes sure of it.
fn open_gate<D: Disk>(device: &mut D, boot: Boot, disk: u8) -> Result<(), LayFault>
    requires { 1 ≤ (D.device device.old).size }
    ensures opened { OnOk result (HasGateOpened D.gives device.old boot.number device.new) }
    ensures fault { IfErr result (λ why. why ≡ LayFault.NotOpened disk) }
    ensures failed { OnErr result (EndsInFault D.gives OpensGate device.old device.new) }
    ensures only { MakesOnly D.gives OpensGate device.old device.new }
    ensures device { D.device device.new ≡ D.device device.old }
{
    match put_gate(device, boot) {
        Ok(()) => Ok(()),
        Err(_) => Err(LayFault::NotOpened(disk)),
    }
}

fn put_gate<D: Disk>(device: &mut D, boot: Boot) -> Result<(), DiskFault>
    requires { 1 ≤ (D.device device.old).size }
    ensures opened { OnOk result (HasGateOpened D.gives device.old boot.number device.new) }
    ensures failed { OnErr result (EndsInFault D.gives OpensGate device.old device.new) }
    ensures only { MakesOnly D.gives OpensGate device.old device.new }
    ensures device { D.device device.new ≡ D.device device.old }
{
    device.write(boot, 0, &[OPEN_GATE])?;
    device.sync(boot)
}

/// The disk is all zeros, up to this size.
pub fn put_zeros<D: Disk>(device: &mut D, boot: Boot, size: u64) -> Result<(), DiskFault>
    requires { size ≤ (D.device device.old).size }
    ensures zeros { OnOk result (WritesZeros D.gives boot.number 0 size device.old device.new) }
    ensures failed { OnErr result ((header : List ℕ) →
        EndsInFault D.gives (OpensNoGate header) device.old device.new) }
    ensures closed { (header : List ℕ) → MakesOnly D.gives (OpensNoGate header) device.old device.new }
    ensures device { D.device device.new ≡ D.device device.old }
{
    let zeros = [0; CHUNK];
    let mut at = 0;
    while at < size {
        let len = (size - at).min(CHUNK as u64);
        device.write(boot, at, &zeros[..len as usize])?;
        at += len;
    }
    Ok(())
}
