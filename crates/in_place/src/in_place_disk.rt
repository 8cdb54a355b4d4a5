ghost use Rattle.std.specs.Prelude.{◌≡◌, ◌≤◌, ◌↔◌, ℕ, Some, IfSome, IfNone, IfOk, IfErr, OnErr, OnOk};
ghost use Rattle.torn_block.specs.declared.layout.TheConstants.{HEADER_LENGTH};
ghost use Rattle.endless_image.specs.InPlace.{AllDone, StopsBy};
ghost use Rattle.endless_image.specs.Sets.{IsSameSet};
ghost use Rattle.endless_image.specs.Sizes.{area_size, size_of};
ghost use Rattle.endless_image.specs.declared.progress.Progress.{Progress as Far};
ghost use Rattle.disk.specs.declared.fault.DiskFault.{DiskFault as Cause};
ghost use Rattle.disk.specs.declared.fault.ImageFault.{ImageFault as Refusal};
ghost use Rattle.folders.specs.Layout.{WritesZeros};
ghost use Rattle.in_place.specs.InPlaceImages.{FailsToExtend, FailsToTellSurely, FailsToWriteZeros, IsAt, IsExtendedBy, IsFound, IsMadeReady, IsNotFound, IsNotReady, TellsSurely, becomes, calls_of, due_of};

use disk::{Boot, Disk, DiskFault, ImageFault};
use endless_image::{
    EndlessHeader, Progress, check_set, finish_endless, image_size, make_endless, progress_in,
};
use paxos_block::image_length;
use torn_block::{ClusterLayout, HEADER_LENGTH};

// How many zeros are written at once.
const CHUNK: usize = 4096;

/// What is due on an image, and the boot number that its disk had when it was looked at.
#[derive(Clone, Copy, Debug, PartialEq, Eq)]
pub enum Due {
    /// Nothing: it is of a log without an end.
    Nothing,
    /// All: it is of a log that ends.
    Make(Boot),
    /// The rest: an earlier run marked it.
    Finish(Boot),
}

/// Why the images of a set were not made endless, with the number of the disk that is at fault.
#[derive(Clone, Copy, Debug, PartialEq, Eq)]
pub enum MakeFault {
    /// Its image is none of the set, or a call failed that looked at it. Nothing was written.
    Refused { disk: u8, fault: ImageFault },
    /// A call failed that was to make room behind the old image. No header was changed.
    NotReady(u8),
    /// There is room behind each image. A call failed that was to change this one's header.
    NotMade(u8),
}

/// How far an image is: what `progress_in` says, as one clause.
pub(crate) fn found_in(disk: u8, long: u64, bytes: &[u8; HEADER_LENGTH]) -> Option<Progress>
    ensures { (progress : Far) → (result ≡ Some progress) ↔ IsAt disk long bytes.now progress }
{
    progress_in(disk, long, bytes)
}

/// The header that an image has in the end.
pub(crate) fn header_in_end(progress: &Progress) -> EndlessHeader
    ensures { result ≡ becomes progress.now }
{
    match *progress {
        Progress::Ending(header) => EndlessHeader {
            disk: header.disk,
            disks: header.disks,
            slots: header.slots,
            cluster: header.cluster,
            first_epoch: 0,
        },
        Progress::Marked(header) => header,
        Progress::Endless(header) => header,
    }
}

/// Looks at an image of this set, once all is sure that was written before. The disk is as long as the image will be.
pub(crate) fn look_at<D: Disk>(
    device: &mut D,
    set: &EndlessHeader,
    disk: u8,
) -> Result<Due, MakeFault>
    requires { (D.device device.old).size ≡ size_of set.now.slots }
    ensures found { IfOk result (λ due. IsFound D.gives set.now disk due device.old device.new) }
    ensures refused { IfErr result (λ why. (fault : Refusal) × (why ≡ MakeFault.Refused disk fault) × IsNotFound D.gives set.now disk device.old device.new fault) }
    ensures device { D.device device.new ≡ D.device device.old }
{
    match find_due(device, set, disk) {
        Ok(due) => Ok(due),
        Err(fault) => Err(MakeFault::Refused { disk, fault }),
    }
}

fn find_due<D: Disk>(device: &mut D, set: &EndlessHeader, disk: u8) -> Result<Due, ImageFault>
    requires { (D.device device.old).size ≡ size_of set.now.slots }
    ensures found { IfOk result (λ due. IsFound D.gives set.now disk due device.old device.new) }
    ensures refused { IfErr result (IsNotFound D.gives set.now disk device.old device.new) }
    ensures device { D.device device.new ≡ D.device device.old }
{
    let long = device.size();
    let mut bytes = [0; HEADER_LENGTH];
    match sure_bytes(device, &mut bytes) {
        Ok(boot) => due_by(set, disk, long, &bytes, boot),
        Err(_) => Err(ImageFault::Unreadable),
    }
}

/// Reads the first bytes of a device, once all is sure that was written before, and gives its boot number. Where a call fails no other is made.
fn sure_bytes<D: Disk>(device: &mut D, bytes: &mut [u8; HEADER_LENGTH]) -> Result<Boot, DiskFault>
    requires { HEADER_LENGTH ≤ (D.device device.old).size }
    ensures told { IfOk result (λ boot. TellsSurely D.gives boot.number bytes.new device.old device.new) }
    ensures fault { IfErr result (λ fault. FailsToTellSurely D.gives device.old fault device.new) }
    ensures device { D.device device.new ≡ D.device device.old }
{
    let boot = device.attach()?;
    device.sync(boot)?; // what was written before
    device.read(boot, 0, bytes)?;
    Ok(boot)
}

/// What is due on an image, if it is one of this set by its first bytes.
fn due_by(
    set: &EndlessHeader,
    disk: u8,
    long: u64,
    bytes: &[u8; HEADER_LENGTH],
    boot: Boot,
) -> Result<Due, ImageFault>
    ensures due { IfOk result (λ due. (progress : Far) × IsAt disk long bytes.now progress × IsSameSet (becomes progress) set.now × (due ≡ due_of boot progress)) }
    ensures none { IfErr result (λ fault. (fault ≡ ImageFault.WrongHeader) × ((progress : Far) → IsAt disk long bytes.now progress → ¬ IsSameSet (becomes progress) set.now)) }
{
    let Some(progress) = found_in(disk, long, bytes) else {
        return Err(ImageFault::WrongHeader);
    };
    if check_set(&header_in_end(&progress), set).is_err() {
        return Err(ImageFault::WrongHeader);
    }
    Ok(due_on(&progress, boot))
}

fn due_on(progress: &Progress, boot: Boot) -> Due
    ensures { result ≡ due_of boot progress.now }
{
    match progress {
        Progress::Ending(_) => Due::Make(boot),
        Progress::Marked(_) => Due::Finish(boot),
        Progress::Endless(_) => Due::Nothing,
    }
}

/// Makes room behind an image of a log that ends. Nothing is asked of the disk of any other one.
pub(crate) fn make_ready<D: Disk>(
    device: &mut D,
    slots: u32,
    due: Due,
    disk: u8,
) -> Result<(), MakeFault>
    requires { size_of slots ≤ (D.device device.old).size }
    ensures ready { OnOk result (IsMadeReady D.gives slots due device.old device.new) }
    ensures fault { IfErr result (λ why. why ≡ MakeFault.NotReady disk) }
    ensures failed { OnErr result (IsNotReady D.gives slots due device.old device.new) }
    ensures device { D.device device.new ≡ D.device device.old }
{
    match due {
        Due::Nothing => Ok(()),
        Due::Finish(_) => Ok(()),
        Due::Make(boot) => match extend(device, slots, boot) {
            Ok(()) => Ok(()),
            Err(_) => Err(MakeFault::NotReady(disk)),
        },
    }
}

/// Writes zeros behind the old image, up to the end of the new one, and makes sure of them. Where a call fails no other is made.
fn extend<D: Disk>(device: &mut D, slots: u32, boot: Boot) -> Result<(), DiskFault>
    requires { size_of slots ≤ (D.device device.old).size }
    ensures extended { OnOk result (IsExtendedBy D.gives boot.number slots device.old device.new) }
    ensures failed { IfErr result (λ fault. FailsToExtend D.gives boot.number slots device.old fault device.new) }
    ensures device { D.device device.new ≡ D.device device.old }
{
    put_zeros_behind(device, slots, boot)?;
    device.sync(boot) // the zeros
}

fn put_zeros_behind<D: Disk>(device: &mut D, slots: u32, boot: Boot) -> Result<(), DiskFault>
    requires { size_of slots ≤ (D.device device.old).size }
    ensures zeros { OnOk result (WritesZeros D.gives boot.number (area_size slots) (size_of slots) device.old device.new) }
    ensures failed { IfErr result (λ fault. FailsToWriteZeros D.gives boot.number slots device.old fault device.new) }
    ensures device { D.device device.new ≡ D.device device.old }
{
    let zeros = [0; CHUNK];
    let size = image_size(slots);
    let mut at = image_length::<ClusterLayout>(slots);
    while at < size {
        let len = (size - at).min(CHUNK as u64);
        device.write(boot, at, &zeros[..len as usize])?;
        at += len;
    }
    Ok(())
}

/// Makes the calls that are due on the header of an image.
pub(crate) fn change_header<D: Disk>(device: &mut D, due: Due, disk: u8) -> Result<(), MakeFault>
    requires { HEADER_LENGTH ≤ (D.device device.old).size }
    ensures changed { OnOk result (AllDone D.gives (calls_of due) device.old device.new) }
    ensures fault { IfErr result (λ why. why ≡ MakeFault.NotMade disk) }
    ensures failed { OnErr result ((fault : Cause) × StopsBy D.gives (calls_of due) fault device.old device.new) }
    ensures device { D.device device.new ≡ D.device device.old }
{
    match make_due_calls(device, due) {
        Ok(()) => Ok(()),
        Err(_) => Err(MakeFault::NotMade(disk)),
    }
}

fn make_due_calls<D: Disk>(device: &mut D, due: Due) -> Result<(), DiskFault>
    requires { HEADER_LENGTH ≤ (D.device device.old).size }
    ensures changed { OnOk result (AllDone D.gives (calls_of due) device.old device.new) }
    ensures stopped { IfErr result (λ fault. StopsBy D.gives (calls_of due) fault device.old device.new) }
    ensures device { D.device device.new ≡ D.device device.old }
{
    match due {
        Due::Nothing => Ok(()),
        Due::Make(boot) => make_endless(device, boot),
        Due::Finish(boot) => finish_endless(device, boot),
    }
}
