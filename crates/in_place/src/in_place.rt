ghost use Rattle.std.specs.Prelude.{◌≡◌, ◌≢◌, ◌⊎◌, ◌<◌, ◌≤◌, ◌↔◌, ℕ, List, IfOk, IfErr, OnOk, min, if◌then◌else◌};
ghost use Rattle.lock_command.specs.declared.number.TheConstants.{HOSTS};
ghost use Rattle.torn_block.specs.Layout.{cluster_version};
ghost use Rattle.paxos_block.specs.Headers.{IsFormatted};
ghost use Rattle.endless_image.specs.Headers.{IsEndlessHeader};
ghost use Rattle.endless_image.specs.Sizes.{size_of};
ghost use Rattle.folders.specs.Folders.{IsLockFault};
ghost use Rattle.folders.specs.Headers.{IsOld};
ghost use Rattle.folders.specs.declared.fault.FolderFault.TheVariants.{NoMemory};
ghost use Rattle.in_place.specs.InPlaceFolders.{AreLong, AreOwn, CameTo, HoldsAll, IsMakingFault, IsOfWholeSet, IsOwn, IsTooShort, MayNotMake, WereMadeEndless};
ghost use Rattle.in_place.specs.declared.in_place_fault.InPlaceFault.TheVariants.{Folder, Lock, Renewed, TooFewSlots};

use crate::in_place_disk::{MakeFault, found_in};
use crate::in_place_disks::make_all_endless;
use crate::in_place_fault::InPlaceFault;
use crate::in_place_set::{WholeSet, whole_set};
use disk::{Disk, FileDisk, ImageFault};
use endless_image::{EndlessHeader, LEAST_SLOTS, Progress, image_size, told_size};
use folders::{
    FolderFault, LockFault, TryLock, find_folder, first_bytes, image_header, image_path,
    length_in_header, lock_host, open_folder_to_read,
};
use lock_command::{HOSTS, HostNumber};
use paxos_block::image_length;
use std::fs::{OpenFile, OpenOptions};
use std::io;
use std::os::unix::fs::{FileExt, FileTypeExt};
use std::path::Path;
use std::rt::Files;
use torn_block::{ClusterLayout, DISKS, HEADER_LENGTH};

// The file by which a folder names the images that its table was carried over to.
const RENEWED: &str = "renewed";

/// What making a folder endless came to.
#[derive(Clone, Copy, Debug, PartialEq, Eq)]
pub enum MadeEndless {
    /// So many images are of a log without an end now, with so many slots an epoch.
    Made { disks: u8, slots: u32 },
    /// So many images were already. All are synced now.
    Already { disks: u8 },
}

/// Makes the images of a folder of a log that ends those of a log without an end, in place. What is in the log stays there. Nobody works on the folder:
/// every host's number is locked meanwhile.
///
/// All images of the set have to be there. Their files are made longer, and where that fails they are cut again. Where it is ended later than that, the next
/// run goes on. Until then no program uses the images that were changed.
pub fn make_folder_endless<R: Files + AllocGlobal>(
    rt: &R,
    folder: &str,
) -> Result<MadeEndless, InPlaceFault>
where
    R::File: FileExt + OpenFile + TryLock + Drop,
    ensures came_to { IfOk result CameTo }
    ensures locked { OnOk result ((locks : List _) × HoldsAll R.File.locked locks) }
    ensures fault { IfErr result MayNotMake }
{
    let found = find_folder(rt, folder)?;
    let folder = found.as_str();
    refuse_short(rt, folder)?;
    // In a folder that is refused no lock's file is made. So the images are looked at before that, too.
    set_in(rt, folder)?;
    let _locks = lock_hosts(rt, folder)?;
    make_locked(rt, folder)
}

/// Refuses a log that ends if its slots are too few for an epoch.
fn refuse_short<R: Files + AllocGlobal>(rt: &R, folder: &str) -> Result<(), InPlaceFault>
where
    R::File: FileExt + OpenFile + Drop,
    ensures { IfErr result (λ fault. (fault ≡ TooFewSlots) × IsTooShort) }
{
    match open_folder_to_read(rt, folder) {
        Ok(images) => {
            if u32::from(images.config.slots()) < LEAST_SLOTS {
                return Err(InPlaceFault::TooFewSlots);
            }
            Ok(())
        }
        // Why it is not opened is told by whoever looks for a set next.
        Err(_) => Ok(()),
    }
}

/// Locks every host's number, if nobody works under one of them.
pub(crate) fn lock_hosts<R: Files + AllocGlobal>(
    rt: &R,
    folder: &str,
) -> Result<Vec<R::File>, LockFault>
where
    R::File: TryLock + Drop,
    ensures locked { IfOk result (λ locks. HoldsAll R.File.locked locks.items) }
    ensures fault { IfErr result (λ fault. (host : ℕ) × (host < HOSTS) × IsLockFault host fault) }
{
    let mut locks = Vec::with_capacity(rt.alloc(), HOSTS)?;
    for number in 0..HOSTS {
        let lock = lock_number(rt, folder, number as u8)?;
        locks.push_reserved(lock);
    }
    Ok(locks)
}

fn lock_number<R: Files + AllocGlobal>(
    rt: &R,
    folder: &str,
    number: u8,
) -> Result<R::File, LockFault>
where
    R::File: TryLock + Drop,
    requires { number < HOSTS }
    ensures locked { IfOk result R.File.locked }
    ensures fault { IfErr result (IsLockFault number) }
{
    match HostNumber::new(number) {
        Some(host) => lock_host(rt, folder, host),
        None => unreachable!(),
    }
}

/// Refuses a folder whose table was carried over into another one: both logs would go on.
fn refuse_renewed<R: Files + AllocGlobal>(rt: &R, folder: &str) -> Result<(), InPlaceFault>
    ensures { IfErr result (λ fault. (fault ≡ Folder NoMemory) ⊎ (fault ≡ Renewed)) }
{
    let path = Path::new(folder).join(rt.alloc(), RENEWED)?;
    if rt.symlink_metadata(path.as_str()).is_ok() {
        return Err(InPlaceFault::Renewed);
    }
    Ok(())
}

/// The same in a folder in which every host's number is locked.
fn make_locked<R: Files + AllocGlobal>(rt: &R, folder: &str) -> Result<MadeEndless, InPlaceFault>
where
    R::File: FileExt + OpenFile + Drop,
    ensures came_to { IfOk result CameTo }
    ensures fault { IfErr result MayNotMake }
{
    refuse_renewed(rt, folder)?;
    let set = set_in(rt, folder)?;
    make_images(rt, folder, &set.header)?;
    let disks = set.header.disks;
    if set.is_endless {
        return Ok(MadeEndless::Already { disks });
    }
    Ok(MadeEndless::Made {
        disks,
        slots: set.header.slots,
    })
}

/// The set that the images of a folder are.
fn set_in<R: Files + AllocGlobal>(rt: &R, folder: &str) -> Result<WholeSet, FolderFault>
where
    R::File: FileExt + OpenFile + Drop,
    ensures set { IfOk result IsOfWholeSet }
    ensures header { IfOk result (λ set. IsEndlessHeader set.header) }
    ensures fault { IfErr result IsMakingFault }
{
    let found = look_at_images(rt, folder)?;
    let set = whole_set(&found)?;
    Ok(set)
}

/// How far each image is that there may be, or why it cannot be made endless.
fn look_at_images<R: Files + AllocGlobal>(
    rt: &R,
    folder: &str,
) -> Result<[Result<Progress, ImageFault>; DISKS as usize], FolderFault>
where
    R::File: FileExt + OpenFile + Drop,
    ensures own { IfOk result AreOwn }
    ensures fault { IfErr result (λ fault. fault ≡ NoMemory) }
{
    let mut found = [Err(ImageFault::Unreadable); DISKS as usize];
    for disk in 0..found.len() {
        let path = image_path(rt.alloc(), folder, disk as u8)?;
        let image = look_at_image(rt, path.as_str(), disk as u8);
        found[disk] = image;
    }
    Ok(found)
}

/// How far the image at this path is, or why it cannot be made endless. Nothing but a file or a block device is opened.
fn look_at_image<R: Files>(files: &R, path: &str, disk: u8) -> Result<Progress, ImageFault>
where
    R::File: FileExt + OpenFile + Drop,
    ensures { IfOk result (IsOwn disk) }
{
    if !is_file_or_device(files, path) {
        return Err(ImageFault::Unreadable);
    }
    let mut device = FileDisk::open_to_read(files, path)?;
    let Ok(bytes) = first_bytes(&mut device) else {
        return Err(ImageFault::Unreadable);
    };
    let size = device.size();
    let is_device = device.is_block_device();
    match found_in(
        disk,
        used_length(size, is_device, told_size(&bytes)),
        &bytes,
    ) {
        Some(progress) => Ok(progress),
        None => Err(fault_in(
            disk,
            used_length(size, is_device, length_in_header(&bytes)),
            &bytes,
        )),
    }
}

fn is_file_or_device<R: Files>(files: &R, path: &str) -> bool {
    match files.metadata(path) {
        Ok(metadata) => metadata.is_file() || metadata.file_type().is_block_device(),
        Err(_) => false,
    }
}

/// How long an image is: of a file all, and of a block device as much as its first bytes tell.
fn used_length(size: u64, is_device: bool, told: u64) -> u64
    ensures { result ≡ (if is_device then min told size else size) }
{
    if is_device { told.min(size) } else { size }
}

/// Why an image that is none of these cannot be used.
fn fault_in(disk: u8, long: u64, bytes: &[u8; HEADER_LENGTH]) -> ImageFault
    ensures not_formatted { (result ≡ ImageFault.NotFormatted) ↔ ((HEADER_LENGTH ≤ long) × ¬ IsFormatted bytes.now) }
    ensures old_layout { (result ≡ ImageFault.OldLayout) ↔ IsOld cluster_version disk long bytes.now }
    ensures readable { result ≢ ImageFault.Unreadable }
{
    match image_header::<ClusterLayout>(disk, long, bytes) {
        Ok(_) => ImageFault::WrongHeader,
        Err(fault) => fault,
    }
}

/// Makes the images of a set endless, once they are as long as they will be. Where it fails before a header was changed, files are cut again.
fn make_images<R: Files + AllocGlobal>(
    rt: &R,
    folder: &str,
    set: &EndlessHeader,
) -> Result<(), FolderFault>
where
    R::File: FileExt + OpenFile + Drop,
    requires { IsEndlessHeader set.now }
    ensures made { OnOk result (WereMadeEndless set.now) }
    ensures fault { IfErr result IsMakingFault }
{
    let mut devices = match long_devices(rt, folder, set) {
        Ok(devices) => devices,
        Err(fault) => {
            cut_files(rt, folder, set.disks);
            return Err(fault);
        }
    };
    match make_all_endless(&mut devices, set) {
        Ok(()) => Ok(()),
        Err(MakeFault::Refused { disk, fault }) => {
            cut_files(rt, folder, set.disks);
            Err(FolderFault::Image { disk, fault })
        }
        Err(MakeFault::NotReady(disk)) => {
            cut_files(rt, folder, set.disks);
            Err(unreadable(disk))
        }
        Err(MakeFault::NotMade(disk)) => Err(unreadable(disk)),
    }
}

fn unreadable(disk: u8) -> FolderFault
    ensures { result ≡ FolderFault.Image disk ImageFault.Unreadable }
{
    FolderFault::Image {
        disk,
        fault: ImageFault::Unreadable,
    }
}

/// The disks of a set, as long as the new images.
fn long_devices<R: Files + AllocGlobal>(
    rt: &R,
    folder: &str,
    set: &EndlessHeader,
) -> Result<Vec<FileDisk<R::File>>, FolderFault>
where
    R::File: FileExt + OpenFile + Drop,
    ensures long { IfOk result (λ devices. AreLong set.now devices.items) }
    ensures fault { IfErr result IsMakingFault }
{
    let size = image_size(set.slots);
    let mut devices = Vec::with_capacity(rt.alloc(), usize::from(set.disks))?;
    for disk in 0..set.disks {
        let device = long_device(rt, folder, disk, size)?;
        devices.push_reserved(device);
    }
    Ok(devices)
}

fn long_device<R: Files + AllocGlobal>(
    rt: &R,
    folder: &str,
    disk: u8,
    size: u64,
) -> Result<FileDisk<R::File>, FolderFault>
where
    R::File: FileExt + OpenFile + Drop,
    ensures long { IfOk result (λ device. device.size ≡ size) }
    ensures fault { IfErr result IsMakingFault }
{
    let path = image_path(rt.alloc(), folder, disk)?;
    match open_long(rt, path.as_str(), size) {
        Ok(device) => Ok(device),
        Err(_) => Err(unreadable(disk)),
    }
}

/// Opens the file or block device of an image as a disk of this size. A file that is shorter is made longer.
fn open_long<R: Files>(files: &R, path: &str, size: u64) -> Result<FileDisk<R::File>, ImageFault>
where
    R::File: FileExt + OpenFile + Drop,
    ensures { IfOk result (λ device. device.size ≡ size) }
{
    if make_longer(files, path, size).is_err() {
        return Err(ImageFault::Unreadable);
    }
    let mut device = FileDisk::open(files, path)?;
    if device.is_block_device() {
        let used = size.min(device.size());
        device.cut(used);
    }
    if device.size() != size {
        return Err(ImageFault::Unreadable);
    }
    Ok(device)
}

fn make_longer<R: Files>(files: &R, path: &str, size: u64) -> io::Result<()>
where
    R::File: OpenFile + Drop,
{
    let file = OpenOptions::new().read(true).write(true).open(files, path)?;
    let metadata = file.metadata()?;
    if metadata.is_file() && metadata.len() < size {
        file.set_len(size)?;
    }
    Ok(())
}

/// Cuts the files of images that are of a log that ends, as long as they had been made, to what they were. It does so as far as it can.
fn cut_files<R: Files + AllocGlobal>(rt: &R, folder: &str, disks: u8)
where
    R::File: FileExt + OpenFile + Drop,
{
    for disk in 0..disks {
        if let Ok(path) = image_path(rt.alloc(), folder, disk) {
            let _ = cut_file(rt, path.as_str(), disk);
        }
    }
}

fn cut_file<R: Files>(files: &R, path: &str, disk: u8) -> io::Result<()>
where
    R::File: FileExt + OpenFile + Drop,
{
    let Ok(Progress::Ending(header)) = look_at_image(files, path, disk) else {
        return Ok(());
    };
    let file = OpenOptions::new().read(true).write(true).open(files, path)?;
    let metadata = file.metadata()?;
    if metadata.is_file() && metadata.len() == image_size(header.slots) {
        file.set_len(image_length::<ClusterLayout>(header.slots))?;
    }
    Ok(())
}
