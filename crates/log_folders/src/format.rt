ghost use Rattle.std.specs.Prelude.{◌≡◌, ◌≤◌, ◌<◌, ◌⊎◌, true, IfSome, OnOk, IfOk, IfErr};
ghost use Rattle.folders.specs.SetFaults.{IsFormatFault};
ghost use Rattle.log_folders.specs.Finishing.{AreThere, WereFinished};
ghost use Rattle.log_folders.specs.Formatting.{AreNew, WereLaidOut};
ghost use Rattle.log_folders.specs.NewSets.{size_for};

use crate::any_image::open_cut_to_any_header;
use crate::layout::lay_out;
use crate::new_set::NewSet;
use crate::unfinished::finish;
use disk::{Disk, FileDisk, ImageFault};
use endless_image::Kind;
use folders::{
    Access, FolderFault, LayFault, format_folder, image_path, new_device, refuse_taken, sync_folder,
};
use std::fs::OpenFile;
use std::os::unix::fs::FileExt;
use std::rt::Files;

/// Makes the images of a set in a folder, of files that are not there yet and of block devices that are, by links that somebody
/// put there. No gate is opened before all images are whole. Where an image is taken nothing is made. Where one cannot be written to its end, the
/// files that were made are removed. Once a gate was opened all stays. A format of this set that was ended then is finished.
pub fn format_log<R: Files + AllocGlobal>(
    rt: &R,
    folder: &str,
    set: &NewSet,
) -> Result<(), FolderFault>
where
    R::File: FileExt + OpenFile + Drop,
    ensures laid_out { OnOk result (WereLaidOut set.now ⊎ WereFinished set.now) }
    ensures fault { IfErr result (IsFormatFault set.now.config.disks) }
{
    match set.kind() {
        Kind::Ending => format_folder(rt, folder, set.config(), set.cluster()),
        Kind::Endless => finish_or_make(rt, folder, set),
    }
}

/// Makes the images of a set, or finishes a format of it.
fn finish_or_make<R: Files + AllocGlobal>(
    rt: &R,
    folder: &str,
    set: &NewSet,
) -> Result<(), FolderFault>
where
    R::File: FileExt + OpenFile + Drop,
    ensures laid_out { OnOk result (WereLaidOut set.now ⊎ WereFinished set.now) }
    ensures fault { IfErr result (IsFormatFault set.now.config.disks) }
{
    if finish_set(rt, folder, set)? {
        return Ok(());
    }
    make_set(rt, folder, set)
}

/// Finishes a format that was ended once all its images were whole. Whether there was one is the result.
fn finish_set<R: Files + AllocGlobal>(
    rt: &R,
    folder: &str,
    set: &NewSet,
) -> Result<bool, FolderFault>
where
    R::File: FileExt + OpenFile + Drop,
    ensures finished { IfOk result (λ finished. finished ≡ true → WereFinished set.now) }
    ensures fault { IfErr result (IsFormatFault set.now.config.disks) }
{
    let Some(mut devices) = devices_there(rt, folder, set)? else {
        return Ok(false);
    };
    match finish(&mut devices, set) {
        Ok(finished) => Ok(finished),
        Err(LayFault::NotWhole(disk) | LayFault::NotOpened(disk)) => Err(unreadable(disk)),
    }
}

/// What is there in place of the images of a set, if all can be opened and are as long.
fn devices_there<R: Files + AllocGlobal>(
    rt: &R,
    folder: &str,
    set: &NewSet,
) -> Result<Option<Vec<FileDisk<R::File>>>, FolderFault>
where
    R::File: FileExt + OpenFile + Drop,
    ensures found { IfOk result (λ found. IfSome found (λ devices. AreThere set.now devices.items)) }
    ensures fault { IfErr result (λ fault. fault ≡ FolderFault.NoMemory) }
{
    let size = set.image_size();
    let mut devices = Vec::with_capacity(rt.alloc(), usize::from(set.disks()))?;
    for disk in 0..set.disks() {
        let path = image_path(rt.alloc(), folder, disk)?;
        match open_cut_to_any_header(rt, path.as_str(), Access::ReadAndWrite) {
            Ok(device) if device.size() == size => devices.push_reserved(device),
            _ => return Ok(None),
        }
    }
    Ok(Some(devices))
}

/// Makes the images of a set.
fn make_set<R: Files + AllocGlobal>(rt: &R, folder: &str, set: &NewSet) -> Result<(), FolderFault>
where
    R::File: FileExt + OpenFile + Drop,
    ensures laid_out { OnOk result (WereLaidOut set.now) }
    ensures fault { IfErr result (IsFormatFault set.now.config.disks) }
{
    // A block device with room for one area alone passes here. It is refused where it is to be used.
    refuse_taken(rt, folder, set.config())?;
    let mut devices = new_devices(rt, folder, set)?;
    match lay_out(&mut devices, set) {
        Ok(()) => Ok(()),
        Err(LayFault::NotWhole(disk)) => {
            remove_files(rt, folder, set.disks());
            Err(unreadable(disk))
        }
        Err(LayFault::NotOpened(disk)) => Err(unreadable(disk)),
    }
}

fn unreadable(disk: u8) -> FolderFault
    ensures { result ≡ FolderFault.Image disk ImageFault.Unreadable }
{
    FolderFault::Image {
        disk,
        fault: ImageFault::Unreadable,
    }
}

/// What the images of a set are to be made of, all with names that last. Where that fails the files that were made are removed.
fn new_devices<R: Files + AllocGlobal>(
    rt: &R,
    folder: &str,
    set: &NewSet,
) -> Result<Vec<FileDisk<R::File>>, FolderFault>
where
    R::File: FileExt + OpenFile + Drop,
    ensures room { IfOk result (λ devices. AreNew set.now devices.items) }
    ensures fault { IfErr result (IsFormatFault set.now.config.disks) }
{
    let mut devices = Vec::with_capacity(rt.alloc(), usize::from(set.disks()))?;
    for disk in 0..set.disks() {
        match new_image(rt, folder, set, disk) {
            Ok(device) => devices.push_reserved(device),
            Err(fault) => {
                remove_files(rt, folder, disk);
                return Err(fault);
            }
        }
    }
    if sync_folder(rt, folder).is_err() {
        remove_files(rt, folder, set.disks());
        return Err(unreadable(0));
    }
    Ok(devices)
}

/// What the image of this number is to be made of.
fn new_image<R: Files + AllocGlobal>(
    rt: &R,
    folder: &str,
    set: &NewSet,
    disk: u8,
) -> Result<FileDisk<R::File>, FolderFault>
where
    R::File: FileExt + OpenFile + Drop,
    requires { disk < set.now.config.disks }
    ensures room { IfOk result (λ device. size_for set.now ≤ device.size) }
    ensures fault { IfErr result (IsFormatFault set.now.config.disks) }
{
    let path = image_path(rt.alloc(), folder, disk)?;
    new_device(rt, path.as_str(), set.image_size()).map_err(|fault| FolderFault::Image {
        disk,
        fault,
    })
}

/// Removes the files of the first images, as far as that can be done. A link that somebody put there stays, and so does a device.
fn remove_files<R: Files + AllocGlobal>(rt: &R, folder: &str, count: u8) {
    for disk in 0..count {
        if let Ok(path) = image_path(rt.alloc(), folder, disk) {
            let is_file = match rt.symlink_metadata(path.as_str()) {
                Ok(metadata) => metadata.is_file(),
                Err(_) => false,
            };
            if is_file {
                let _ = rt.remove_file(path.as_str());
            }
        }
    }
}
