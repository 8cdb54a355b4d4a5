ghost use Rattle.std.specs.Prelude.{◌≡◌, ◌<◌, IfOk, IfErr, length};
ghost use Rattle.torn_block.specs.Layout.{cluster_version};
ghost use Rattle.paxos_block.specs.Places.{image_length};
ghost use Rattle.folders.specs.SetFaults.{IsFormatFault};
ghost use Rattle.folder_migration.specs.Migrating.{AreBlank, IsBlank};
ghost use Rattle.folder_migration.specs.RenewingFolders.{IsUnfound};

use crate::image::clear;
use crate::renew_fault::NewFault;
use disk::{FileDisk, ImageFault};
use folders::{
    Access, FolderFault, LockFault, find_folder, image_path, new_device, open_cut_to_header,
    refuse_taken, sync_folder,
};
use host::Config;
use lock_command::HostNumber;
use std::fs::OpenFile;
use std::os::unix::fs::FileExt;
use std::path::PathBuf;
use std::rt::Files;

/// The host that recovers a log of the first layout, and that writes new images: what is moved is as this host would have left it.
pub fn first_host() -> HostNumber
    ensures { result ≡ 0 }
{
    match HostNumber::new(0) {
        Some(host) => host,
        None => unreachable!(),
    }
}

/// The own path of the new folder of a renewal. Where there is none nobody can be locked out of it, and that is told.
pub fn find_new<R: Files + AllocGlobal>(rt: &R, folder: &str) -> Result<PathBuf, NewFault>
    ensures fault { IfErr result IsUnfound }
{
    match find_folder(rt, folder) {
        Ok(path) => Ok(path),
        Err(FolderFault::NoMemory) => Err(NewFault::Folder(FolderFault::NoMemory)),
        Err(_) => Err(NewFault::Lock(LockFault::NoLock(first_host().get()))),
    }
}

/// The disks of the new images. Of one that cannot be opened every call fails.
pub fn open_new_folder<R: Files + AllocGlobal>(
    rt: &R,
    folder: &str,
    config: Config,
) -> Result<Vec<FileDisk<R::File>>, FolderFault>
where
    R::File: FileExt + OpenFile + Drop,
    ensures as_many { IfOk result (λ images. length images.items ≡ config.disks) }
    ensures fault { IfErr result (λ fault. fault ≡ FolderFault.NoMemory) }
{
    let mut images = Vec::with_capacity(rt.alloc(), usize::from(config.disks()))?;
    for disk in 0..config.disks() {
        let path = image_path(rt.alloc(), folder, disk)?;
        let image = open_cut_to_header(rt, path.as_str(), Access::ReadAndWrite).unwrap_or_else(
            |_| FileDisk::missing(0),
        );
        images.push_reserved(image);
    }
    Ok(images)
}

/// Makes the new images of zeros, if none of them is there.
pub fn make_free_images<R: Files + AllocGlobal>(
    rt: &R,
    folder: &str,
    config: Config,
) -> Result<Vec<FileDisk<R::File>>, FolderFault>
where
    R::File: FileExt + OpenFile + Drop,
    ensures blank { IfOk result (λ images. AreBlank config images.items) }
    ensures fault { IfErr result (IsFormatFault config.disks) }
{
    refuse_taken(rt, folder, config)?;
    make_images(rt, folder, config)
}

/// Makes the new images of zeros.
pub fn make_images<R: Files + AllocGlobal>(
    rt: &R,
    folder: &str,
    config: Config,
) -> Result<Vec<FileDisk<R::File>>, FolderFault>
where
    R::File: FileExt + OpenFile + Drop,
    ensures blank { IfOk result (λ images. AreBlank config images.items) }
    ensures fault { IfErr result (IsFormatFault config.disks) }
{
    let mut images = Vec::with_capacity(rt.alloc(), usize::from(config.disks()))?;
    for disk in 0..config.disks() {
        let image = make_image(rt, folder, config, disk)?;
        images.push_reserved(image);
    }
    Ok(images)
}

/// Makes the new image of this number, of zeros.
fn make_image<R: Files + AllocGlobal>(
    rt: &R,
    folder: &str,
    config: Config,
    disk: u8,
) -> Result<FileDisk<R::File>, FolderFault>
where
    R::File: FileExt + OpenFile + Drop,
    requires { disk < config.disks }
    ensures blank { IfOk result (IsBlank (image_length cluster_version config.slots)) }
    ensures fault { IfErr result (IsFormatFault config.disks) }
{
    let path = image_path(rt.alloc(), folder, disk)?;
    make_zeros(rt, folder, path.as_str(), config.image_length()).map_err(
        |fault| FolderFault::Image { disk, fault },
    )
}

/// A new file of so many zeros, or a block device that begins with them. Its name is made sure of, too.
fn make_zeros<R: Files>(
    files: &R,
    folder: &str,
    path: &str,
    size: u64,
) -> Result<FileDisk<R::File>, ImageFault>
where
    R::File: FileExt + OpenFile + Drop,
    ensures blank { IfOk result (IsBlank size) }
    ensures fault { IfErr result (λ fault. fault ≡ ImageFault.Unreadable) }
{
    let mut device = new_device(files, path, size)?;
    if clear(&mut device, size).is_err() || sync_folder(files, folder).is_err() {
        return Err(ImageFault::Unreadable);
    }
    Ok(device)
}
