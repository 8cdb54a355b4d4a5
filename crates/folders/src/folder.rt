ghost use Rattle.std.specs.Prelude.{◌≡◌, ◌<◌, ℕ, Some, IfOk, IfErr, length, map, slice_get};
ghost use Rattle.folders.specs.SetFaults.{MayRefuse};
ghost use Rattle.folders.specs.Folders.{IsDiskOf, IsOpened, IsSmall, resized};
ghost use Rattle.disk.specs.FileStates.{FileState};
ghost use Rattle.paxos_block.specs.Headers.{IsHeader};
ghost use Rattle.paxos_block.specs.Places.{image_length};

use crate::fault::FolderFault;
use crate::image::{Access, image_path, open_image};
use crate::set::set_of;
use disk::{Disk, FileDisk, ImageFault};
use paxos_block::{Config, Header, image_length};
use std::fs::OpenFile;
use std::marker::PhantomData;
use std::os::unix::fs::FileExt;
use std::rt::Files;
use torn_block::{ClusterLayout, DISKS, Layout};

/// The disks of a set of images of a layout, by number, what their headers say, and what was found of each image that there may be.
#[derive(Drop)]
pub struct Folder<F, L: Layout = ClusterLayout> {
    pub config: Config,
    pub cluster: u64,
    pub disks: Vec<FileDisk<F>>,
    /// By number: the right header, or why the image is a disk of which every call fails.
    pub found: [Result<Header, ImageFault>; DISKS as usize],
    layout: PhantomData<L>,
    ghost small: { IsSmall config },
    ghost as_many: { length disks.items ≡ config.disks },
    ghost long: { (k : ℕ) (d : FileState) → slice_get disks.items k ≡ Some d → d.size ≡ image_length L.version config.slots },
}

/// Opens the images of a folder. One that is missing or refused is a disk of which every call fails.
pub fn open_folder<R: Files + AllocGlobal>(
    rt: &R,
    folder: &str,
) -> Result<Folder<R::File>, FolderFault>
where
    R::File: FileExt + OpenFile + Drop,
    ensures opened { IfOk result (λ folder.
        IsOpened folder.found folder.config folder.cluster folder.disks.items) }
    ensures fault { IfErr result MayRefuse }
{
    open_images(rt, folder, Access::ReadAndWrite)
}

/// Opens the images of a folder that can be read. Every write to one of them fails, so that a host over them can but look.
pub fn open_folder_to_read<R: Files + AllocGlobal>(
    rt: &R,
    folder: &str,
) -> Result<Folder<R::File>, FolderFault>
where
    R::File: FileExt + OpenFile + Drop,
    ensures opened { IfOk result (λ folder.
        IsOpened folder.found folder.config folder.cluster folder.disks.items) }
    ensures fault { IfErr result MayRefuse }
{
    open_images(rt, folder, Access::Read)
}

/// Opens the images of a folder, in a layout. One that is missing or refused is a disk of which every call fails.
pub fn open_images<L: Layout, R: Files + AllocGlobal>(
    rt: &R,
    folder: &str,
    access: Access,
) -> Result<Folder<R::File, L>, FolderFault>
where
    R::File: FileExt + OpenFile + Drop,
    ensures opened { IfOk result (λ folder.
        IsOpened folder.found folder.config folder.cluster folder.disks.items) }
    ensures fault { IfErr result MayRefuse }
{
    let mut found = [Err(ImageFault::Unreadable); DISKS as usize];
    let mut disks = Vec::with_capacity(rt.alloc(), usize::from(DISKS))?;
    for disk in 0..DISKS {
        let (header, image) = look_at::<L, R>(rt, folder, disk, access)?;
        found[usize::from(disk)] = header;
        disks.push_reserved(image);
    }
    let set = set_of(&found)?;
    disks.truncate(usize::from(set.config.disks()));
    resize(&mut disks, image_length::<L>(u32::from(set.config.slots())));
    Ok(Folder {
        config: set.config,
        cluster: set.cluster,
        disks,
        found,
        layout: PhantomData,
    })
}

/// What is found of an image: its header and its disk, or why it is refused and a disk of which every call fails.
fn look_at<L: Layout, R: Files + AllocGlobal>(
    rt: &R,
    folder: &str,
    disk: u8,
    access: Access,
) -> Result<(Result<Header, ImageFault>, FileDisk<R::File>), FolderFault>
where
    R::File: FileExt + OpenFile + Drop,
    ensures right { IfOk result (λ found. IfOk found.0 IsHeader) }
    ensures number { IfOk result (λ found. IfOk found.0 (λ header. header.disk ≡ disk)) }
    ensures disk { IfOk result (λ found. IsDiskOf L.version found.0 found.1) }
    ensures fault { IfErr result (λ fault. fault ≡ FolderFault.NoMemory) }
{
    let path = image_path(rt.alloc(), folder, disk)?;
    match open_image::<L, R>(rt, path.as_str(), disk, access) {
        Ok((header, image)) => Ok((Ok(header), image)),
        Err(fault) => Ok((Err(fault), FileDisk::missing(0))),
    }
}

/// Replaces every disk of another size by one of this size of which every call fails. Disks that were refused have no size yet.
fn resize<F: FileExt + OpenFile + Drop>(disks: &mut Vec<FileDisk<F>>, size: u64)
    ensures as_many { length disks.new.items ≡ length disks.old.items }
    ensures long { (k : ℕ) (d : FileState) → slice_get disks.new.items k ≡ Some d → d.size ≡ size }
    ensures images { disks.new.items ≡ map (resized size) disks.old.items }
{
    for disk in 0..disks.len() {
        if disks[disk].size() != size {
            disks[disk] = FileDisk::missing(size);
        }
    }
}
