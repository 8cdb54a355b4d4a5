ghost use Rattle.std.specs.Prelude.{◌≡◌, ◌≤◌, ℕ, None, Some, IfOk, IfErr, IfSome, length, map, slice_get};
ghost use Rattle.disk.specs.FileStates.{FileState};
ghost use Rattle.torn_block.specs.declared.layout.TheConstants.{DISKS};
ghost use Rattle.endless_image.specs.Sizes.{IsSlotCount, size_of};
ghost use Rattle.folders.specs.Folders.{resized};
ghost use Rattle.log_folders.specs.AnyHeaders.{IsAnyHeader, disk_in};
ghost use Rattle.log_folders.specs.AnySets.{AreAnyImages, HasAnyNumbers};
ghost use Rattle.log_folders.specs.EndlessFolders.{AreAnyDisksOf, FindsEnding, IsAnyDiskOf, IsEndlessOpened, MayRefuseAny};

use crate::any_image::open_any_image;
use crate::any_set::{AnySet, set_of_any};
use disk::{Disk, FileDisk, ImageFault};
use endless_image::{AnyHeader, Kind, image_size};
use folders::{Access, FolderFault, image_path};
use paxos_block::Config;
use std::fs::OpenFile;
use std::os::unix::fs::FileExt;
use std::rt::Files;
use torn_block::DISKS;

/// The disks of a set of images of a log without an end, by number, what their headers say, and what was found of each image that there may be.
#[derive(Drop)]
pub struct EndlessFolder<F> {
    /// Its slots are those of an epoch.
    pub config: Config,
    pub cluster: u64,
    pub disks: Vec<FileDisk<F>>,
    /// By number: the header, or why the image is a disk of which every call fails.
    pub found: [Result<AnyHeader, ImageFault>; DISKS as usize],
    ghost slots: { IsSlotCount config.slots },
    ghost few: { config.disks ≤ DISKS },
    ghost as_many: { length disks.items ≡ config.disks },
    ghost long: { (k : ℕ) (d : FileState) → slice_get disks.items k ≡ Some d → d.size ≡ size_of config.slots },
}

/// What was found of each image that there may be, and its disk, by number.
#[derive(Drop)]
struct Looked<F> {
    found: [Result<AnyHeader, ImageFault>; DISKS as usize],
    disks: Vec<FileDisk<F>>,
}

/// Opens the images of a folder, if they are of a log without an end. None if they are of a log that ends: then none is left open.
pub(crate) fn open_endless<R: Files + AllocGlobal>(
    rt: &R,
    folder: &str,
    access: Access,
) -> Result<Option<EndlessFolder<R::File>>, FolderFault>
where
    R::File: FileExt + OpenFile + Drop,
    ensures opened { IfOk result (λ opened. IfSome opened (λ folder.
        IsEndlessOpened folder.found folder.config folder.cluster folder.disks.items)) }
    ensures ending { IfOk result (λ opened. opened ≡ None → FindsEnding) }
    ensures fault { IfErr result MayRefuseAny }
{
    let looked = look_at_images(rt, folder, access)?;
    let set = set_of_any(&looked.found)?;
    match set.kind {
        Kind::Ending => Ok(None),
        Kind::Endless => Ok(Some(endless_folder(looked, set))),
    }
}

/// What is found of the images of a folder.
fn look_at_images<R: Files + AllocGlobal>(
    rt: &R,
    folder: &str,
    access: Access,
) -> Result<Looked<R::File>, FolderFault>
where
    R::File: FileExt + OpenFile + Drop,
    ensures images { IfOk result (λ looked. AreAnyImages looked.found) }
    ensures disks { IfOk result (λ looked. AreAnyDisksOf looked.found looked.disks.items) }
    ensures as_many { IfOk result (λ looked. length looked.disks.items ≡ DISKS) }
    ensures fault { IfErr result (λ fault. fault ≡ FolderFault.NoMemory) }
{
    let mut found = [Err(ImageFault::Unreadable); DISKS as usize];
    let mut disks = Vec::with_capacity(rt.alloc(), usize::from(DISKS))?;
    for disk in 0..DISKS {
        let (header, image) = look_at(rt, folder, disk, access)?;
        found[usize::from(disk)] = header;
        disks.push_reserved(image);
    }
    Ok(Looked { found, disks })
}

/// What is found of an image: its header and its disk, or why it is refused and a disk of which every call fails.
fn look_at<R: Files + AllocGlobal>(
    rt: &R,
    folder: &str,
    disk: u8,
    access: Access,
) -> Result<(Result<AnyHeader, ImageFault>, FileDisk<R::File>), FolderFault>
where
    R::File: FileExt + OpenFile + Drop,
    ensures right { IfOk result (λ found. IfOk found.0 IsAnyHeader) }
    ensures number { IfOk result (λ found. IfOk found.0 (λ header. disk_in header ≡ disk)) }
    ensures disk { IfOk result (λ found. IsAnyDiskOf found.0 found.1) }
    ensures fault { IfErr result (λ fault. fault ≡ FolderFault.NoMemory) }
{
    let path = image_path(rt.alloc(), folder, disk)?;
    match open_any_image(rt, path.as_str(), disk, access) {
        Ok((header, image)) => Ok((Ok(header), image)),
        Err(fault) => Ok((Err(fault), FileDisk::missing(0))),
    }
}

/// The folder of this set, by what was found of its images.
fn endless_folder<F: FileExt + OpenFile + Drop>(looked: Looked<F>, set: AnySet) -> EndlessFolder<F>
    requires images { AreAnyImages looked.found }
    requires disks { AreAnyDisksOf looked.found looked.disks.items }
    requires as_many { length looked.disks.items ≡ DISKS }
    requires set { HasAnyNumbers looked.found set.kind set.config set.cluster }
    requires endless { set.kind ≡ Kind.Endless }
    ensures { IsEndlessOpened result.found result.config result.cluster result.disks.items }
{
    let Looked { found, mut disks } = looked;
    disks.truncate(usize::from(set.config.disks()));
    resize(&mut disks, image_size(u32::from(set.config.slots())));
    EndlessFolder {
        config: set.config,
        cluster: set.cluster,
        disks,
        found,
    }
}

/// Replaces every disk of another size by one of this size of which every call fails. Disks that were refused have no size yet.
fn resize<F: FileExt + OpenFile + Drop>(disks: &mut Vec<FileDisk<F>>, size: u64)
    ensures as_many { length disks.new.items ≡ length disks.old.items }
    ensures long { (k : ℕ) (d : FileState) → slice_get disks.new.items k ≡ Some d → d.size ≡ size }
    ensures images { disks.new.items ≡ map (resized size) disks.old.items }
{
    for disk in 0..disks.len() {
        if disks[disk].size() != size {
            disks[disk] = FileDisk::missing(size);
        }
    }
}
