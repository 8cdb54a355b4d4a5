ghost use Rattle.std.specs.Prelude.{◌≡◌, length};
ghost use Rattle.torn_block.specs.declared.layout.TheConstants.{DISKS};
ghost use Rattle.log_folders.specs.AnySets.{AreAnyImages};
ghost use Rattle.c_epochs.specs.Images.{AreFound, Finds, IsOwn, TellsImages, length_told, long_of, used_of};

use c_host::{Image, Images, Opened};
use disk::ImageFault;
use endless_image::{AnyHeader, ENDLESS_VERSION, told_size};
use folders::length_in_header;
use log_folders::used_header;
use paxos_block::Config;
use torn_block::{DISKS, HEADER_LENGTH};

// Where the number of an image's layout, or of its kind, is.
const VERSION_AT: usize = 1;

/// What is found of each image that there may be: its header, or why it is not used.
pub fn found_in(images: &Images) -> [Result<AnyHeader, ImageFault>; DISKS as usize]
    ensures found { AreFound images.now.all result }
    ensures images { AreAnyImages result }
{
    let mut found = [Err(ImageFault::Unreadable); DISKS as usize];
    for disk in 0..DISKS {
        found[usize::from(disk)] = header_of(disk, &images.all[usize::from(disk)]);
    }
    found
}

/// The header of an image, where it is that of the image of this number, of either kind of log.
fn header_of(disk: u8, image: &Image) -> Result<AnyHeader, ImageFault>
    ensures finds { Finds disk image.now result }
    ensures own { IsOwn disk result }
{
    if image.is_read != 1 {
        return Err(ImageFault::Unreadable);
    }
    used_header(disk, long_of(image), &image.bytes)
}

/// The length to use as the image's. A device may be longer than its image: there it is what the first bytes say, if there is room for that.
fn long_of(image: &Image) -> u64
    ensures { result ≡ long_of image.now }
{
    if image.is_device == 1 {
        length_told(&image.bytes).min(image.size)
    } else {
        image.size
    }
}

/// How long an image is by its first bytes, of either kind of log, or in the layout that images had before.
fn length_told(bytes: &[u8; HEADER_LENGTH]) -> u64
    ensures { result ≡ length_told bytes.now }
{
    if bytes[VERSION_AT] == ENDLESS_VERSION {
        told_size(bytes)
    } else {
        length_in_header(bytes)
    }
}

/// What C is to know of images of which this was found.
pub fn told_of(found: &[Result<AnyHeader, ImageFault>; DISKS as usize], config: Config) -> Opened
    ensures { TellsImages found.now config result }
{
    let mut used = [0; DISKS as usize];
    for disk in 0..usize::from(DISKS) {
        used[disk] = flag_of(&found[disk]);
    }
    Opened {
        used,
        disks: u32::from(config.disks()),
    }
}

fn flag_of(found: &Result<AnyHeader, ImageFault>) -> u32
    ensures { result ≡ used_of found.now }
{
    match found {
        Ok(_) => 1,
        Err(_) => 0,
    }
}
