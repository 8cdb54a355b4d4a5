ghost use Rattle.std.specs.Prelude.{◌≡◌, length};
ghost use Rattle.torn_block.specs.declared.layout.TheConstants.{DISKS};
ghost use Rattle.folders.specs.Sets.{AreHeaders};
ghost use Rattle.c_host.specs.Images.{Finds, AreFound, long_of, used_of, TellsImages};

use disk::ImageFault;
use folders::{image_header, length_in_header};
use host::Config;
use paxos_block::Header;
use torn_block::{ClusterLayout, DISKS, HEADER_LENGTH};

/// What C found of an image.
#[repr(C)]
#[derive(Clone, Copy, Drop)]
pub struct Image {
    /// The length of the file or device.
    pub size: u64,
    /// 1 where it was opened, and its first bytes read.
    pub is_read: u32,
    /// 1 for a block device, which may be longer than its image.
    pub is_device: u32,
    /// Its first bytes; of a shorter one, zeros behind those that it has.
    pub bytes: [u8; HEADER_LENGTH],
}

/// What C found of each image that there may be, by number.
#[repr(C)]
#[derive(Clone, Copy, Drop)]
pub struct Images {
    pub all: [Image; DISKS as usize],
}

/// What C is to know of a folder's images.
#[repr(C)]
#[derive(Clone, Copy, Drop)]
pub struct Opened {
    /// 1 for each image that is used, by number. Every call on another one has to fail; an attach never reaches C.
    pub used: [u32; DISKS as usize],
    pub disks: u32,
}

/// What is found of each image: its right header, or why it is not used.
pub fn found_in(images: &Images) -> [Result<Header, ImageFault>; DISKS as usize]
    ensures found { AreFound images.now.all result }
    ensures all { length result ≡ DISKS }
    ensures headers { AreHeaders result }
{
    let mut found = [Err(ImageFault::Unreadable); DISKS as usize];
    for disk in 0..DISKS {
        found[usize::from(disk)] = header_of(disk, &images.all[usize::from(disk)]);
    }
    found
}

/// The header of an image, where it is that of the image of this number.
fn header_of(disk: u8, image: &Image) -> Result<Header, ImageFault>
    ensures { Finds disk image.now result }
{
    if image.is_read != 1 {
        return Err(ImageFault::Unreadable);
    }
    image_header::<ClusterLayout>(disk, image.long(), &image.bytes)
}

impl Image {
    /// The length to use as the image's. A device may be longer than its image: there it is what the first bytes say, if there is
    /// room for that.
    fn long(&self) -> u64
        ensures { result ≡ long_of self.now }
    {
        if self.is_device == 1 {
            length_in_header(&self.bytes).min(self.size)
        } else {
            self.size
        }
    }
}

/// What C is to know of images of which this was found.
pub fn told_of(found: &[Result<Header, ImageFault>; DISKS as usize], config: Config) -> Opened
    ensures { TellsImages found.now config result }
{
    let mut used = [0; DISKS as usize];
    for disk in 0..usize::from(DISKS) {
        used[disk] = flag_of(&found[disk]);
    }
    Opened {
        used,
        disks: u32::from(config.disks()),
    }
}

fn flag_of(found: &Result<Header, ImageFault>) -> u32
    ensures { result ≡ used_of found.now }
{
    match found {
        Ok(_) => 1,
        Err(_) => 0,
    }
}
