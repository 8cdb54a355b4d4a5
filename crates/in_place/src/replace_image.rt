// The image that takes a lost one's place, over any disk.
ghost use Rattle.std.specs.Prelude.{◌≤◌, OnErr, OnOk};
ghost use Rattle.endless_image.specs.Headers.{IsEndlessHeader};
ghost use Rattle.endless_image.specs.Sizes.{size_of};
ghost use Rattle.in_place.specs.Replacing.{EndsWithFault, IsPut};

use crate::replace_rows::Rows;
use disk::{Disk, DiskFault};
use endless_image::{EndlessHeader, encode_endless_header, image_size};
use log_folders::put_zeros;

/// What a new image says: its header, and how far hosts are by its standings.
#[derive(Clone, Copy, Debug, PartialEq, Eq)]
pub struct NewImage {
    pub header: EndlessHeader,
    pub rows: Rows,
}

/// Writes an image with no blocks but its standings, and makes sure of it. Where a call fails no other is made.
pub fn put_image<D: Disk>(device: &mut D, image: &NewImage) -> Result<(), DiskFault>
    requires may { IsEndlessHeader image.now.header }
    requires room { size_of image.now.header.slots ≤ (D.device device.old).size }
    ensures put { OnOk result (IsPut D.gives image.now device.old device.new) }
    ensures failed { OnErr result (EndsWithFault D.gives device.new) }
{
    let slots = image.header.slots;
    let boot = device.attach()?;
    put_zeros(device, boot, image_size(slots))?;
    image.rows.write(device, boot, slots as u16)?;
    device.sync(boot)?;
    let bytes = encode_endless_header(&image.header);
    device.write(boot, 0, &bytes)?;
    device.sync(boot)
}
