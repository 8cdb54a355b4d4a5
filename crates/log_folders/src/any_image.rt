ghost use Rattle.std.specs.Prelude.{◌≡◌, ◌≤◌, ℕ, true, IfOk, IfErr, Ok, OnOk};
ghost use Rattle.torn_block.specs.Layout.{Version};
ghost use Rattle.torn_block.specs.declared.layout.TheConstants.{HEADER_LENGTH};
ghost use Rattle.paxos_block.specs.Headers.{IsRight};
ghost use Rattle.endless_image.specs.Kinds.{IsRightBy};
ghost use Rattle.paxos_block.specs.declared.header.Header.{Header};
ghost use Rattle.log_folders.specs.AnyHeaders.{IsAnyHeader, IsCutToAnyHeader, IsUnusedBy, ReadsAnyHeader, ReadsNoAnyHeader, disk_in, size_in};

use disk::{Disk, FileDisk, ImageFault};
use endless_image::{AnyHeader, decode_endless_header, told_any_length};
use folders::{Access, first_bytes, image_header, length_in_header};
use std::fs::OpenFile;
use std::os::unix::fs::{FileExt, FileTypeExt};
use std::rt::Files;
use torn_block::{ClusterLayout, HEADER_LENGTH, Layout, Layout1};

// Where the number of an image's layout, or of its kind, is.
const VERSION_AT: usize = 1;

/// Opens the file or block device at this path as the image of this disk, of either kind of log. A device may be longer than its image.
pub fn open_any_image<R: Files>(
    files: &R,
    path: &str,
    disk: u8,
    access: Access,
) -> Result<(AnyHeader, FileDisk<R::File>), ImageFault>
where
    R::File: FileExt + OpenFile + Drop,
    ensures right { IfOk result (λ image. IsAnyHeader image.0) }
    ensures number { IfOk result (λ image. disk_in image.0 ≡ disk) }
    ensures long { IfOk result (λ image. image.1.size ≡ size_in image.0) }
    ensures used { IfOk result (λ image. image.1.used ≡ true) }
{
    let mut file = open_cut_to_any_header(files, path, access)?;
    let header = any_header(&mut file, disk)?;
    Ok((header, file))
}

/// Opens the file or block device at this path. What a device has after its image, of either kind of log, is left out of use. Nothing else is
/// opened: whoever opens a pipe that nobody writes into may wait for ever.
pub fn open_cut_to_any_header<R: Files>(
    files: &R,
    path: &str,
    access: Access,
) -> Result<FileDisk<R::File>, ImageFault>
where
    R::File: FileExt + OpenFile + Drop,
    ensures { IfErr result (λ fault. fault ≡ ImageFault.Unreadable) }
{
    if !is_file_or_device(files, path) {
        return Err(ImageFault::Unreadable);
    }
    let mut file = match access {
        Access::ReadAndWrite => FileDisk::open(files, path)?,
        Access::Read => FileDisk::open_to_read(files, path)?,
    };
    if file.is_block_device() {
        cut_to_any_header(&mut file)?;
    }
    Ok(file)
}

fn is_file_or_device<R: Files>(files: &R, path: &str) -> bool {
    match files.metadata(path) {
        Ok(metadata) => metadata.is_file() || metadata.file_type().is_block_device(),
        Err(_) => false,
    }
}

/// Leaves what a device has after its image out of use, if its first bytes say how long the image is and there is room for it.
fn cut_to_any_header<F: FileExt + OpenFile + Drop>(
    device: &mut FileDisk<F>,
) -> Result<(), ImageFault>
    ensures cut { OnOk result (HEADER_LENGTH ≤ device.old.size → IsCutToAnyHeader device.old device.new) }
    ensures fault { IfErr result (λ fault. fault ≡ ImageFault.Unreadable) }
{
    let Ok(bytes) = first_bytes(device) else {
        return Err(ImageFault::Unreadable);
    };
    device.cut(length_by(&bytes).min(device.size()));
    Ok(())
}

/// How long an image is by its first bytes, of either kind of log, or in the layout that images had before. The bytes may be wrong otherwise.
fn length_by(bytes: &[u8; HEADER_LENGTH]) -> u64
    ensures kinds { (disk long : ℕ) (header : AnyHeader) → IsRightBy disk long bytes.now header → result ≡ long }
    ensures layouts { (v : Version) (disk long : ℕ) (header : Header) → IsRight v disk long bytes.now header → result ≡ long }
{
    if bytes[VERSION_AT] == Layout1::VERSION {
        length_in_header(bytes)
    } else {
        told_any_length(bytes)
    }
}

/// The header of a device, where it is that of the image of this number, of either kind of log.
pub fn any_header<D: Disk>(device: &mut D, disk: u8) -> Result<AnyHeader, ImageFault>
    ensures right { IfOk result IsAnyHeader }
    ensures number { IfOk result (λ header. disk_in header ≡ disk) }
    ensures long { IfOk result (λ header. size_in header ≡ (D.device device.old).size) }
    ensures told { IfOk result (λ header. ReadsAnyHeader D.gives device.old disk (D.device device.old).size header device.new) }
    ensures fault { IfErr result (ReadsNoAnyHeader D.gives device.old disk (D.device device.old).size device.new) }
    ensures device { D.device device.new ≡ D.device device.old }
{
    let long = device.size();
    match first_bytes(device) {
        Ok(bytes) => used_header(disk, long, &bytes),
        Err(_) => Err(ImageFault::Unreadable),
    }
}

/// The header of an image, of either kind of log, by the disk that it is named as, its length in bytes, and its first bytes.
///
/// One of a log without an end may take part only from a later epoch on. Whoever works in an epoch before makes no call on that disk.
pub fn used_header(
    disk: u8,
    long: u64,
    bytes: &[u8; HEADER_LENGTH],
) -> Result<AnyHeader, ImageFault>
    // What is read is used, and what is used is read.
    ensures right { IfOk result (IsRightBy disk long bytes.now) }
    ensures only { (header : AnyHeader) → IsRightBy disk long bytes.now header → result ≡ Ok header }
    ensures fault { IfErr result (IsUnusedBy disk long bytes.now) }
{
    if let Ok(header) = decode_endless_header(disk, long, bytes) {
        return Ok(AnyHeader::Endless(header));
    }
    match image_header::<ClusterLayout>(disk, long, bytes) {
        Ok(header) => Ok(AnyHeader::Ending(header)),
        Err(fault) => Err(fault),
    }
}
