ghost use Rattle.std.specs.Prelude.{◌≡◌, ◌≤◌, true, IfOk, IfErr, OnOk, min};
ghost use Rattle.std.specs.Path.{path_buf_bytes, path_join};
ghost use Rattle.paxos_block.specs.Places.{image_length};
ghost use Rattle.paxos_block.specs.Headers.{IsHeader};
ghost use Rattle.folders.specs.declared.fault.FolderFault.TheVariants.{NoMemory};
ghost use Rattle.folders.specs.Folders.{image_name, HasToldFirst, FailsToTell, IsCutToHeader, ReadsHeader, ReadsNoHeader};

use crate::fault::FolderFault;
use crate::header::{image_header, length_in_header};
use disk::{Disk, DiskFault, FileDisk, ImageFault};
use paxos_block::Header;
use std::alloc::Global;
use std::fs::OpenFile;
use std::os::unix::fs::{FileExt, FileTypeExt};
use std::path::{Path, PathBuf};
use std::rt::Files;
use torn_block::{HEADER_LENGTH, Layout};

/// What an image is opened for.
#[derive(Clone, Copy)]
pub enum Access {
    ReadAndWrite,
    Read,
}

/// The path of the image of this number.
pub fn image_path(alloc: Global, folder: &str, disk: u8) -> Result<PathBuf, FolderFault>
    ensures path { IfOk result (λ path. path_buf_bytes path ≡ path_join folder.now (image_name disk)) }
    ensures fault { IfErr result (λ fault. fault ≡ NoMemory) }
{
    let name = format!(in alloc; "disk{disk}.img")?;
    Ok(Path::new(folder).join(alloc, name.as_str())?)
}

/// Opens the file or block device at this path as the image of this disk, in a layout. A device may be longer than its image.
pub fn open_image<L: Layout, R: Files>(
    files: &R,
    path: &str,
    disk: u8,
    access: Access,
) -> Result<(Header, FileDisk<R::File>), ImageFault>
where
    R::File: FileExt + OpenFile + Drop,
    ensures right { IfOk result (λ image. IsHeader image.0) }
    ensures number { IfOk result (λ image. image.0.disk ≡ disk) }
    ensures long { IfOk result (λ image. image.1.size ≡ image_length L.version image.0.slots) }
    ensures used { IfOk result (λ image. image.1.used ≡ true) }
{
    let mut file = open_cut_to_header(files, path, access)?;
    let header = read_header::<L, _>(&mut file, disk)?;
    Ok((header, file))
}

/// Opens the file or block device at this path. What a device has after its image is left out of use. Nothing else is opened: whoever opens a pipe
/// that nobody writes into may wait for ever.
pub fn open_cut_to_header<R: Files>(
    files: &R,
    path: &str,
    access: Access,
) -> Result<FileDisk<R::File>, ImageFault>
where
    R::File: FileExt + OpenFile + Drop,
    ensures { IfErr result (λ fault. fault ≡ ImageFault.Unreadable) }
{
    if !is_file_or_device(files, path) {
        return Err(ImageFault::Unreadable);
    }
    let mut file = match access {
        Access::ReadAndWrite => FileDisk::open(files, path)?,
        Access::Read => FileDisk::open_to_read(files, path)?,
    };
    if file.is_block_device() {
        cut_to_header(&mut file)?;
    }
    Ok(file)
}

fn is_file_or_device<R: Files>(files: &R, path: &str) -> bool {
    match files.metadata(path) {
        Ok(metadata) => metadata.is_file() || metadata.file_type().is_block_device(),
        Err(_) => false,
    }
}

/// Leaves what a device has after its image out of use, if its first bytes say how long the image is and there is room for it.
fn cut_to_header<F: FileExt + OpenFile + Drop>(device: &mut FileDisk<F>) -> Result<(), ImageFault>
    ensures cut { OnOk result (HEADER_LENGTH ≤ device.old.size → IsCutToHeader device.old device.new) }
    ensures fault { IfErr result (λ fault. fault ≡ ImageFault.Unreadable) }
{
    let Ok(bytes) = first_bytes(device) else {
        return Err(ImageFault::Unreadable);
    };
    device.cut(length_in_header(&bytes).min(device.size()));
    Ok(())
}

/// The header of a device, where it is that of the image of this number.
fn read_header<L: Layout, D: Disk>(device: &mut D, disk: u8) -> Result<Header, ImageFault>
    ensures right { IfOk result IsHeader }
    ensures number { IfOk result (λ header. header.disk ≡ disk) }
    ensures long { IfOk result (λ header. image_length L.version header.slots ≡ (D.device device.old).size) }
    ensures told { IfOk result (λ header. ReadsHeader L.version D.gives device.old disk (D.device device.old).size header device.new) }
    ensures fault { IfErr result (ReadsNoHeader L.version D.gives device.old disk (D.device device.old).size device.new) }
    ensures device { D.device device.new ≡ D.device device.old }
{
    let long = device.size();
    match first_bytes(device) {
        Ok(bytes) => image_header::<L>(disk, long, &bytes),
        Err(_) => Err(ImageFault::Unreadable),
    }
}

/// The first bytes of a device; of one that is shorter, zeros behind those that it has.
pub fn first_bytes<D: Disk>(device: &mut D) -> Result<[u8; HEADER_LENGTH], DiskFault>
    ensures told { IfOk result (λ bytes. HEADER_LENGTH ≤ (D.device device.old).size → HasToldFirst D.gives device.old bytes device.new) }
    ensures fault { IfErr result (λ fault. FailsToTell D.gives (min (D.device device.old).size HEADER_LENGTH) device.old fault device.new) }
    ensures device { D.device device.new ≡ D.device device.old }
{
    let mut bytes = [0; HEADER_LENGTH];
    let there = device.size().min(HEADER_LENGTH as u64) as usize;
    let boot = device.attach()?;
    device.read(boot, 0, &mut bytes[..there])?;
    Ok(bytes)
}
