ghost use Rattle.std.specs.Prelude.{◌≡◌, ◌↔◌, ◌⊎◌, IfErr};
ghost use Rattle.std.specs.IoError.{error_kind};
ghost use Rattle.disk.specs.declared.fault.ImageFault.TheVariants.{Unreadable};
ghost use Rattle.folders.specs.declared.fault.FolderFault.TheVariants.{NoMemory, Image};
ghost use Rattle.folders.specs.SetFaults.{MayRefuse};

use crate::fault::FolderFault;
use disk::ImageFault;
use std::io::ErrorKind;
use std::path::PathBuf;
use std::rt::Files;
use std::{fs, io};

/// A folder's own path, from the root. The links that lead to it are followed here, and not again: whoever works on several files of a
/// folder finds it once, and names each of them by this path. Otherwise a link that is moved meanwhile would give images of one folder, and the
/// lock of another. A folder that is itself renamed meanwhile is not noticed.
///
/// Where there is none, that is told as of a folder in which no image can be read.
#[tactic(auto, using(crate::proofs::Unfound::unfound_refuses))]
pub fn find_folder<R: Files + AllocGlobal>(rt: &R, folder: &str) -> Result<PathBuf, FolderFault>
    ensures unreadable { IfErr result (λ fault. (fault ≡ NoMemory) ⊎ (fault ≡ Image 0 Unreadable)) }
    ensures fault { IfErr result MayRefuse }
{
    match fs::canonicalize(rt, folder) {
        Ok(path) => Ok(path),
        Err(error) => Err(fault_of(&error)),
    }
}

/// Why a folder is not found. Only where the system refused memory it is for want of memory.
fn fault_of(error: &io::Error) -> FolderFault
    ensures memory { (result ≡ NoMemory) ↔ (error_kind error.now ≡ ErrorKind.OutOfMemory) }
    ensures unreadable { (result ≡ NoMemory) ⊎ (result ≡ Image 0 Unreadable) }
{
    match error.kind() {
        ErrorKind::OutOfMemory => FolderFault::NoMemory,
        _ => FolderFault::Image {
            disk: 0,
            fault: ImageFault::Unreadable,
        },
    }
}
