ghost use Rattle.std.specs.Prelude.{IfOk, IfErr};
ghost use Rattle.log_folders.specs.LogFolders.{IsLogOpened, MayRefuseLog};

use crate::endless_folder::{EndlessFolder, open_endless};
use folders::{Access, Folder, FolderFault, open_images};
use std::fs::OpenFile;
use std::os::unix::fs::FileExt;
use std::rt::Files;
use torn_block::ClusterLayout;

/// A folder of a log that ends, or of one without an end.
#[derive(Drop)]
pub enum LogFolder<F> {
    Ending(Folder<F>),
    Endless(EndlessFolder<F>),
}

/// Opens the images of a folder of either kind of log. One that is missing or refused is a disk of which every call fails. Hand in the folder's own
/// path, as `find_folder` gives it.
///
/// Images of a log that ends are opened twice: they are closed once it is known what they are, and `folders` opens them again.
pub fn open_log<R: Files + AllocGlobal>(
    rt: &R,
    folder: &str,
    access: Access,
) -> Result<LogFolder<R::File>, FolderFault>
where
    R::File: FileExt + OpenFile + Drop,
    ensures opened { IfOk result IsLogOpened }
    ensures fault { IfErr result MayRefuseLog }
{
    match open_endless(rt, folder, access)? {
        Some(folder) => Ok(LogFolder::Endless(folder)),
        None => {
            let images = open_images::<ClusterLayout, R>(rt, folder, access)?;
            Ok(LogFolder::Ending(images))
        }
    }
}
