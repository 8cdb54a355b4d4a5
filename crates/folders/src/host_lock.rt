ghost use Rattle.std.specs.Prelude.{◌≡◌, IfOk, IfErr};
ghost use Rattle.std.specs.Path.{path_buf_bytes, path_join};
ghost use Rattle.folders.specs.declared.host_lock.LockFault.TheVariants.{NoMemory, InUse};
ghost use Rattle.folders.specs.Folders.{lock_name, IsLockFault};

use lock_command::HostNumber;
use std::alloc::{AllocError, Global};
use std::fs::{File, OpenOptions, TryLockError};
use std::io;
use std::path::{Path, PathBuf};
use std::rt::Files;
use thiserror::Error;

/// An open file that can be locked as a whole, against every other open of it. The lock goes when the file is closed, and so with
/// its process, however that ends. It keeps those away alone who ask for it, too.
pub trait TryLock {
    /// What is known of a file whose lock was given.
    ghost locked: { Self → Type 0 };

    /// What is known of a file whose lock somebody else has.
    ghost held: { Self → Type 0 };

    /// Takes the lock, unless somebody else has it. It never waits.
    fn try_lock(&self) -> Result<(), TryLockError>
        ensures locked { IfOk result (λ _. locked self.now) }
        ensures held { IfErr result (λ fault. fault ≡ TryLockError.WouldBlock → held self.now) };
}

impl TryLock for File {
    // The system alone knows who has a lock.
    ghost locked = { λ file. Unit {0} };

    ghost held = { λ file. Unit {0} };

    fn try_lock(&self) -> Result<(), TryLockError> {
        File::try_lock(self)
    }
}

/// Why a host's number could not be locked.
#[derive(Clone, Copy, Debug, PartialEq, Eq, Error)]
pub enum LockFault {
    #[error("out of memory")]
    NoMemory,
    /// Somebody works under this number.
    #[error("host {0} is in use")]
    InUse(u8),
    /// The lock's file could not be opened or made, or its file system has no locks.
    #[error("host {0} cannot be locked")]
    NoLock(u8),
}

impl From<AllocError> for LockFault {
    ghost from_gives = { λ _ fault. fault ≡ NoMemory };

    fn from(_: AllocError) -> Self {
        LockFault::NoMemory
    }
}

/// Keeps every other process that asks so from working under a host's number in this folder, for as long as the file that is given
/// is kept. Lock the number before the first operation of a host that writes; who but looks needs no lock.
///
/// The lock is on a file of its own beside the images, which is made where it is not there. It may be a link to another place.
pub fn lock_host<R: Files + AllocGlobal>(
    rt: &R,
    folder: &str,
    host: HostNumber,
) -> Result<R::File, LockFault>
where
    R::File: TryLock,
    ensures locked { IfOk result R.File.locked }
    ensures fault { IfErr result (IsLockFault host) }
    // It was refused for the sake of somebody else only if there was a file whose lock somebody else has.
    ensures in_use { IfErr result (λ fault. fault ≡ InUse host → (file : _) × R.File.held file) }
{
    let path = lock_path(rt.alloc(), folder, host)?;
    let file = open_lock_file(rt, path.as_str()).map_err(|_| LockFault::NoLock(host.get()))?;
    match file.try_lock() {
        Ok(()) => Ok(file),
        Err(TryLockError::WouldBlock) => Err(LockFault::InUse(host.get())),
        Err(TryLockError::Error(_)) => Err(LockFault::NoLock(host.get())),
    }
}

/// The path of the file by which a host's number is locked.
pub fn lock_path(alloc: Global, folder: &str, host: HostNumber) -> Result<PathBuf, LockFault>
    ensures path { IfOk result (λ path. path_buf_bytes path ≡ path_join folder.now (lock_name host)) }
    ensures fault { IfErr result (λ fault. fault ≡ NoMemory) }
{
    let number = host.get();
    let name = format!(in alloc; "host{number}.lock")?;
    Ok(Path::new(folder).join(alloc, name.as_str())?)
}

/// One that somebody else made may be there to read alone, which is enough for a lock on most file systems.
fn open_lock_file<R: Files>(files: &R, path: &str) -> io::Result<R::File> {
    match OpenOptions::new()
        .read(true)
        .write(true)
        .create(true)
        .open(files, path)
    {
        Ok(file) => Ok(file),
        Err(_) => File::open(files, path),
    }
}
