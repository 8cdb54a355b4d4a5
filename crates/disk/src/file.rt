ghost use Rattle.std.specs.Prelude.{◌≡◌, ◌≢◌, ◌+◌, ◌-◌, ◌≤◌, ◌^◌, true, false, Some, None, min, length, IfOk, IfErr};
ghost use Rattle.std.specs.Fs.{metadata_len};
ghost use Rattle.disk.specs.declared.fault.ImageFault.TheVariants.{Unreadable};

use crate::{Boot, Disk, DiskFault, ImageFault};
use std::fs::{File, OpenFile, OpenOptions};
use std::io;
use std::io::{Seek, SeekFrom};
use std::marker::Model;
use std::os::unix::fs::{FileExt, FileTypeExt};
use std::rt::Files;

/// The boot number of every file.
const BOOT: Boot = Boot { number: 1 };

/// How many bytes of a file are read at a time, until two reads agree. A longer read is made in parts of this length, which may
/// be of different moments.
pub const READ_LENGTH: usize = 4096;

/// How often such a part is read, at most.
const MOST_READS: usize = 9;

/// A disk that is a file or a block device, or none: then every call fails. No call takes memory, and none but those that open
/// it or make it looks at how long it is.
#[derive(Drop)]
pub struct FileDisk<F> {
    file: Option<F>,
    size: u64,
    failures: u64,
}

impl<F> Model for FileDisk<F> {
    ghost use Rattle.std.specs.Prelude.{is_some};
    ghost use Rattle.disk.specs.FileStates.{FileState};

    ghost Value = { FileState };

    ghost view = { λ d. record { used = is_some d.file; size = d.size; failures = d.failures } };
}

impl<F: FileExt + OpenFile + Drop> FileDisk<F> {
    /// The file or block device at this path, which is there and can be read and written.
    pub fn open<R: Files<File = F>>(files: &R, path: &str) -> Result<FileDisk<F>, ImageFault>
        ensures used { IfOk result (λ d. (d.used ≡ true) × (d.failures ≡ 0)) }
        ensures fault { IfErr result (λ fault. fault ≡ Unreadable) }
    {
        match open_file(files, path) {
            Ok((file, size)) => Ok(FileDisk {
                file: Some(file),
                size,
                failures: 0,
            }),
            Err(_) => Err(ImageFault::Unreadable),
        }
    }

    /// The file or block device at this path, which is there and can be read. Every write to it fails.
    pub fn open_to_read<R: Files<File = F>>(
        files: &R,
        path: &str,
    ) -> Result<FileDisk<F>, ImageFault>
        ensures used { IfOk result (λ d. (d.used ≡ true) × (d.failures ≡ 0)) }
        ensures fault { IfErr result (λ fault. fault ≡ Unreadable) }
    {
        match open_file_to_read(files, path) {
            Ok((file, size)) => Ok(FileDisk {
                file: Some(file),
                size,
                failures: 0,
            }),
            Err(_) => Err(ImageFault::Unreadable),
        }
    }

    /// A new and empty file at this path, for a disk of this size. Nothing is there before.
    pub fn make<R: Files<File = F>>(
        files: &R,
        path: &str,
        size: u64,
    ) -> Result<FileDisk<F>, ImageFault>
        ensures used { IfOk result (λ d. d ≡ record { used = true; size = size; failures = 0 }) }
        ensures fault { IfErr result (λ fault. fault ≡ Unreadable) }
    {
        match File::create_new(files, path) {
            Ok(file) => Ok(FileDisk {
                file: Some(file),
                size,
                failures: 0,
            }),
            Err(_) => Err(ImageFault::Unreadable),
        }
    }

    /// No file: a disk of this size of which every call fails.
    pub fn missing(size: u64) -> FileDisk<F>
        ensures { result ≡ record { used = false; size = size; failures = 0 } }
    {
        FileDisk {
            file: None,
            size,
            failures: 0,
        }
    }

    /// Whether it is a block device, which may be longer than what is kept on it.
    pub fn is_block_device(&self) -> bool {
        match &self.file {
            Some(file) => is_block_device(file),
            None => false,
        }
    }

    /// Leaves all but the first bytes out of use from now on. The file or device itself stays as long as it is.
    pub fn cut(&mut self, size: u64)
        requires { size ≤ self.old.size }
        ensures { self.new ≡ record self.old { size = size } }
    {
        self.size = size;
    }

    // Counts a failure.
    fn fail(&mut self) -> DiskFault
        ensures fault { result ≡ DiskFault.Failed }
        ensures counted { self.new ≡ record self.old { failures = min (self.old.failures + 1) (2 ^ 64 - 1) } }
    {
        self.failures = self.failures.saturating_add(1);
        DiskFault::Failed
    }
}

fn open_file<R: Files>(files: &R, path: &str) -> io::Result<(R::File, u64)>
where
    R::File: OpenFile,
{
    let mut file = OpenOptions::new().read(true).write(true).open(files, path)?;
    let size = length_of(&mut file)?;
    Ok((file, size))
}

fn open_file_to_read<R: Files>(files: &R, path: &str) -> io::Result<(R::File, u64)>
where
    R::File: OpenFile,
{
    let mut file = OpenOptions::new().read(true).open(files, path)?;
    let size = length_of(&mut file)?;
    Ok((file, size))
}

/// The length in bytes. For a block device a seek to its end is the only way to find it.
fn length_of<F: OpenFile + Seek>(file: &mut F) -> io::Result<u64> {
    if is_block_device(file) {
        return file.seek(SeekFrom::End(0));
    }
    Ok(file.metadata()?.len())
}

fn is_block_device<F: OpenFile>(file: &F) -> bool {
    match file.metadata() {
        Ok(metadata) => metadata.file_type().is_block_device(),
        Err(_) => false,
    }
}

/// Reads each part until two reads in a row give the same bytes. Returns whether they did.
///
/// A read that overlaps another process's write may give some bytes from before that write and some from after it. Bytes
/// that two reads agree on were there between the two reads.
fn read_settled<F: FileExt>(file: &F, into: &mut [u8], at: u64) -> bool {
    let mut place = at;
    for part in into.chunks_mut(READ_LENGTH) {
        if !read_until_two_agree(file, part, place) {
            return false;
        }
        place = place.saturating_add(READ_LENGTH as u64);
    }
    true
}

fn read_until_two_agree<F: FileExt>(file: &F, into: &mut [u8], at: u64) -> bool
    requires { length into.old ≤ READ_LENGTH }
{
    let long = into.len();
    let mut again = [0; READ_LENGTH];
    if file.read_exact_at(into, at).is_err() {
        return false;
    }
    for _ in 1..MOST_READS {
        if file.read_exact_at(&mut again[..long], at).is_err() {
            return false;
        }
        if into[..] == again[..long] {
            return true;
        }
        into.copy_from_slice(&again[..long]);
    }
    false
}

impl<F: FileExt + OpenFile + Drop> Disk for FileDisk<F> {
    ghost use Rattle.std.specs.Prelude.{false};
    ghost use Rattle.disk.specs.FileStates.{FileGives, untold};
    ghost use Rattle.disk.specs.Simulated.{fresh_disk};

    // Contracts cannot see the bytes of a file. So `tells` is false below, and this state is never looked at.
    ghost state = { λ d. fresh_disk 0 };

    ghost device = { λ d. record { tells = false; size = d.size; boot = 1; gone = false } };

    ghost failures = { λ d. d.failures };

    ghost gives = { FileGives };

    ghost told = { λ d tells. untold tells };

    fn size(&self) -> u64 {
        self.size
    }

    fn attach(&mut self) -> Result<Boot, DiskFault> {
        if self.file.is_none() {
            return Err(self.fail());
        }
        Ok(BOOT)
    }

    fn read(&mut self, boot: Boot, at: u64, into: &mut [u8]) -> Result<(), DiskFault> {
        if boot.number != BOOT.number {
            return Err(DiskFault::Reset);
        }
        let told = match &self.file {
            Some(file) => read_settled(file, into, at),
            None => false,
        };
        if told { Ok(()) } else { Err(self.fail()) }
    }

    fn write(&mut self, boot: Boot, at: u64, from: &[u8]) -> Result<(), DiskFault> {
        if boot.number != BOOT.number {
            return Err(DiskFault::Reset);
        }
        let done = match &self.file {
            Some(file) => file.write_all_at(from, at).is_ok(),
            None => false,
        };
        if done { Ok(()) } else { Err(self.fail()) }
    }

    fn sync(&mut self, boot: Boot) -> Result<(), DiskFault> {
        if boot.number != BOOT.number {
            return Err(DiskFault::Reset);
        }
        let done = match &self.file {
            Some(file) => file.sync_data().is_ok(),
            None => false,
        };
        if done {
            return Ok(());
        }
        // The system may now count bytes as written that are not, and no later sync would report it. So the file is used no more.
        self.file = None;
        Err(self.fail())
    }
}
