use std::alloc::Allocator;
use std::cell::Cell;
use std::fs::{Metadata, OpenFile, OpenOptions};
use std::io;
use std::io::{Read, Seek, SeekFrom, Write};
use std::os::unix::fs::FileExt;
use std::rt::Files;

/// A file whose bytes all change between two reads of it, so many times. It counts its reads.
#[derive(Drop)]
pub struct Changing<'a> {
    changes: u8,
    reads: &'a Cell<u8>,
}

/// Files of which each one that is opened is such a file.
#[derive(Drop)]
pub struct ChangingFiles<'a> {
    pub changes: u8,
    pub reads: &'a Cell<u8>,
}

fn unsupported() -> io::Error {
    io::Error::from(io::ErrorKind::Unsupported)
}

impl FileExt for Changing<'_> {
    fn read_at(&self, buf: &mut [u8], _offset: u64) -> io::Result<usize> {
        let before = self.reads.get();
        self.reads.set(before.wrapping_add(1));
        buf.fill(before.min(self.changes));
        Ok(buf.len())
    }

    fn write_at(&self, buf: &[u8], _offset: u64) -> io::Result<usize> {
        Ok(buf.len())
    }
}

impl Read for Changing<'_> {
    fn read(&mut self, _buf: &mut [u8]) -> io::Result<usize> {
        Err(unsupported())
    }
}

impl Write for Changing<'_> {
    fn write(&mut self, _buf: &[u8]) -> io::Result<usize> {
        Err(unsupported())
    }

    fn flush(&mut self) -> io::Result<()> {
        Err(unsupported())
    }
}

impl Seek for Changing<'_> {
    fn seek(&mut self, _to: SeekFrom) -> io::Result<u64> {
        Err(unsupported())
    }
}

impl OpenFile for Changing<'_> {
    fn metadata(&self) -> io::Result<Metadata> {
        Err(unsupported())
    }

    fn set_len(&self, _size: u64) -> io::Result<()> {
        Err(unsupported())
    }

    fn sync_all(&self) -> io::Result<()> {
        Err(unsupported())
    }

    fn sync_data(&self) -> io::Result<()> {
        Err(unsupported())
    }
}

impl<'a> Files for ChangingFiles<'a> {
    type File = Changing<'a>;

    type Dir = Changing<'a>;

    fn open_file(&self, _how: &OpenOptions, _path: &str) -> io::Result<Changing<'a>> {
        Ok(Changing {
            changes: self.changes,
            reads: self.reads,
        })
    }

    fn open_dir(&self, _path: &str) -> io::Result<Changing<'a>> {
        Err(unsupported())
    }

    fn metadata(&self, _path: &str) -> io::Result<Metadata> {
        Err(unsupported())
    }

    fn symlink_metadata(&self, _path: &str) -> io::Result<Metadata> {
        Err(unsupported())
    }

    fn copy(&self, _from: &str, _to: &str) -> io::Result<u64> {
        Err(unsupported())
    }

    fn rename(&self, _from: &str, _to: &str) -> io::Result<()> {
        Err(unsupported())
    }

    fn remove_file(&self, _path: &str) -> io::Result<()> {
        Err(unsupported())
    }

    fn create_dir(&self, _path: &str) -> io::Result<()> {
        Err(unsupported())
    }

    fn remove_dir(&self, _path: &str) -> io::Result<()> {
        Err(unsupported())
    }

    fn remove_dir_all<B: Allocator>(&self, _alloc: B, _path: &str) -> io::Result<()> {
        Err(unsupported())
    }
}
