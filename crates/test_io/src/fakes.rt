//! Readers, writers and files that fail.
ghost use Rattle.std.specs.Prelude.{◌≤◌, IfOk};

use std::alloc::Allocator;
use std::fs::{Metadata, OpenFile, OpenOptions};
use std::io::{self, ErrorKind, SeekFrom};
use std::rt::Files;

/// Takes and gives a byte at a time, and is interrupted once, after a number of bytes.
#[derive(Drop)]
pub(crate) struct Interrupted {
    pub(crate) before: u8,
    pub(crate) after: u8,
}

impl Interrupted {
    fn turn(&mut self) -> io::Result<usize>
        ensures { IfOk result (λ count. count ≤ 1) }
    {
        if self.before > 0 {
            self.before -= 1;
            return Ok(1);
        }
        if self.after == 0 {
            return Ok(0);
        }
        self.before = self.after;
        self.after = 0;
        Err(io::Error::from(ErrorKind::Interrupted))
    }
}

impl io::Write for Interrupted {
    fn write(&mut self, bytes: &[u8]) -> io::Result<usize> {
        if bytes.is_empty() {
            return Ok(0);
        }
        self.turn()
    }

    fn flush(&mut self) -> io::Result<()> {
        Ok(())
    }
}

impl io::Read for Interrupted {
    fn read(&mut self, buf: &mut [u8]) -> io::Result<usize> {
        if buf.is_empty() {
            return Ok(0);
        }
        self.turn()
    }
}

/// A folder in which each file gives three bytes, one at a time, and then fails.
#[derive(Drop)]
pub struct ShortFiles;

/// A file that gives `left` more bytes, and does nothing else.
#[derive(Drop)]
pub struct ShortFile {
    left: u8,
}

/// The answer to every other call on a folder or a file.
fn unsupported() -> io::Error {
    io::Error::from(ErrorKind::Unsupported)
}

impl io::Read for ShortFile {
    fn read(&mut self, buf: &mut [u8]) -> io::Result<usize> {
        if buf.is_empty() {
            return Ok(0);
        }
        if self.left == 0 {
            return Err(unsupported());
        }
        self.left -= 1;
        Ok(1)
    }
}

impl io::Write for ShortFile {
    fn write(&mut self, _bytes: &[u8]) -> io::Result<usize> {
        Err(unsupported())
    }

    fn flush(&mut self) -> io::Result<()> {
        Err(unsupported())
    }
}

impl io::Seek for ShortFile {
    fn seek(&mut self, _to: SeekFrom) -> io::Result<u64> {
        Err(unsupported())
    }
}

impl OpenFile for ShortFile {
    fn metadata(&self) -> io::Result<Metadata> {
        Err(unsupported())
    }

    fn set_len(&self, _size: u64) -> io::Result<()> {
        Err(unsupported())
    }

    fn sync_all(&self) -> io::Result<()> {
        Err(unsupported())
    }

    fn sync_data(&self) -> io::Result<()> {
        Err(unsupported())
    }
}

impl Files for ShortFiles {
    type File = ShortFile;

    type Dir = ShortFile;

    fn open_file(&self, _how: &OpenOptions, _path: &str) -> io::Result<ShortFile> {
        Ok(ShortFile { left: 3 })
    }

    fn open_dir(&self, _path: &str) -> io::Result<ShortFile> {
        Err(unsupported())
    }

    fn metadata(&self, _path: &str) -> io::Result<Metadata> {
        Err(unsupported())
    }

    fn symlink_metadata(&self, _path: &str) -> io::Result<Metadata> {
        Err(unsupported())
    }

    fn copy(&self, _from: &str, _to: &str) -> io::Result<u64> {
        Err(unsupported())
    }

    fn rename(&self, _from: &str, _to: &str) -> io::Result<()> {
        Err(unsupported())
    }

    fn remove_file(&self, _path: &str) -> io::Result<()> {
        Err(unsupported())
    }

    fn create_dir(&self, _path: &str) -> io::Result<()> {
        Err(unsupported())
    }

    fn remove_dir(&self, _path: &str) -> io::Result<()> {
        Err(unsupported())
    }

    fn remove_dir_all<B: Allocator>(&self, _alloc: B, _path: &str) -> io::Result<()> {
        Err(unsupported())
    }
}
