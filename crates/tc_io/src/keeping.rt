//! How a file is kept: written beside the one that has its name, and renamed.
//!
//! So a full disk or a stop leaves the old file whole. A file is written in place where a rename
//! can't be made or would change more than its bytes: a device, a pipe, an open file of this
//! process, a file with several names, or another owner's. What the system does isn't proved: no
//! clause says it, and only tests show it.
ghost use Rattle.std.specs.Prelude.{OnOk};
ghost use Rattle.std.specs.Io.KnownBytes.{Appends};

use crate::KeepFault;
use crate::files::write_whole;
use std::alloc::Global;
use std::fs::{self, File, Files, OpenFile, OpenOptions};
use std::io::ErrorKind;
use std::os::unix::fs::MetadataExt;

/// How many names a new file is tried under.
const TRIES: u32 = 100;

/// What a name is of before it is written.
#[derive(Clone, Copy)]
enum Place {
    /// No file.
    Free,
    /// A file that a rename may replace.
    File,
    /// What is written in place.
    Fixed,
}

/// A file that was created beside another, and its name.
#[derive(Drop)]
struct NewFile<F: Drop> {
    file: F,
    name: String,
}

/// Why a new file didn't get the other one's name.
#[derive(Clone, Copy)]
enum Unfilled {
    /// It didn't take all of the bytes.
    Full,
    /// It has another owner or other permissions, or a rename isn't possible.
    Unlike,
}

/// Puts the bytes under a name, instead of what it has.
///
/// After a fault the file is as it was, unless it was written in place: then it may have a front
/// of the bytes.
pub fn keep_file<R: Files>(
    files: &R,
    alloc: Global,
    name: &str,
    bytes: &[u8],
) -> Result<(), KeepFault>
    // A file was opened, and took all of the bytes, where files tell that.
    ensures opened { OnOk result ((file : R.File) × (new : R.File) × Appends (R.File.contents file) (R.File.contents new) bytes.now) }
{
    match place_of(files, name) {
        Place::Free => replace(files, alloc, name, bytes),
        // (through links, which stay)
        Place::File => match files.canonicalize(alloc, name) {
            Ok(path) => replace(files, alloc, path.as_str(), bytes),
            Err(_) => write_in_place(files, name, bytes),
        },
        Place::Fixed => write_in_place(files, name, bytes),
    }
}

/// What a name is of. A file that can't be written isn't replaced, nor is a link to nothing.
fn place_of<R: Files>(files: &R, name: &str) -> Place {
    if name.starts_with("/dev/") || name.starts_with("/proc/") {
        return Place::Fixed;
    }
    let Ok(old) = fs::metadata(files, name) else {
        return match fs::symlink_metadata(files, name) {
            Ok(_) => Place::Fixed,
            Err(_) => Place::Free,
        };
    };
    if !old.is_file() || old.nlink() > 1 {
        return Place::Fixed;
    }
    match OpenOptions::new().write(true).open(files, name) {
        Ok(_) => Place::File,
        Err(_) => Place::Fixed,
    }
}

/// Writes a new file and gives it this path, or writes in place where that can't be done.
fn replace<R: Files>(files: &R, alloc: Global, path: &str, bytes: &[u8]) -> Result<(), KeepFault>
    ensures opened { OnOk result ((file : R.File) × (new : R.File) × Appends (R.File.contents file) (R.File.contents new) bytes.now) }
{
    let Some(mut new) = create_beside(files, alloc, path)? else {
        return write_in_place(files, path, bytes);
    };
    let answer = fill(files, &mut new, path, bytes);
    if answer.is_err() {
        let _ = fs::remove_file(files, &new.name);
    }
    match answer {
        Ok(()) => Ok(()),
        Err(Unfilled::Full) => Err(KeepFault::Failed),
        Err(Unfilled::Unlike) => write_in_place(files, path, bytes),
    }
}

/// Writes the new file and renames it.
fn fill<R: Files>(
    files: &R,
    new: &mut NewFile<R::File>,
    path: &str,
    bytes: &[u8],
) -> Result<(), Unfilled>
    ensures opened { OnOk result ((file : R.File) × (new : R.File) × Appends (R.File.contents file) (R.File.contents new) bytes.now) }
{
    if !becomes_like(files, &new.file, path) {
        return Err(Unfilled::Unlike);
    }
    if write_whole(&mut new.file, bytes).is_err() || new.file.sync_all().is_err() {
        return Err(Unfilled::Full);
    }
    if fs::rename(files, &new.name, path).is_err() {
        return Err(Unfilled::Unlike);
    }
    Ok(())
}

/// A new file in the folder of a path, or none where that takes none. A disk that is full is a
/// fault, since nothing may be written in place then.
fn create_beside<R: Files>(
    files: &R,
    alloc: Global,
    path: &str,
) -> Result<Option<NewFile<R::File>>, KeepFault> {
    for number in 0..TRIES {
        let Ok(name) = format!(in alloc; "{path}.new-{number}") else {
            return Err(KeepFault::Memory);
        };
        match File::create_new(files, name.as_str()) {
            Ok(file) => return Ok(Some(NewFile { file, name })),
            Err(fault) => match fault.kind() {
                ErrorKind::AlreadyExists => {}
                ErrorKind::PermissionDenied | ErrorKind::InvalidFilename => return Ok(None),
                _ => return Err(KeepFault::Failed),
            },
        }
    }
    Ok(None)
}

/// Gives the new file the permissions of the one that has the path, if any; false where that isn't
/// possible, or where the two have different owners or groups.
fn becomes_like<R: Files>(files: &R, file: &R::File, path: &str) -> bool {
    let Ok(old) = fs::metadata(files, path) else {
        return true;
    };
    let Ok(new) = file.metadata() else {
        return false;
    };
    new.uid() == old.uid()
        && new.gid() == old.gid()
        && file.set_permissions(old.permissions()).is_ok()
}

/// Creates the file or truncates it, and writes it.
fn write_in_place<R: Files>(files: &R, name: &str, bytes: &[u8]) -> Result<(), KeepFault>
    ensures opened { OnOk result ((file : R.File) × (new : R.File) × Appends (R.File.contents file) (R.File.contents new) bytes.now) }
{
    let Ok(mut file) = File::create(files, name) else {
        return Err(KeepFault::Failed);
    };
    match write_whole(&mut file, bytes) {
        Ok(()) => Ok(()),
        Err(_) => Err(KeepFault::Failed),
    }
}
