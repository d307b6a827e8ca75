//! The files of the system and its writers as a shelf and a sink. This edge is trusted.
//!
//! As a shelf and a sink, these don't report what they hold or wrote: for real files and standard
//! output, that isn't known. [`read_up_to`] promises what a reader gives: `FileShelf` opens the
//! file of a name and reads it that way, or keeps it open and reads once for each piece.
//! [`write_whole`] promises what a writer has, if the writer reports that: `FileShelf` writes the
//! file of a name that way, as module `keeping` says, and `StdSink` its writer. They count each
//! failure, and terminate on every input.
ghost use Rattle.std.specs.Prelude.{◌≡◌, ◌≢◌, ◌+◌, ◌≤◌, ◌<◌, ◌⊎◌, length, take, IfOk, IfSome, IsSome, OnOk, IsErrOf, Err, None, ℕ};
ghost use Rattle.std.specs.Io.KnownBytes.{Appends, Consumes, IsAtEnd};
ghost use Rattle.tc_io.specs.Files.{GaveAtMost, ReadOn, file_tells, new_file_shelf};
ghost use Rattle.tc_io.specs.Outside.{Gave, FailedToGive, WasTooLong, TookPart, Kept, KeptPart, GavePiece, FailedToGivePiece, without_reading, capped_sum};

use crate::faults::{Access, Faults};
use crate::keeping::keep_file;
use crate::{FetchFault, KeepFault, OpenFault, PieceFault, PutFault, Shelf, Sink};
use std::alloc::Global;
use std::fs::{File, Files};
use std::io::{Read, Write};
use std::marker::Model;

/// A file that is open for reading, and its name.
#[derive(Drop)]
struct Open<F: Drop> {
    name: String,
    file: F,
}

impl<F: Drop> Model for Open<F> {
    ghost use Rattle.std.specs.Prelude.{string_bytes};
    ghost use Rattle.tc_io.specs.Files.{PlainOpen};

    ghost Value = { PlainOpen F };

    ghost view = { λ o. record { name = string_bytes o.name; file = o.file } };
}

/// The files of the system, under their paths.
#[derive(Drop)]
pub struct FileShelf<R: Files + Drop> {
    files: R,
    taken: u64,
    faults: Faults,
    reading: Option<Open<R::File>>,
}

impl<R: Files + Drop> Model for FileShelf<R> {
    ghost use Rattle.tc_io.specs.Files.{PlainFileShelf};

    ghost Value = { PlainFileShelf R.File };

    ghost view = { λ s. record { taken = s.taken; faults = s.faults; reading = s.reading } };
}

impl<R: Files + Drop> FileShelf<R> {
    /// A shelf over these files, from which nothing was fetched.
    pub fn new(files: R) -> Self
        ensures { result ≡ new_file_shelf }
    {
        FileShelf {
            files,
            taken: 0,
            faults: Faults::new(),
            reading: None,
        }
    }

    /// How many bytes were taken from the shelf so far.
    pub fn taken(&self) -> u64
        ensures { result ≡ self.now.taken }
    {
        self.taken
    }
}

impl<R: Files + Drop> Shelf for FileShelf<R> {
    ghost use Rattle.tc_io.specs.Files.{file_tells};

    ghost tells = { file_tells };

    fn fetch(&mut self, alloc: Global, name: &str, limit: u64) -> Result<Vec<u8>, FetchFault>
        ensures ok { IfOk result (λ bytes. Gave (file_tells self.old) (file_tells self.new) name.now limit bytes.items) }
        ensures failed { IsErrOf result FetchFault.Failed → FailedToGive (file_tells self.old) (file_tells self.new) name.now limit }
        ensures too_long { IsErrOf result FetchFault.TooLong → WasTooLong (file_tells self.old) (file_tells self.new) name.now limit }
        ensures memory { IsErrOf result FetchFault.Memory → TookPart (file_tells self.old) (file_tells self.new) name.now limit }

        // A file was opened, and the bytes are all that it had left, where files tell that.
        ensures opened { IfOk result (λ bytes. (file : R.File) × IfSome (R.File.remaining file) (λ all. bytes.items ≡ all)) }
        // Where the count rose at all, a file gave what was counted, on every answer.
        ensures counted { (self.new.taken ≡ self.old.taken) ⊎ ((file : R.File) × (after : R.File)
            × GaveAtMost (limit + 1) (R.File.remaining file) (R.File.remaining after) self.old.taken self.new.taken) }
    {
        self.reading = None;
        let Ok(copy) = String::from_str(alloc, name) else {
            return Err(FetchFault::Memory);
        };
        let answer = match File::open(&self.files, name) {
            Ok(mut file) => read_up_to(alloc, &mut file, limit, &mut self.taken),
            Err(_) => Err(FetchFault::Failed),
        };
        if let Err(FetchFault::Failed) = answer {
            self.faults.add(Access::Read, copy);
        }
        answer
    }

    /// The bytes are written beside the file that has the name, which is then renamed over it, or in
    /// place where [`keep_file`] says so. [`write_whole`] promises that an Ok leaves the bytes in the
    /// file that was opened. That the system creates, keeps and renames it isn't proved: no clause
    /// says it, and only tests show it.
    fn keep(&mut self, alloc: Global, name: &str, bytes: &[u8]) -> Result<(), KeepFault>
        ensures ok { OnOk result (Kept (file_tells self.old) (file_tells self.new) name.now bytes.now) }
        ensures failed { IsErrOf result KeepFault.Failed → KeptPart (file_tells self.old) (file_tells self.new) name.now bytes.now }
        ensures memory { IsErrOf result KeepFault.Memory → file_tells self.new ≡ without_reading (file_tells self.old) }

        // A file was opened, and took all of the bytes, where files tell that.
        ensures opened { OnOk result ((file : R.File) × (new : R.File) × Appends (R.File.contents file) (R.File.contents new) bytes.now) }
    {
        self.reading = None;
        let Ok(copy) = String::from_str(alloc, name) else {
            return Err(KeepFault::Memory);
        };
        let answer = keep_file(&self.files, alloc, name, bytes);
        if let Err(KeepFault::Failed) = answer {
            self.faults.add(Access::Write, copy);
        }
        answer
    }

    fn open(&mut self, alloc: Global, name: &str) -> Result<(), OpenFault> {
        self.reading = None;
        let Ok(copy) = String::from_str(alloc, name) else {
            return Err(OpenFault::Memory);
        };
        match File::open(&self.files, name) {
            Ok(file) => {
                self.reading = Some(Open { name: copy, file });
                Ok(())
            }
            Err(_) => {
                self.faults.add(Access::Read, copy);
                Err(OpenFault::Failed)
            }
        }
    }

    /// One read of the open file. A read of no bytes is the end, and each error is a failure, even
    /// an interruption.
    fn piece(&mut self, buf: &mut [u8]) -> Result<usize, PieceFault>
        requires opened { IsSome (file_tells self.old).open_name }
        requires room { 0 < length buf.old }
        ensures within { IfOk result (λ count. count ≤ length buf.new) }
        ensures ok { IfOk result (λ count. GavePiece (file_tells self.old) (file_tells self.new) (take count buf.new)) }
        ensures failed { IsErrOf result PieceFault.Failed → FailedToGivePiece (file_tells self.old) (file_tells self.new) (length buf.new) }

        // The file that was opened gave the bytes, where files tell that.
        ensures given { IfOk result (λ count. ReadOn R.File.remaining self.old.reading self.new.reading (take count buf.new)) }
        ensures none { IsErrOf result PieceFault.Failed → self.new.taken ≡ self.old.taken }
    {
        let Open { name, mut file } = self.reading.take().unwrap();
        match file.read(buf) {
            Ok(count) => {
                self.taken = self.taken.saturating_add(count as u64);
                self.reading = Some(Open { name, file });
                Ok(count)
            }
            Err(_) => {
                self.faults.add(Access::Read, name);
                Err(PieceFault::Failed)
            }
        }
    }

    fn is_open(&self) -> bool {
        self.reading.is_some()
    }
}

/// The bytes that a reader has left, at most `limit`, each counted when it is taken.
///
/// It asks for at most one byte past the limit, which shows that there are too many. A read of no
/// bytes is the end, and each error ends the call as a failure, even an interruption.
#[tactic(auto, using(crate::proofs::Known::consumed))]
pub fn read_up_to<R: Read>(
    alloc: Global,
    from: &mut R,
    limit: u64,
    taken: &mut u64,
) -> Result<Vec<u8>, FetchFault>
    ensures gave { GaveAtMost (limit + 1) (R.remaining from.old) (R.remaining from.new) taken.old taken.new }
    ensures within { IfOk result (λ bytes. length bytes.items ≤ limit) }
    ensures counted { IfOk result (λ bytes. taken.new ≡ capped_sum taken.old (length bytes.items)) }
    // If the reader tells what it has left, these are all its bytes, and it has none now.
    ensures all { IfOk result (λ bytes. IfSome (R.remaining from.old) (λ all. bytes.items ≡ all)) }
    ensures too_long { IsErrOf result FetchFault.TooLong → taken.new ≡ capped_sum taken.old (limit + 1) }
    ensures longer { IsErrOf result FetchFault.TooLong → IfSome (R.remaining from.old) (λ all. limit < length all) }
{
    let mut bytes = Vec::new(alloc);
    let mut piece = [0u8; 4096];
    loop {
        let room = limit - bytes.len() as u64;
        let want = if room < 4095 { room as usize + 1 } else { 4096 };
        match from.read(&mut piece[..want]) {
            Err(_) => return Err(FetchFault::Failed),
            Ok(0) => return Ok(bytes),
            Ok(n) => {
                *taken = taken.saturating_add(n as u64);
                if n as u64 > room {
                    return Err(FetchFault::TooLong);
                }
                if bytes.extend_from_slice(&piece[..n]).is_err() {
                    return Err(FetchFault::Memory);
                }
            }
        }
    }
}

/// Writes all of the bytes.
///
/// Every round but the last takes a byte. A write that takes none ends the call as a failure, and
/// so does each error, even an interruption; then a prefix of the bytes was written.
pub fn write_whole<W: Write>(to: &mut W, bytes: &[u8]) -> Result<(), PutFault>
    // Where the writer tells what it has, that grows by the bytes, and by a front of them after a failure.
    ensures told { OnOk result (Appends (W.contents to.old) (W.contents to.new) bytes.now) }
    ensures part { IsErrOf result PutFault.Failed → (count : ℕ) × Appends (W.contents to.old) (W.contents to.new) (take count bytes.now) }
    ensures memory { result ≢ Err PutFault.Memory }
{
    let mut rest = bytes;
    while !rest.is_empty() {
        match to.write(rest) {
            Ok(n) if n > 0 => rest = &rest[n..],
            _ => return Err(PutFault::Failed),
        }
    }
    Ok(())
}

/// A writer as a sink.
///
/// It writes as [`write_whole`] does, and doesn't flush, so give it a writer that holds nothing
/// back, such as standard output.
#[derive(Drop)]
pub struct StdSink<W: Write + Drop> {
    to: W,
    faults: u64,
}

impl<W: Write + Drop> Model for StdSink<W> {
    ghost use Rattle.std.specs.Prelude.{ℕ};

    ghost Value = { W × ℕ };

    ghost view = { λ s. (s.to, s.faults) };
}

impl<W: Write + Drop> StdSink<W> {
    /// A sink over this writer, to which nothing was written.
    pub fn new(to: W) -> Self
        ensures { result ≡ (to, 0) }
    {
        StdSink { to, faults: 0 }
    }
}

impl<W: Write + Drop> Sink for StdSink<W> {
    ghost use Rattle.std.specs.Prelude.{None};

    ghost tells = { λ s. record { written = None; faults = s.1 } };

    fn put(&mut self, bytes: &[u8]) -> Result<(), PutFault>
        ensures ok { OnOk result (self.new.1 ≡ self.old.1) }
        ensures failed { IsErrOf result PutFault.Failed → self.new.1 ≡ capped_sum self.old.1 1 }
        ensures memory { result ≢ Err PutFault.Memory }

        // What the writer tells that it has grows by the bytes, and by a front of them where the put failed.
        ensures told { OnOk result (Appends (W.contents self.old.0) (W.contents self.new.0) bytes.now) }
        ensures part { IsErrOf result PutFault.Failed → (count : ℕ) × Appends (W.contents self.old.0) (W.contents self.new.0) (take count bytes.now) }
    {
        let answer = write_whole(&mut self.to, bytes);
        if answer.is_err() {
            self.faults = self.faults.saturating_add(1);
        }
        answer
    }
}
