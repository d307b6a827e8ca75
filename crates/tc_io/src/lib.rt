//! The outside world as two traits: a [`Shelf`] of named bytes, and a [`Sink`] where answers go.
//!
//! A shelf gives the bytes of a name as a whole (a fetch), or piece by piece (an open reading).
//!
//! Module `files` has the system's files and its writers, and is trusted; module `keeping` replaces
//! such a file. Module `faults` counts the failed calls of a shelf. Shelves and sinks in memory are
//! in `test_shelves`.
#![tactic(auto)]

ghost use Rattle.std.specs.Prelude.{◌≡◌, ◌≤◌, ◌<◌, length, take, is_some, IsSome, IfOk, OnOk, IsErrOf};
ghost use Rattle.tc_io.specs.Outside.{
  ShelfTells,
  SinkTells,
  without_reading,
  Gave,
  FailedToGive,
  WasTooLong,
  TookPart,
  Kept,
  KeptPart,
  Opened,
  FailedToOpen,
  GavePiece,
  FailedToGivePiece,
  Wrote,
  WrotePart,
};

pub mod faults;
pub mod files;
mod keeping;

use std::alloc::Global;

/// Why a fetch gave no bytes.
#[derive(Clone, Copy, Debug, PartialEq, Eq)]
pub enum FetchFault {
    /// The shelf failed, as it does if the name is absent.
    Failed,
    /// The name has more bytes than the limit.
    TooLong,
    /// There is no memory for the bytes, or for the copy of the name.
    Memory,
}

/// Why a keep failed.
#[derive(Clone, Copy, Debug, PartialEq, Eq)]
pub enum KeepFault {
    /// The shelf failed, maybe after some of the bytes.
    Failed,
    /// There is no memory for the bytes, or for the copy of the name.
    Memory,
}

/// Why no reading was opened.
#[derive(Clone, Copy, Debug, PartialEq, Eq)]
pub enum OpenFault {
    /// The shelf failed, as it does if the name is absent.
    Failed,
    /// There is no memory for the copy of the name.
    Memory,
}

/// Why a piece wasn't given.
#[derive(Clone, Copy, Debug, PartialEq, Eq)]
pub enum PieceFault {
    /// The shelf failed, maybe after some of the bytes.
    Failed,
}

/// Why a put failed.
#[derive(Clone, Copy, Debug, PartialEq, Eq)]
pub enum PutFault {
    /// The sink failed, maybe after some of the bytes.
    Failed,
    /// There is no memory for the bytes.
    Memory,
}

/// Bytes under names, such as a folder of files.
///
/// A shelf promises only what it reports: of real files, only the bytes that came out are known.
///
/// At most one reading is open. A fetch, a keep and another open end it, whatever their result.
pub trait Shelf {
    /// What the shelf reports: its contents, how many calls failed and the last of them, how many
    /// bytes were taken, and the name of the open reading and the bytes that it has left.
    ghost tells: { Self → ShelfTells };

    /// The bytes under a name, at most `limit` of them.
    ///
    /// It copies the name first, so that a fault always has one. It takes at most one byte past the
    /// limit, which shows that there are too many.
    fn fetch(&mut self, alloc: Global, name: &str, limit: u64) -> Result<Vec<u8>, FetchFault>
        ensures ok { IfOk result (λ bytes. Gave (tells self.old) (tells self.new) name.now limit bytes.items) }
        ensures failed { IsErrOf result FetchFault.Failed → FailedToGive (tells self.old) (tells self.new) name.now limit }
        ensures too_long { IsErrOf result FetchFault.TooLong → WasTooLong (tells self.old) (tells self.new) name.now limit }
        ensures memory { IsErrOf result FetchFault.Memory → TookPart (tells self.old) (tells self.new) name.now limit };

    /// Puts all of the bytes under a name, instead of its old bytes.
    ///
    /// It copies the name first, so that a fault always has one. After a keep that failed the name
    /// has its old bytes, or a prefix of the new ones.
    fn keep(&mut self, alloc: Global, name: &str, bytes: &[u8]) -> Result<(), KeepFault>
        ensures ok { OnOk result (Kept (tells self.old) (tells self.new) name.now bytes.now) }
        ensures failed { IsErrOf result KeepFault.Failed → KeptPart (tells self.old) (tells self.new) name.now bytes.now }
        ensures memory { IsErrOf result KeepFault.Memory → tells self.new ≡ without_reading (tells self.old) };

    /// Opens a reading of the bytes under a name.
    ///
    /// It copies the name first, so that a fault always has one, also the fault of a piece.
    fn open(&mut self, alloc: Global, name: &str) -> Result<(), OpenFault>
        ensures ok { OnOk result (Opened (tells self.old) (tells self.new) name.now) }
        ensures failed { IsErrOf result OpenFault.Failed → FailedToOpen (tells self.old) (tells self.new) name.now }
        ensures memory { IsErrOf result OpenFault.Memory → tells self.new ≡ without_reading (tells self.old) };

    /// Puts the next bytes of the open reading in front of the buffer, and returns how many they
    /// are: none only at its end.
    ///
    /// It allocates no memory.
    fn piece(&mut self, buf: &mut [u8]) -> Result<usize, PieceFault>
        requires opened { IsSome (tells self.old).open_name }
        requires room { 0 < length buf.old }
        ensures within { IfOk result (λ count. count ≤ length buf.new) }
        ensures ok { IfOk result (λ count. GavePiece (tells self.old) (tells self.new) (take count buf.new)) }
        ensures failed { IsErrOf result PieceFault.Failed → FailedToGivePiece (tells self.old) (tells self.new) (length buf.new) };

    /// Whether a reading is open.
    fn is_open(&self) -> bool
        ensures { result ≡ is_some (tells self.now).open_name };
}

/// Where answers go, such as standard output.
pub trait Sink {
    /// What the sink reports: what was written, and how many puts failed.
    ghost tells: { Self → SinkTells };

    /// Appends all of the bytes to what was written.
    fn put(&mut self, bytes: &[u8]) -> Result<(), PutFault>
        ensures ok { OnOk result (Wrote (tells self.old) (tells self.new) bytes.now) }
        ensures failed { IsErrOf result PutFault.Failed → WrotePart (tells self.old) (tells self.new) bytes.now }
        ensures memory { IsErrOf result PutFault.Memory → tells self.new ≡ tells self.old };
}
