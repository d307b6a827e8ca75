//! A shelf and a sink in memory that fail as planned, and ones that never fail.
ghost use Rattle.std.specs.Prelude.{
  ◌≡◌,
  ◌≢◌,
  ◌≤◌,
  ◌<◌,
  ◌+◌,
  ◌++◌,
  ◌∷◌,
  [],
  ◌⊎◌,
  length,
  min,
  take,
  unwrap_or,
  string_bytes,
  Some,
  None,
  IsSome,
  IsSomeAnd,
  IfOk,
  IsErrOf,
  Err,
  OnOk,
  OnErr,
  ◌↔◌,
};
ghost use Rattle.std.specs.FinMap as map;
ghost use Rattle.test_shelves.specs.Mem.{empty_shelf, empty_sink, empty_sure_shelf, mem_tells, sink_tells, taken_after, taken_after_piece};
ghost use Rattle.tc_io.specs.Outside.{
  Gave,
  FailedToGive,
  WasTooLong,
  TookPart,
  Kept,
  KeptPart,
  Opened,
  FailedToOpen,
  GavePiece,
  FailedToGivePiece,
  Wrote,
  WrotePart,
  without_reading,
};
ghost use Rattle.test_shelves.specs.Plan.{told_at, with_call};

use crate::named::NamedBytes;
pub use crate::plan::Fail;
use crate::plan::Plan;
use crate::reading::Reading;
use std::alloc::{AllocError, Global};
use std::marker::Model;
use tc_io::faults::{Access, Faults};
use tc_io::{FetchFault, KeepFault, OpenFault, PieceFault, PutFault, Shelf, Sink};

/// A shelf in memory, which reports its contents, and fails as planned.
///
/// A fetch or an open of a name that is absent fails too.
#[derive(Drop)]
pub struct MemShelf {
    files: NamedBytes,
    plan: Plan,
    taken: u64,
    faults: Faults,
    reading: Option<Reading>,
    memory: Memory,
}

/// For how many more calls there is memory; for all, if it doesn't say.
#[derive(Drop)]
struct Memory {
    calls: Option<u64>,
}

impl Memory {
    /// A copy of a call's name, if there is memory for the call.
    fn copy(&mut self, alloc: Global, name: &str) -> Result<String, AllocError>
        ensures { IfOk result (λ copy. string_bytes copy ≡ name.now) }
    {
        match self.calls {
            Some(0) => return Err(AllocError),
            Some(calls) => self.calls = Some(calls - 1),
            None => {}
        }
        String::from_str(alloc, name)
    }
}

impl Model for MemShelf {
    ghost use Rattle.std.specs.Coded.{codes};
    ghost use Rattle.test_shelves.specs.contracts.named.NamedBytes as named;
    ghost use Rattle.test_shelves.specs.Mem.{PlainShelf};

    ghost Value = { PlainShelf };

    ghost coded = { Prim.hlevel (codes, named.the_row.coded) };

    ghost view = { λ s. record { held = s.files; plan = s.plan; taken = s.taken; faults = s.faults; reading = s.reading } };
}

impl MemShelf {
    /// An empty shelf with no planned failure.
    pub fn new(alloc: Global) -> Self
        ensures { result ≡ empty_shelf }
    {
        MemShelf {
            files: NamedBytes::new(alloc),
            plan: Plan::new(alloc),
            taken: 0,
            faults: Faults::new(),
            reading: None,
            memory: Memory { calls: None },
        }
    }

    /// Puts a copy of the bytes under the name, instead of its old bytes.
    pub fn hold(&mut self, alloc: Global, name: &str, bytes: &[u8]) -> Result<(), AllocError>
        ensures ok { OnOk result (self.new ≡ record self.old { held = map.insert self.old.held name.now bytes.now }) }
        ensures err { OnErr result (self.new ≡ self.old) }
    {
        self.files.insert(alloc, name, bytes)
    }

    /// Plans a call that fails, counting all calls that read or write. Of two plans for one call
    /// the first counts.
    pub fn fail(&mut self, fail: Fail) -> Result<(), AllocError>
        ensures ok { OnOk result (self.new ≡ record self.old { plan = record self.old.plan { fails = self.old.plan.fails ++ fail ∷ [] } }) }
        ensures err { OnErr result (self.new ≡ self.old) }
    {
        self.plan.add(fail)
    }

    /// Leaves memory for this many more calls that fetch, keep or open, and for none after them.
    pub fn leave_memory(&mut self, calls: u64)
        ensures { self.new ≡ self.old }
    {
        self.memory.calls = Some(calls);
    }
}

impl Shelf for MemShelf {
    ghost use Rattle.test_shelves.specs.Mem.{mem_tells};

    ghost tells = { mem_tells };

    fn fetch(&mut self, alloc: Global, name: &str, limit: u64) -> Result<Vec<u8>, FetchFault>
        ensures ok { IfOk result (λ bytes. Gave (mem_tells self.old) (mem_tells self.new) name.now limit bytes.items) }
        ensures failed { IsErrOf result FetchFault.Failed → FailedToGive (mem_tells self.old) (mem_tells self.new) name.now limit }
        ensures too_long { IsErrOf result FetchFault.TooLong → WasTooLong (mem_tells self.old) (mem_tells self.new) name.now limit }
        ensures memory { IsErrOf result FetchFault.Memory → TookPart (mem_tells self.old) (mem_tells self.new) name.now limit }

        // What this shelf alone says: which fetches fail, and after how many bytes.
        ensures there { IfOk result (λ bytes. map.get self.old.held name.now ≡ Some bytes.items) }
        ensures told { (result ≢ Err FetchFault.Memory) → IsSome (told_at self.new.plan) → result ≡ Err FetchFault.Failed }
        ensures cause { IsErrOf result FetchFault.Failed → IsSome (told_at self.new.plan) ⊎ (map.get self.old.held name.now ≡ None) }
        // The call is counted and the bytes are taken, or there was no memory for the name.
        ensures taken { ((result ≡ Err FetchFault.Memory) × (self.new ≡ record self.old { reading = None }))
            ⊎ ((self.new.plan ≡ with_call self.old.plan) × (self.new.taken ≡ taken_after self.old self.new.plan name.now limit)) }
    {
        self.reading = None;
        let Ok(copy) = self.memory.copy(alloc, name) else {
            return Err(FetchFault::Memory);
        };
        match (self.plan.call(), self.files.get(name)) {
            (None, Some(bytes)) => {
                self.taken = self.taken.saturating_add(taken_by(bytes.len(), limit));
                copy_within(alloc, bytes, limit)
            }
            (told, found) => {
                let there = found.map_or(0, |bytes| bytes.len());
                let after = told.map_or(0, |after| after as u64);
                self.taken = self.taken.saturating_add(after.min(taken_by(there, limit)));
                self.faults.add(Access::Read, copy);
                Err(FetchFault::Failed)
            }
        }
    }

    fn keep(&mut self, alloc: Global, name: &str, bytes: &[u8]) -> Result<(), KeepFault>
        ensures ok { OnOk result (Kept (mem_tells self.old) (mem_tells self.new) name.now bytes.now) }
        ensures failed { IsErrOf result KeepFault.Failed → KeptPart (mem_tells self.old) (mem_tells self.new) name.now bytes.now }
        ensures memory { IsErrOf result KeepFault.Memory → mem_tells self.new ≡ without_reading (mem_tells self.old) }

        // What this shelf alone says: which keeps fail, and after how many bytes.
        ensures told { OnOk result (told_at self.new.plan ≡ None) }
        ensures cause { IsErrOf result KeepFault.Failed → IsSomeAnd (told_at self.new.plan)
            (λ after. self.new.held ≡ map.insert self.old.held name.now (take after bytes.now)) }
        ensures counted { (result ≢ Err KeepFault.Memory) → self.new.plan ≡ with_call self.old.plan }
    {
        self.reading = None;
        let Ok(copy) = self.memory.copy(alloc, name) else {
            return Err(KeepFault::Memory);
        };
        let told = self.plan.call();
        let count = told.map_or(bytes.len(), |after| after.min(bytes.len()));
        if self.files.insert(alloc, name, &bytes[..count]).is_err() {
            return Err(KeepFault::Memory);
        }
        if told.is_none() {
            return Ok(());
        }
        self.faults.add(Access::Write, copy);
        Err(KeepFault::Failed)
    }

    fn open(&mut self, alloc: Global, name: &str) -> Result<(), OpenFault>
        ensures ok { OnOk result (Opened (mem_tells self.old) (mem_tells self.new) name.now) }
        ensures failed { IsErrOf result OpenFault.Failed → FailedToOpen (mem_tells self.old) (mem_tells self.new) name.now }
        ensures memory { IsErrOf result OpenFault.Memory → mem_tells self.new ≡ without_reading (mem_tells self.old) }

        // What this shelf alone says: which opens fail.
        ensures there { OnOk result (IsSome (map.get self.old.held name.now) × (told_at self.new.plan ≡ None)) }
        ensures cause { IsErrOf result OpenFault.Failed → IsSome (told_at self.new.plan) ⊎ (map.get self.old.held name.now ≡ None) }
        ensures counted { (result ≢ Err OpenFault.Memory) → self.new.plan ≡ with_call self.old.plan }
    {
        self.reading = None;
        let Ok(copy) = self.memory.copy(alloc, name) else {
            return Err(OpenFault::Memory);
        };
        match (self.plan.call(), self.files.get(name)) {
            (None, Some(_)) => {
                self.reading = Some(Reading::new(copy));
                Ok(())
            }
            _ => {
                self.faults.add(Access::Read, copy);
                Err(OpenFault::Failed)
            }
        }
    }

    fn piece(&mut self, buf: &mut [u8]) -> Result<usize, PieceFault>
        requires opened { IsSome (mem_tells self.old).open_name }
        requires room { 0 < length buf.old }
        ensures within { IfOk result (λ count. count ≤ length buf.new) }
        ensures ok { IfOk result (λ count. GavePiece (mem_tells self.old) (mem_tells self.new) (take count buf.new)) }
        ensures failed { IsErrOf result PieceFault.Failed → FailedToGivePiece (mem_tells self.old) (mem_tells self.new) (length buf.new) }

        // What this shelf alone says: which pieces fail, and how many bytes come.
        ensures told { IsSome (told_at self.new.plan) ↔ (result ≡ Err PieceFault.Failed) }
        ensures counted { self.new.plan ≡ with_call self.old.plan }
        ensures taken { self.new.taken ≡ taken_after_piece self.old self.new.plan (length buf.old) }
    {
        let told = self.plan.call();
        let mut reading = self.reading.take().unwrap();
        let bytes = self.files.bytes(reading.name());
        let Some(after) = told else {
            let count = reading.give(bytes, buf);
            self.taken = self.taken.saturating_add(count as u64);
            self.reading = Some(reading);
            return Ok(count);
        };
        let room = after.min(buf.len());
        let count = reading.give(bytes, &mut buf[..room]);
        self.taken = self.taken.saturating_add(count as u64);
        self.faults.add(Access::Read, reading.into_name());
        Err(PieceFault::Failed)
    }

    fn is_open(&self) -> bool {
        self.reading.is_some()
    }
}

/// How many of `there` bytes a fetch takes: one past the limit shows that there are too many.
fn taken_by(there: usize, limit: u64) -> u64
    ensures { result ≡ min there (limit + 1) }
{
    (there as u64).min(limit.saturating_add(1))
}

/// A copy of the bytes, if they are at most the limit.
fn copy_within(alloc: Global, bytes: &[u8], limit: u64) -> Result<Vec<u8>, FetchFault>
    ensures bytes { IfOk result (λ copy. copy.items ≡ bytes.now) }
    ensures within { IfOk result (λ copy. length copy.items ≤ limit) }
    ensures too_long { IsErrOf result FetchFault.TooLong → limit < length bytes.now }
    ensures never_fails { result ≢ Err FetchFault.Failed }
{
    if bytes.len() as u64 > limit {
        return Err(FetchFault::TooLong);
    }
    let mut copy = Vec::new(alloc);
    match copy.extend_from_slice(bytes) {
        Ok(()) => Ok(copy),
        Err(_) => Err(FetchFault::Memory),
    }
}

/// A sink in memory, which reports what was written, and fails as planned.
#[derive(Drop)]
pub struct MemSink {
    written: Vec<u8>,
    plan: Plan,
    faults: u64,
    /// How many more puts find no memory.
    refused: u64,
}

impl Model for MemSink {
    ghost use Rattle.test_shelves.specs.Mem.{PlainSink};

    ghost Value = { PlainSink };

    ghost view = { λ s. record { written = s.written.items; plan = s.plan; faults = s.faults } };
}

impl MemSink {
    /// A sink to which nothing was written, with no planned failure.
    pub fn new(alloc: Global) -> Self
        ensures { result ≡ empty_sink }
    {
        MemSink {
            written: Vec::new(alloc),
            plan: Plan::new(alloc),
            faults: 0,
            refused: 0,
        }
    }

    /// Plans a put that fails. Of two plans for one call the first counts.
    pub fn fail(&mut self, fail: Fail) -> Result<(), AllocError>
        ensures ok { OnOk result (self.new ≡ record self.old { plan = record self.old.plan { fails = self.old.plan.fails ++ fail ∷ [] } }) }
        ensures err { OnErr result (self.new ≡ self.old) }
    {
        self.plan.add(fail)
    }

    /// Lets this many more puts find no memory.
    pub fn refuse(&mut self, puts: u64)
        ensures { self.new ≡ self.old }
    {
        self.refused = puts;
    }

    /// What all puts so far have written.
    pub fn written(&self) -> &[u8]
        ensures { result.now ≡ self.now.written }
    {
        self.written.as_slice()
    }
}

impl Sink for MemSink {
    ghost use Rattle.test_shelves.specs.Mem.{sink_tells};

    ghost tells = { sink_tells };

    fn put(&mut self, bytes: &[u8]) -> Result<(), PutFault>
        ensures ok { OnOk result (Wrote (sink_tells self.old) (sink_tells self.new) bytes.now) }
        ensures failed { IsErrOf result PutFault.Failed → WrotePart (sink_tells self.old) (sink_tells self.new) bytes.now }
        ensures memory { IsErrOf result PutFault.Memory → sink_tells self.new ≡ sink_tells self.old }

        // What this sink alone says: which puts fail, and after how many bytes.
        ensures told { OnOk result (told_at self.new.plan ≡ None) }
        ensures cause { IsErrOf result PutFault.Failed → IsSomeAnd (told_at self.new.plan)
            (λ after. self.new.written ≡ self.old.written ++ take after bytes.now) }
        ensures counted { self.new.plan ≡ with_call self.old.plan }
    {
        let told = self.plan.call();
        if self.refused > 0 {
            self.refused -= 1;
            return Err(PutFault::Memory);
        }
        let Some(after) = told else {
            return append(&mut self.written, bytes);
        };
        append(&mut self.written, &bytes[..after.min(bytes.len())])?;
        self.faults = self.faults.saturating_add(1);
        Err(PutFault::Failed)
    }
}

/// Appends all of the bytes to what was written.
fn append(written: &mut Vec<u8>, bytes: &[u8]) -> Result<(), PutFault>
    ensures ok { OnOk result (written.new.items ≡ written.old.items ++ bytes.now) }
    ensures err { OnErr result (written.new.items ≡ written.old.items) }
    ensures never_fails { result ≢ Err PutFault.Failed }
{
    match written.extend_from_slice(bytes) {
        Ok(()) => Ok(()),
        Err(_) => Err(PutFault::Memory),
    }
}

/// A shelf in memory that never fails: an absent name reads as no bytes, also when it is opened.
#[derive(Drop)]
pub struct SureShelf {
    files: NamedBytes,
    taken: u64,
    reading: Option<Reading>,
}

impl Model for SureShelf {
    ghost use Rattle.std.specs.Coded.{codes};
    ghost use Rattle.test_shelves.specs.contracts.named.NamedBytes as named;
    ghost use Rattle.test_shelves.specs.Mem.{PlainSureShelf};

    ghost Value = { PlainSureShelf };

    ghost coded = { Prim.hlevel (codes, named.the_row.coded) };

    ghost view = { λ s. record { held = s.files; taken = s.taken; reading = s.reading } };
}

impl SureShelf {
    /// An empty shelf.
    pub fn new(alloc: Global) -> Self
        ensures { result ≡ empty_sure_shelf }
    {
        SureShelf {
            files: NamedBytes::new(alloc),
            taken: 0,
            reading: None,
        }
    }

    /// Puts a copy of the bytes under the name, instead of its old bytes.
    pub fn hold(&mut self, alloc: Global, name: &str, bytes: &[u8]) -> Result<(), AllocError>
        ensures ok { OnOk result (self.new ≡ record self.old { held = map.insert self.old.held name.now bytes.now }) }
        ensures err { OnErr result (self.new ≡ self.old) }
    {
        self.files.insert(alloc, name, bytes)
    }
}

impl Shelf for SureShelf {
    ghost use Rattle.test_shelves.specs.Mem.{sure_shelf_tells};

    ghost tells = { sure_shelf_tells };

    fn fetch(&mut self, alloc: Global, name: &str, limit: u64) -> Result<Vec<u8>, FetchFault> {
        self.reading = None;
        let bytes = self.files.bytes(name);
        self.taken = self.taken.saturating_add(taken_by(bytes.len(), limit));
        copy_within(alloc, bytes, limit)
    }

    fn keep(&mut self, alloc: Global, name: &str, bytes: &[u8]) -> Result<(), KeepFault> {
        self.reading = None;
        match self.files.insert(alloc, name, bytes) {
            Ok(()) => Ok(()),
            Err(_) => Err(KeepFault::Memory),
        }
    }

    fn open(&mut self, alloc: Global, name: &str) -> Result<(), OpenFault> {
        self.reading = None;
        match String::from_str(alloc, name) {
            Ok(copy) => {
                self.reading = Some(Reading::new(copy));
                Ok(())
            }
            Err(_) => Err(OpenFault::Memory),
        }
    }

    fn piece(&mut self, buf: &mut [u8]) -> Result<usize, PieceFault> {
        let mut reading = self.reading.take().unwrap();
        let bytes = self.files.bytes(reading.name());
        let count = reading.give(bytes, buf);
        self.taken = self.taken.saturating_add(count as u64);
        self.reading = Some(reading);
        Ok(count)
    }

    fn is_open(&self) -> bool {
        self.reading.is_some()
    }
}

/// A sink in memory that never fails, and reports what was written.
#[derive(Drop)]
pub struct SureSink {
    written: Vec<u8>,
}

impl Model for SureSink {
    ghost use Rattle.std.specs.Prelude.{List, ℕ};

    ghost Value = { List ℕ };

    ghost view = { λ s. s.written.items };
}

impl SureSink {
    /// A sink to which nothing was written.
    pub fn new(alloc: Global) -> Self
        ensures { result ≡ [] }
    {
        SureSink {
            written: Vec::new(alloc),
        }
    }

    /// What all puts so far have written.
    pub fn written(&self) -> &[u8]
        ensures { result.now ≡ self.now }
    {
        self.written.as_slice()
    }
}

impl Sink for SureSink {
    ghost use Rattle.test_shelves.specs.Mem.{sure_sink_tells};

    ghost tells = { sure_sink_tells };

    fn put(&mut self, bytes: &[u8]) -> Result<(), PutFault> {
        append(&mut self.written, bytes)
    }
}
