//! A refutation's text, read piece by piece.
ghost use Rattle.std.specs.Prelude.{
  ◌≡◌,
  ◌≢◌,
  ◌≤◌,
  ◌<◌,
  ◌==◌,
  ◌++◌,
  ◌∷◌,
  [],
  List,
  take,
  length,
  IfOk,
  OnErr,
  IfSome,
  if◌then◌else◌,
  Ok,
  Some,
  None,
  IsOk,
  IfErr,
  ◌↔◌,
};
ghost use Rattle.refute_check.specs.declared.line.TheConstants.{LINES};
ghost use Rattle.std.specs.List.{position_or_len};
ghost use Rattle.std.specs.Io.BufRead.{take_through};
ghost use Rattle.refute_check.specs.Reading.{IsTakenAs, CutsAgree};

use crate::read::{read_head, read_line};
use crate::{Head, LINES, Line};
use std::alloc::{AllocError, Global};
use std::marker::Model;

/// What some bytes of a refutation's text turned out to be.
#[derive(Debug, Drop)]
pub enum Taken {
    /// The bytes end no line.
    More,
    /// The bytes end the header.
    Header(Head),
    /// The bytes end another line.
    Line(Line),
    /// The line with this number breaks the form.
    Form(u32),
}

/// A reader of a refutation's text, which stores only the unfinished line.
#[derive(Debug, Drop)]
pub struct RefutationText {
    alloc: Global,
    unfinished: Vec<u8>,
    line: u32,
    fault: Option<u32>,
}

impl Model for RefutationText {
    ghost use Rattle.std.specs.Prelude.{◌≤◌, ◌+◌, ◌<◌};
    ghost use Rattle.refute_check.specs.declared.line.TheConstants.{LINES};
    ghost use Rattle.refute_check.specs.Reading.{Reading};

    ghost Value = { Reading };

    ghost view = { λ t. record { unfinished = t.unfinished.items; line = t.line; fault = t.fault } };

    ghost invariant = { λ t. (0 < t.line) × (t.line ≤ LINES + 2) };
}

/// A text has the same lines however it is cut into pieces.
pub fn cuts_agree()
    ensures { CutsAgree }
{}

impl RefutationText {
    ghost use Rattle.refute_check.specs.Reading.{beginning, Reads, lines_of, after_taken, first_breach, fault_of};
    ghost use Rattle.refute_check.specs.helpers.Pieces.{pushed};

    /// A reader before any byte.
    pub fn new(alloc: Global) -> RefutationText
        ensures { result ≡ beginning }
    {
        RefutationText {
            alloc,
            unfinished: Vec::new(alloc),
            line: 1,
            fault: None,
        }
    }

    /// Reads up to the first line end and returns the number of bytes. After `Form` it reads none.
    pub fn take(&mut self, bytes: &[u8]) -> Result<(usize, Taken), AllocError>
        ensures count { IfOk result (λ r. r.0 ≤ length bytes.now) }
        ensures through { self.old.fault ≡ None → IfOk result (λ r. r.0 ≡ length (take_through 10 bytes.now)) }
        ensures more { IfOk result (λ r. r.1 ≡ Taken.More → r.0 ≡ length bytes.now) }
        ensures reads { IfOk result (λ r. Reads self.old (take r.0 bytes.now) (if r.0 == 0 then [] else lines_of r.1) self.new) }
        ensures fault { IfSome self.old.fault (λ line. result ≡ Ok (0, Taken.Form line)) }
        ensures moves { self.old.fault ≡ None → IfOk result (λ r. r.1 ≢ Taken.More → 0 < r.0) }
        ensures form { IfOk result (λ r. self.new.fault ≡ fault_of r.1) }
        ensures err { OnErr result (self.new ≡ self.old) }
    {
        if let Some(line) = self.fault {
            return Ok((0, Taken::Form(line)));
        }
        let end = line_end(bytes);
        if end == bytes.len() {
            self.unfinished.extend_from_slice(bytes)?;
            return Ok((end, Taken::More));
        }
        let taken = self.end_line(first(bytes, end))?;
        Ok((end + 1, taken))
    }

    /// Whether the bytes so far are a whole text. `Err` has the first line that breaks the form.
    pub fn finish(&self) -> Result<(), u32>
        ensures ok { IsOk result ↔ (first_breach self.now ≡ None) }
        ensures err { IfErr result (λ line. first_breach self.now ≡ Some line) }
    {
        match self.fault {
            Some(line) => Err(line),
            None if self.line == 1 || !self.unfinished.is_empty() => Err(self.line),
            None => Ok(()),
        }
    }

    /// Reads the rest of a line, which ends.
    fn end_line(&mut self, bytes: &[u8]) -> Result<Taken, AllocError>
        ensures taken { IfOk result (λ t. IsTakenAs self.old.line (self.old.unfinished ++ bytes.now) t) }
        ensures state { IfOk result (λ t. self.new ≡ after_taken (pushed self.old bytes.now) t) }
        ensures err { OnErr result (self.new ≡ self.old) }
    {
        let before = self.unfinished.len();
        self.unfinished.extend_from_slice(bytes)?;
        match taken_as(self.alloc, self.line, &self.unfinished) {
            Ok(taken) => {
                self.unfinished.clear();
                match taken {
                    Taken::Form(line) => self.fault = Some(line),
                    _ => self.line += 1,
                }
                Ok(taken)
            }
            Err(refused) => {
                self.unfinished.truncate(before);
                Err(refused)
            }
        }
    }
}

/// The index of the first line feed, or the number of bytes.
fn line_end(bytes: &[u8]) -> usize
    ensures place { result ≡ position_or_len (λ b. b == 10) bytes.now }
    ensures bound { result ≤ length bytes.now }
{
    for (place, byte) in bytes.iter().enumerate() {
        if *byte == b'\n' {
            return place;
        }
    }
    bytes.len()
}

/// The first `count` bytes.
fn first(bytes: &[u8], count: usize) -> &[u8]
    requires { count ≤ length bytes.now }
    ensures { result.now ≡ take count bytes.now }
{
    &bytes[..count]
}

/// What the bytes of line `line` are.
fn taken_as(alloc: Global, line: u32, bytes: &[u8]) -> Result<Taken, AllocError>
    requires { 0 < line }
    ensures { IfOk result (λ t. IsTakenAs line bytes.now t) }
{
    if line == 1 {
        return Ok(match read_head(alloc, bytes)? {
            Some(head) => Taken::Header(head),
            None => Taken::Form(line),
        });
    }
    if line > LINES + 1 {
        return Ok(Taken::Form(line));
    }
    Ok(match read_line(alloc, bytes)? {
        Some(found) => Taken::Line(found),
        None => Taken::Form(line),
    })
}
