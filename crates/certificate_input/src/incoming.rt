//! A certificate while it is read.
ghost use Rattle.std.specs.Prelude.{◌≡◌, ◌+◌, ◌++◌, ◌∷◌, ℕ, List, [], false, IfOk, OnOk};
ghost use Rattle.certificate_input.specs.Checked.{IsChecked};
ghost use Rattle.certificate_input.specs.helpers.Incoming.{IsBegun, IsRead, IsStage, IsTaken, IsTaking, begins, ended, has_ended};

use crate::checks::Checks;
use crate::verdict::Verdict;
use crate::wrong::Wrong;
use none_certificates::read_header;
use std::alloc::{AllocError, Global};
use std::mem;
use tc_code::Code;

/// What becomes of the lines.
#[derive(Drop)]
pub(crate) enum Stage {
    /// The header isn't complete.
    Begins,
    /// All lines so far pass.
    Follows(Checks),
    /// The line of this number is the first that is wrong. No more is read.
    Ends(u32, Wrong),
}

/// A certificate for a code while it is read.
#[derive(Drop)]
pub struct Incoming {
    code: Code,
    unfinished: Vec<u8>,
    line: u32,
    stage: Stage,
}

impl Incoming {
    /// Before any byte.
    pub fn new(alloc: Global, code: Code) -> Incoming
        ensures code { result.code ≡ code }
        ensures read { IsRead result [] }
    {
        Incoming {
            code,
            unfinished: Vec::new(alloc),
            line: 1,
            stage: Stage::Begins,
        }
    }

    /// Takes the next bytes.
    pub fn take(&mut self, alloc: Global, bytes: &[u8]) -> Result<(), AllocError>
        requires { (front : List ℕ) × IsRead self.old front }
        ensures { OnOk result ((self.new.code ≡ self.old.code) × ((front : List ℕ) → IsRead self.old front → IsRead self.new (front ++ bytes.now))) }
    {
        for byte in bytes {
            self.take_byte(alloc, *byte)?;
        }
        Ok(())
    }

    /// Takes another byte.
    fn take_byte(&mut self, alloc: Global, byte: u8) -> Result<(), AllocError>
        requires { (front : List ℕ) × IsRead self.old front }
        ensures code { OnOk result (self.new.code ≡ self.old.code) }
        ensures read { OnOk result ((front : List ℕ) → IsRead self.old front → IsRead self.new (front ++ byte ∷ [])) }
    {
        if self.stage.has_ended() {
            return Ok(());
        }
        if byte == b'\n' {
            return self.end_line(alloc);
        }
        self.unfinished.push(byte)?;
        Ok(())
    }

    /// Ends the unfinished line.
    fn end_line(&mut self, alloc: Global) -> Result<(), AllocError>
        requires read { (front : List ℕ) × IsRead self.old front }
        requires goes_on { has_ended self.old.stage ≡ false }
        ensures code { OnOk result (self.new.code ≡ self.old.code) }
        ensures read { OnOk result ((front : List ℕ) → IsRead self.old front → IsRead self.new (front ++ 10 ∷ [])) }
    {
        let Some(next) = self.line.checked_add(1) else {
            // No file has so many lines.
            return Err(AllocError);
        };
        let line = mem::replace(&mut self.unfinished, Vec::new(alloc));
        self.stage.end_line(alloc, &self.code, self.line, &line)?;
        self.line = next;
        Ok(())
    }

    /// The verdict on the whole certificate.
    pub fn outcome(self, alloc: Global) -> Result<Verdict, AllocError>
        requires { (bytes : List ℕ) × IsRead self bytes }
        ensures { IfOk result (λ verdict. (bytes : List ℕ) → IsRead self bytes → IsChecked self.code bytes verdict) }
    {
        let Incoming {
            code,
            unfinished,
            line,
            stage,
        } = self;
        match stage {
            Stage::Ends(number, wrong) => Ok(ended(number, wrong)),
            Stage::Follows(checks) => {
                if unfinished.is_empty() {
                    checks.outcome(alloc, &code)
                } else {
                    Ok(Verdict::Form(line))
                }
            }
            Stage::Begins => Ok(Verdict::Form(line)),
        }
    }
}

/// The verdict on a certificate with a wrong line.
fn ended(number: u32, wrong: Wrong) -> Verdict
    ensures { result ≡ ended number wrong }
{
    match wrong {
        Wrong::Refused => Verdict::LineRefused(number),
        Wrong::Form => Verdict::Form(number),
        Wrong::Limit(which, count, limit) => Verdict::Limit(which, count, limit),
    }
}

/// The stage after the first line.
fn begun(alloc: Global, code: &Code, line: &[u8]) -> Result<Stage, AllocError>
    ensures { IfOk result (IsBegun code.now line.now) }
{
    match read_header(alloc, line)? {
        Some(header) => Ok(Stage::Follows(Checks::new(alloc, code, header)?)),
        None => Ok(Stage::Ends(1, Wrong::Form)),
    }
}

impl Stage {
    /// Whether nothing more is read.
    fn has_ended(&self) -> bool
        ensures { result ≡ has_ended self.now }
    {
        matches!(self, Stage::Ends(_, _))
    }

    /// Whether the header isn't complete.
    fn begins(&self) -> bool
        ensures { result ≡ begins self.now }
    {
        matches!(self, Stage::Begins)
    }

    /// Takes a line.
    fn end_line(
        &mut self,
        alloc: Global,
        code: &Code,
        number: u32,
        line: &[u8],
    ) -> Result<(), AllocError>
        requires read { (front : List ℕ) × IsStage code.now front line.now number self.old }
        requires goes_on { has_ended self.old ≡ false }
        ensures { OnOk result ((front : List ℕ) → IsStage code.now front line.now number self.old → IsStage code.now (front ++ 10 ∷ []) [] (number + 1) self.new) }
    {
        if self.begins() {
            *self = begun(alloc, code, line)?;
            return Ok(());
        }
        self.take(alloc, code, number, line)
    }

    /// Takes a line after the first.
    fn take(
        &mut self,
        alloc: Global,
        code: &Code,
        number: u32,
        line: &[u8],
    ) -> Result<(), AllocError>
        requires { IsTaking code.now self.old }
        ensures { OnOk result (IsTaken code.now number line.now self.old self.new) }
    {
        let Stage::Follows(checks) = self else {
            return Ok(());
        };
        if let Some(wrong) = checks.take(alloc, code, line)? {
            *self = Stage::Ends(number, wrong);
        }
        Ok(())
    }
}
