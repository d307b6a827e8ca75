//! The line of a log that some bytes may be.
ghost use Rattle.std.specs.Prelude.{◌≡◌, IfOk, OnOk, drop};
ghost use Rattle.none_certificates.specs.helpers.Guess.{is_stuck, line_in, log_guess};

use crate::LogLine;
use run_log::ThreadPath;
use std::alloc::{AllocError, Global};
use std::marker::Model;
use std::mem;
use tc_base::ThreadName;

/// The fields of the word of a thread, and of the first word, which has only a name.
#[derive(Clone, Copy, PartialEq, Eq)]
pub enum Field {
    /// The name.
    Name,
    /// The number of steps.
    Steps,
    /// The outcomes.
    Outcomes,
}

/// The words read so far, and the parts of the word being read.
#[derive(Drop)]
struct Reader {
    alloc: Global,
    failing: Option<ThreadName>,
    threads: Vec<ThreadPath>,
    name: ThreadName,
    steps: u16,
    outcomes: Vec<bool>,
    field: Field,
    number: u32,
}

impl Model for Reader {
    ghost use Rattle.none_certificates.specs.helpers.Guess.{Reader as PlainReader};

    ghost Value = { PlainReader };

    ghost view = { λ r. record {
      failing = r.failing;
      threads = r.threads.items;
      name = r.name;
      steps = r.steps;
      outcomes = r.outcomes.items;
      field = r.field;
      number = r.number;
    } };
}

impl Reader {
    ghost use Rattle.none_certificates.specs.helpers.Guess.{no_word, end_number, end_field, end_word, read_digit, read_byte};

    /// A reader before any byte.
    fn new(alloc: Global) -> Reader
        ensures { result ≡ no_word }
    {
        Reader {
            alloc,
            failing: None,
            threads: Vec::new(alloc),
            name: ThreadName::main(alloc),
            steps: 0,
            outcomes: Vec::new(alloc),
            field: Field::Name,
            number: 0,
        }
    }

    /// Ends the number being read. Main's 0 is no part of a name.
    fn end_number(&mut self) -> Result<(), AllocError>
        ensures { OnOk result (self.new ≡ end_number self.old) }
    {
        match self.field {
            Field::Name => {
                if self.number != 0 {
                    self.name = self.name.child(self.number)?;
                }
            }
            Field::Steps => self.steps = (self.number % 65_536) as u16,
            Field::Outcomes => {}
        }
        self.number = 0;
        Ok(())
    }

    /// Ends the field being read.
    fn end_field(&mut self) -> Result<(), AllocError>
        ensures { OnOk result (self.new ≡ end_field self.old) }
    {
        self.end_number()?;
        self.field = match self.field {
            Field::Name => Field::Steps,
            Field::Steps | Field::Outcomes => Field::Outcomes,
        };
        Ok(())
    }

    /// Ends the word being read.
    fn end_word(&mut self) -> Result<(), AllocError>
        ensures { OnOk result (self.new ≡ end_word self.old) }
    {
        self.end_number()?;
        let name = mem::replace(&mut self.name, ThreadName::main(self.alloc));
        let outcomes = mem::replace(&mut self.outcomes, Vec::new(self.alloc));
        if self.failing.is_none() {
            self.failing = Some(name);
        } else {
            self.threads
                .push(ThreadPath::new(name, self.steps, outcomes))?;
        }
        self.steps = 0;
        self.field = Field::Name;
        Ok(())
    }

    fn read_digit(&mut self, digit: u8) -> Result<(), AllocError>
        ensures { OnOk result (self.new ≡ read_digit self.old.field self.old digit) }
    {
        if self.field == Field::Outcomes {
            self.outcomes.push(digit == b'1')?;
        } else {
            let number = u64::from(self.number) * 10 + u64::from(digit % 16);
            self.number = (number % 4_294_967_296) as u32;
        }
        Ok(())
    }

    /// Reads a byte: a space ends a word, a colon a field, a dot a number.
    fn read(&mut self, byte: u8) -> Result<(), AllocError>
        ensures { OnOk result (self.new ≡ read_byte self.old byte) }
    {
        match byte {
            b' ' => self.end_word(),
            b':' => self.end_field(),
            b'.' => self.end_number(),
            digit => self.read_digit(digit),
        }
    }
}

/// The bytes without the first ones.
pub fn after(bytes: &[u8], count: usize) -> &[u8]
    ensures { result.now ≡ drop count bytes.now }
{
    if count <= bytes.len() {
        &bytes[count..]
    } else {
        &[]
    }
}

/// Whether the first word begins with `s`, as that of a deadlock does.
fn is_stuck(bytes: &[u8]) -> bool
    ensures { result ≡ is_stuck bytes.now }
{
    matches!(bytes, [b's', ..])
}

/// The line of a log, from the bytes after its first word.
fn line_in(alloc: Global, bytes: &[u8]) -> Result<LogLine, AllocError>
    ensures { IfOk result (λ line. line ≡ line_in bytes.now) }
{
    let mut reader = Reader::new(alloc);
    for byte in bytes {
        reader.read(*byte)?;
    }
    reader.end_word()?;
    let Reader {
        failing,
        threads,
        ..
    } = reader;
    let failing = if is_stuck(bytes) { None } else { failing };
    Ok(LogLine { failing, threads })
}

/// The line of a log that some bytes may be; no other has this text.
pub fn log_guess(alloc: Global, bytes: &[u8]) -> Result<LogLine, AllocError>
    ensures { IfOk result (λ line. line ≡ log_guess bytes.now) }
{
    line_in(alloc, after(bytes, 4))
}
