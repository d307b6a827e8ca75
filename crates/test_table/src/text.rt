//! Bytes as text.
//!
//! `\n`, `\r`, `\t`, `\0` and `\xNN` write a byte. `\N'TEXT'` writes a text N times; in it `\#` is
//! the number of the turn, from 0, and `\#+K` that number and K. Each other character writes
//! itself.
use crate::fault::Fault;
use std::alloc::{AllocError, Global};

/// What comes before the next byte of a text.
#[derive(Clone, Copy)]
enum Before {
    /// No part of an escape.
    Plain,
    /// A backslash.
    Escape,
    /// `\x`.
    Hex,
    /// `\x` and a digit.
    Digit(u8),
    /// `\#`.
    Turn,
    /// `\#+` and the digits of a number.
    More(u64),
}

/// The bytes of a text that is read byte by byte.
#[derive(Drop)]
struct Writer {
    bytes: Vec<u8>,
    before: Before,
    /// The number of the turn in a text that is repeated.
    turn: u64,
    /// What is wrong with the text, or that there is no memory.
    fault: Option<Fault>,
}

impl Writer {
    fn push(&mut self, byte: u8) {
        if self.bytes.push(byte).is_err() {
            self.fault = Some(Fault::Memory);
        }
    }

    /// Reads the next byte.
    fn take(&mut self, byte: u8) {
        match self.before {
            Before::Plain => self.begin(byte),
            Before::Escape => self.escape(byte),
            Before::Hex => self.before = Before::Digit(self.digit(byte)),
            Before::Digit(high) => {
                let low = self.digit(byte);
                self.before = Before::Plain;
                self.push(high << 4 | low);
            }
            Before::Turn if byte == b'+' => self.before = Before::More(0),
            Before::More(more) if byte.is_ascii_digit() => {
                let digit = u64::from(byte - b'0');
                self.before = Before::More(more.saturating_mul(10).saturating_add(digit));
            }
            Before::Turn | Before::More(_) => {
                self.end();
                self.begin(byte);
            }
        }
    }

    /// Reads a byte outside of escapes.
    fn begin(&mut self, byte: u8) {
        if byte == b'\\' {
            self.before = Before::Escape;
        } else {
            self.push(byte);
        }
    }

    /// Reads the byte after a backslash.
    fn escape(&mut self, byte: u8) {
        self.before = Before::Plain;
        match byte {
            b'n' => self.push(b'\n'),
            b'r' => self.push(b'\r'),
            b't' => self.push(b'\t'),
            b'0' => self.push(0),
            b'x' => self.before = Before::Hex,
            b'#' => self.before = Before::Turn,
            _ => self.fault = Some(Fault::Form),
        }
    }

    /// The value of a hex digit.
    fn digit(&mut self, byte: u8) -> u8 {
        match byte {
            b'0'..=b'9' => byte - b'0',
            b'a'..=b'f' => byte - b'a' + 10,
            _ => {
                self.fault = Some(Fault::Form);
                0
            }
        }
    }

    /// Ends an escape that may have further bytes.
    fn end(&mut self) {
        match self.before {
            Before::Plain => {}
            Before::Turn => self.number(0),
            Before::More(more) => self.number(more),
            _ => self.fault = Some(Fault::Form),
        }
        self.before = Before::Plain;
    }

    /// Adds the number of the turn plus `more`.
    fn number(&mut self, more: u64) {
        let number = self.turn.saturating_add(more);
        if self.push_number(number).is_err() {
            self.fault = Some(Fault::Memory);
        }
    }

    fn push_number(&mut self, number: u64) -> Result<(), AllocError> {
        let digits = format!(in *self.bytes.allocator(); "{number}")?;
        self.bytes.extend_from_slice(digits.as_bytes())
    }

    /// Reads a text.
    fn read(&mut self, text: &str) {
        for byte in text.bytes() {
            self.take(byte);
        }
        self.end();
    }

    /// Reads a text `count` times.
    fn repeat(&mut self, text: &str, count: Option<u32>) {
        let Some(count) = count else {
            self.fault = Some(Fault::Form);
            return;
        };
        for turn in 0..count {
            self.turn = u64::from(turn);
            self.read(text);
        }
    }

    /// Reads a text with its repetitions.
    fn read_all(&mut self, text: &str) {
        let mut count = None;
        let mut is_quoted = false;
        for piece in text.split('\'') {
            if is_quoted {
                self.repeat(piece, count);
                count = None;
            } else {
                let (plain, number) = counted(piece);
                self.read(plain);
                count = number;
            }
            is_quoted = !is_quoted;
        }
        if !is_quoted || count.is_some() {
            self.fault = Some(Fault::Form);
        }
    }
}

/// The text before the number of a repetition, and the number.
fn counted(piece: &str) -> (&str, Option<u32>) {
    match piece.rsplit_once('\\') {
        Some((plain, number)) if !number.starts_with('0') => match number.parse::<u32>() {
            Ok(count) => (plain, Some(count)),
            Err(_) => (piece, None),
        },
        _ => (piece, None),
    }
}

/// The bytes of a text.
pub(crate) fn bytes_of(alloc: Global, text: &str) -> Result<Vec<u8>, Fault> {
    let mut writer = Writer {
        bytes: Vec::new(alloc),
        before: Before::Plain,
        turn: 0,
        fault: None,
    };
    writer.read_all(text);
    let Writer { bytes, fault, .. } = writer;
    match fault {
        None => Ok(bytes),
        Some(fault) => Err(fault),
    }
}

/// The text between quotes, as it is written.
pub(crate) fn quoted(text: &str) -> Result<&str, Fault> {
    match text.strip_prefix('"') {
        Some(text) => text.strip_suffix('"').ok_or(Fault::Form),
        None => Err(Fault::Form),
    }
}
