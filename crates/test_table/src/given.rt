//! What a part is given, read piece by piece.
//!
//! A piece that is missing or isn't of its form is read as an empty text or as 0, and noted: then
//! the answer doesn't count, whatever it is.
use anyhow::{Result, bail};
use std::str::FromStr;

/// A text that is read from its beginning.
#[derive(Clone, Copy)]
pub struct Given<'a> {
    rest: &'a str,
    is_read: bool,
}

impl<'a> Given<'a> {
    pub fn new(text: &'a str) -> Given<'a> {
        Given {
            rest: text,
            is_read: true,
        }
    }

    /// The text before the next separator, which must be there.
    pub fn before(&mut self, separator: &str) -> &'a str {
        let (before, rest) = match self.rest.split_once(separator) {
            Some(halves) => halves,
            None => {
                self.is_read = false;
                (self.rest, "")
            }
        };
        self.rest = rest;
        before
    }

    /// The text up to the next blank, or all that is left.
    pub fn word(&mut self) -> &'a str {
        let (word, rest) = crate::halves(self.rest);
        self.rest = rest;
        word
    }

    /// All that is left.
    pub fn rest(&mut self) -> &'a str {
        let rest = self.rest;
        self.rest = "";
        rest
    }

    /// Whether nothing is left.
    pub fn is_at_end(&self) -> bool {
        self.rest.is_empty()
    }

    /// The number up to the next blank.
    pub fn number<N: FromStr + Default + Drop>(&mut self) -> N
    where
        N::Err: Drop,
    {
        match self.word().parse::<N>() {
            Ok(number) => number,
            Err(_) => {
                self.is_read = false;
                N::default()
            }
        }
    }

    /// Notes that what was read isn't of its form.
    pub fn refuse(&mut self) {
        self.is_read = false;
    }

    /// Fails if a piece was missing or not of its form, or if some text is left.
    pub fn end(&self) -> Result<()> {
        if !self.is_read || !self.rest.is_empty() {
            bail!("a row that can't be read");
        }
        Ok(())
    }
}
