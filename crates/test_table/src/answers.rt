//! A short summary of the answers to one part after another of something long.
use std::alloc::{AllocError, Global};

/// Answers; equal ones in a row are counted.
#[derive(Drop)]
pub struct Answers {
    last: String,
    count: u32,
    text: String,
}

impl Answers {
    /// No answers yet.
    pub fn new(alloc: Global) -> Answers {
        Answers {
            last: String::new(alloc),
            count: 0,
            text: String::new(alloc),
        }
    }

    /// Adds an answer.
    pub fn push(&mut self, answer: String) -> Result<(), AllocError> {
        if answer != self.last {
            self.flush()?;
            self.last = answer;
        }
        self.count = self.count.saturating_add(1);
        Ok(())
    }

    fn flush(&mut self) -> Result<(), AllocError> {
        let count = self.count;
        self.count = 0;
        if count == 0 {
            return Ok(());
        }
        write!(self.text, "{count} x {}; ", self.last)
    }

    /// The summary of all answers.
    pub fn told(mut self, alloc: Global) -> Result<String, AllocError> {
        self.flush()?;
        String::from_str(alloc, self.text.trim_end())
    }
}
