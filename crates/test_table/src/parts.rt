//! A table of rows that try parts of the program, line by line.
//!
//! - `group NAME` begins a group of rows;
//! - `PART GIVEN => WANT` is a row: the part that it tries, its input, and what must come. Both are
//!   texts of module `text`;
//! - a line that begins with a blank is a further line of what must come.
//!
//! A line that is empty or begins with `#` is skipped. The report has the number of rows that pass
//! for each group, and for each failing row what came and what must come.
use crate::fault::told;
use crate::text::bytes_of;
use crate::{chosen, halves};
use anyhow::{Context, Result};
use std::alloc::{AllocError, Global};
use std::env::Env;

/// Tries the parts.
pub trait Parts {
    /// The answer of a part.
    fn answer(&self, alloc: Global, part: &str, given: &[u8]) -> Result<String>;
}

/// The group and the row that were read last.
#[derive(Drop)]
struct Table {
    /// Only the groups and rows that contain it are tried.
    word: String,
    group: String,
    /// How many rows of the group pass.
    right: u32,
    /// The row, empty once it was tried.
    line: String,
    want: String,
}

impl Table {
    /// Tries the row that ends before a line, and reads the line.
    fn take<P: Parts>(
        &mut self,
        rt: &(impl Print + AllocGlobal),
        parts: &P,
        line: &str,
    ) -> Result<()> {
        if line.is_empty() || line.starts_with('#') {
            return Ok(());
        }
        if !line.starts_with(' ') {
            self.try_row(rt, parts)?;
        }
        if line.starts_with("group ") {
            self.tell(rt)?;
        }
        Ok(self.read(line)?)
    }

    fn read(&mut self, line: &str) -> Result<(), AllocError> {
        if let Some(more) = line.strip_prefix(' ') {
            self.want.push_str("\\n")?;
            return self.want.push_str(more);
        }
        if let Some(name) = line.strip_prefix("group ") {
            self.right = 0;
            self.group.clear();
            return self.group.push_str(name);
        }
        let (line, want) = line.split_once(" => ").unwrap_or((line, ""));
        self.line.push_str(line)?;
        self.want.push_str(want)
    }

    /// Prints how many rows of the group pass.
    fn tell(&self, rt: &impl Print) -> Result<()> {
        if self.right > 0 {
            println!(rt; "{}: {} ok", self.group, self.right)?;
        }
        Ok(())
    }

    /// Whether the row is there and is to be tried.
    fn is_chosen(&self) -> bool {
        let word = self.word.as_str();
        let is_there = !self.line.is_empty() || !self.want.is_empty();
        is_there && (self.group.contains(word) || self.line.contains(word))
    }

    /// Tries the row, and prints what comes if it must not.
    fn try_row<P: Parts>(&mut self, rt: &(impl Print + AllocGlobal), parts: &P) -> Result<()> {
        if self.is_chosen() {
            let came = came(rt.alloc(), parts, self.line.as_str(), self.want.as_str());
            match came.context(format_args!("{}", self.line))? {
                None => self.right = self.right.saturating_add(1),
                Some(came) => println!(rt; "{} => {}\nbut {came}", self.line, self.want)?,
            }
        }
        self.line.clear();
        self.want.clear();
        Ok(())
    }
}

/// What comes of a row, if it isn't what must come.
fn came<P: Parts>(alloc: Global, parts: &P, line: &str, want: &str) -> Result<Option<String>> {
    let (part, given) = halves(line);
    let want = told(bytes_of(alloc, want))?;
    let given = told(bytes_of(alloc, given))?;
    let came = parts.answer(alloc, part, given.as_slice())?;
    let is_right = came.as_bytes() == want.as_slice();
    Ok(if is_right { None } else { Some(came) })
}

/// Tries the rows of the table in standard input.
pub fn try_rows<P: Parts>(rt: &(impl Input + Print + Env + AllocGlobal), parts: &P) -> Result<()> {
    let mut table = Table {
        word: chosen(rt)?,
        group: String::new(rt.alloc()),
        right: 0,
        line: String::new(rt.alloc()),
        want: String::new(rt.alloc()),
    };
    let tried = try_lines(rt, parts, &mut table);
    drop(table);
    tried
}

/// Tries all lines.
fn try_lines<P: Parts>(
    rt: &(impl Input + Print + AllocGlobal),
    parts: &P,
    table: &mut Table,
) -> Result<()> {
    let mut number = 0u64;
    for line in rt.lines(rt.alloc()) {
        number = number.saturating_add(1);
        table
            .take(rt, parts, line?.as_str())
            .context(format_args!("line {number}"))?;
    }
    table.try_row(rt, parts)?;
    table.tell(rt)
}
