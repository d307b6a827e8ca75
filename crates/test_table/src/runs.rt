//! A table of calls of a program, tried line by line over a shelf and a sink in memory.
//!
//! `row NAME` begins a row, and the lines below it, up to the next, are its own. A row begins with what the lines
//! above the first row say. With a word after the program's name, only the rows with this word in their names are tried.
//!
//! - `words WORD..`: the words of the call, with `''` for one that is empty;
//! - `file NAME TEXT`: a file of the shelf, and its bytes;
//! - `fetch CALL AFTER`, `keep CALL AFTER` and `put CALL AFTER`: the call of the shelf (`fetch` and `keep` mean the same:
//!   fetches, keeps, opens and pieces are counted together, a piece that finds the end too) or of the sink, by its number
//!   from 1, that is to fail, and after how many bytes;
//! - `want STATUS "TEXT"`: makes the call; the status, and what must be written. `usage` means the text of the line
//!   `usage "TEXT"`, `"TEXT" number "TEXT"` means two texts with some number between them, and
//!   `"TEXT" with "LINE"` a text with other lines after it, of which this is one;
//! - `then WORD..`: the words of a further call, over the shelf as it is then;
//! - `edit NAME "TEXT" "TEXT"`: in the file of a name the first text becomes the second;
//! - `cut NAME "TEXT"`: the file of a name ends before the last place of a text;
//! - `holds NAME "TEXT"`: the file of a name must be this text by now;
//! - `stays NAME..`: names whose files must be as they were before, or absent if they were absent.
//!
//! A line that is empty or begins with `#` is skipped. Texts are those of module `text`.
use crate::fault::{Fault, told};
use crate::text::{bytes_of, quoted};
use crate::{chosen, halves};
use anyhow::{Context, Result};
use std::alloc::{AllocError, Global};
use std::env::Env;
use tc_io::Shelf;
use test_shelves::mem::{Fail, MemShelf, MemSink};

/// A row, up to the line that was read last.
#[derive(Drop)]
struct Row {
    name: String,
    usage: String,
    words: Vec<String>,
    /// The files as they were before.
    before: MemShelf,
    shelf: MemShelf,
    sink: MemSink,
    /// What isn't as it must be.
    wrong: String,
}

impl Row {
    fn new(alloc: Global, name: &str) -> Result<Row, AllocError> {
        let name = String::from_str(alloc, name)?;
        Ok(Row {
            name,
            usage: String::new(alloc),
            words: Vec::new(alloc),
            before: MemShelf::new(alloc),
            shelf: MemShelf::new(alloc),
            sink: MemSink::new(alloc),
            wrong: String::new(alloc),
        })
    }

    /// Reads a line that makes no call.
    fn read(&mut self, alloc: Global, key: &str, rest: &str) -> Result<(), Fault> {
        match key {
            "words" | "then" => self.read_words(alloc, rest),
            "file" => self.file(alloc, rest),
            "fetch" | "keep" => self.fail_shelf(rest),
            "put" => self.fail_sink(rest),
            "usage" => self.read_usage(alloc, rest),
            "edit" => self.edit(alloc, rest),
            "cut" => self.cut(alloc, rest),
            "holds" => self.hold(alloc, rest),
            "stays" => self.stay(alloc, rest),
            _ if key.is_empty() || key.starts_with('#') => Ok(()),
            _ => Err(Fault::Form),
        }
    }

    fn read_words(&mut self, alloc: Global, rest: &str) -> Result<(), Fault> {
        self.words.clear();
        for word in rest.split_whitespace() {
            let word = if word == "''" { "" } else { word };
            self.words.push(text_of(alloc, word)?)?;
        }
        Ok(())
    }

    fn read_usage(&mut self, alloc: Global, rest: &str) -> Result<(), Fault> {
        self.usage = text_of(alloc, quoted(rest)?)?;
        Ok(())
    }

    fn file(&mut self, alloc: Global, rest: &str) -> Result<(), Fault> {
        let (name, text) = halves(rest);
        let bytes = bytes_of(alloc, text)?;
        self.before.hold(alloc, name, &bytes)?;
        Ok(self.shelf.hold(alloc, name, &bytes)?)
    }

    fn fail_shelf(&mut self, rest: &str) -> Result<(), Fault> {
        Ok(self.shelf.fail(fail_of(rest)?)?)
    }

    fn fail_sink(&mut self, rest: &str) -> Result<(), Fault> {
        Ok(self.sink.fail(fail_of(rest)?)?)
    }

    fn edit(&mut self, alloc: Global, rest: &str) -> Result<(), Fault> {
        let (name, texts) = halves(rest);
        let (old, new) = quoted(texts)?.split_once("\" \"").ok_or(Fault::Form)?;
        let (old, new) = (text_of(alloc, old)?, text_of(alloc, new)?);
        let file = self.text(alloc, name)?;
        match file.split_once(old.as_str()) {
            Some((begin, end)) => self.put(alloc, name, [begin, new.as_str(), end]),
            None => Err(Fault::Form),
        }
    }

    fn cut(&mut self, alloc: Global, rest: &str) -> Result<(), Fault> {
        let (name, text) = halves(rest);
        let text = text_of(alloc, quoted(text)?)?;
        let file = self.text(alloc, name)?;
        match file.rsplit_once(text.as_str()) {
            Some((begin, _)) => self.put(alloc, name, [begin, "", ""]),
            None => Err(Fault::Form),
        }
    }

    /// The text of a file.
    fn text(&mut self, alloc: Global, name: &str) -> Result<String, Fault> {
        match held(&mut self.shelf, alloc, name) {
            Some(bytes) => text_from(bytes),
            None => Err(Fault::Form),
        }
    }

    /// Puts three texts into a file, one after the other.
    fn put(&mut self, alloc: Global, name: &str, [a, b, c]: [&str; 3]) -> Result<(), Fault> {
        let text = format!(in alloc; "{a}{b}{c}")?;
        Ok(self.shelf.hold(alloc, name, text.as_bytes())?)
    }

    fn hold(&mut self, alloc: Global, rest: &str) -> Result<(), Fault> {
        let (name, text) = halves(rest);
        let want = bytes_of(alloc, quoted(text)?)?;
        if held(&mut self.shelf, alloc, name) != Some(want) {
            write!(self.wrong, "\n{name} isn't {text}")?;
        }
        Ok(())
    }

    fn stay(&mut self, alloc: Global, names: &str) -> Result<(), Fault> {
        for name in names.split_whitespace() {
            let was = held(&mut self.before, alloc, name);
            if held(&mut self.shelf, alloc, name) != was {
                write!(self.wrong, "\n{name} doesn't stay")?;
            }
        }
        Ok(())
    }

    /// Makes the call, and compares its answer.
    fn call<F>(&mut self, alloc: Global, want: &str, program: &F) -> Result<(), Fault>
    where
        F: Fn(Global, &[String], &mut MemShelf, &mut MemSink) -> u8,
        requires { F.IsAlwaysCallable program.now }
    {
        let status = program(alloc, &self.words, &mut self.shelf, &mut self.sink);
        self.compare(alloc, status, want)?;
        self.sink = MemSink::new(alloc);
        Ok(())
    }

    /// Compares the answer with what a line wants.
    fn compare(&mut self, alloc: Global, status: u8, want: &str) -> Result<(), Fault> {
        let (number, text) = halves(want);
        if number.parse::<u8>().ok() != Some(status) || !self.is_wanted(alloc, text)? {
            let came = self.sink.written().escape_ascii();
            write!(self.wrong, "\n{status} \"{came}\" isn't {want}")?;
        }
        Ok(())
    }

    /// Whether what was written is what a line wants.
    fn is_wanted(&self, alloc: Global, want: &str) -> Result<bool, Fault> {
        let written = self.sink.written();
        if want == "usage" {
            return Ok(written == self.usage.as_bytes());
        }
        let want = quoted(want)?;
        if let Some((begin, end)) = want.split_once("\" number \"") {
            return has_number(alloc, written, begin, end);
        }
        if let Some((begin, line)) = want.split_once("\" with \"") {
            return has_line(alloc, written, begin, line);
        }
        Ok(written == bytes_of(alloc, want)?.as_slice())
    }
}

/// The bytes under a name, if they are there.
fn held(shelf: &mut MemShelf, alloc: Global, name: &str) -> Option<Vec<u8>> {
    shelf.fetch(alloc, name, u64::MAX).ok()
}

/// The number of a call, and after how many bytes it fails.
fn fail_of(rest: &str) -> Result<Fail, Fault> {
    let (call, after) = halves(rest);
    match (call.parse(), after.parse()) {
        (Ok(call), Ok(after)) => Ok(Fail { call, after }),
        _ => Err(Fault::Form),
    }
}

/// Whether bytes are two texts with a number between them.
fn has_number(alloc: Global, bytes: &[u8], begin: &str, end: &str) -> Result<bool, Fault> {
    let begin = bytes_of(alloc, begin)?;
    let end = bytes_of(alloc, end)?;
    Ok(match bytes.strip_prefix(begin.as_slice()) {
        Some(rest) => is_number(rest.strip_suffix(end.as_slice()).unwrap_or(&[])),
        None => false,
    })
}

fn is_number(bytes: &[u8]) -> bool {
    match str::from_utf8(bytes) {
        Ok(text) => text.parse::<u64>().is_ok(),
        Err(_) => false,
    }
}

/// Whether bytes are a text and other lines after it, of which one is the line.
fn has_line(alloc: Global, bytes: &[u8], begin: &str, line: &str) -> Result<bool, Fault> {
    let begin = bytes_of(alloc, begin)?;
    let line = bytes_of(alloc, line)?;
    let rest = bytes.strip_prefix(begin.as_slice()).unwrap_or(&[]);
    Ok(
        rest.split(|byte| *byte == b'\n')
            .any(|other| other == line.as_slice()),
    )
}

/// The bytes of a text, as text.
fn text_of(alloc: Global, text: &str) -> Result<String, Fault> {
    text_from(bytes_of(alloc, text)?)
}

fn text_from(bytes: Vec<u8>) -> Result<String, Fault> {
    match String::from_utf8(bytes) {
        Ok(text) => Ok(text),
        Err(_) => Err(Fault::Form),
    }
}

/// The lines above the first row, and the row that is tried.
#[derive(Drop)]
struct Table {
    /// Only the rows with this word in their names are tried.
    word: String,
    common: Vec<String>,
    has_begun: bool,
    row: Option<Row>,
}

impl Table {
    /// Begins a row with the common lines, if it is to be tried.
    fn begin(&mut self, alloc: Global, name: &str) -> Result<(), Fault> {
        self.has_begun = true;
        self.row = None;
        if name.contains(self.word.as_str()) {
            let mut row = Row::new(alloc, name)?;
            for line in &self.common {
                let (key, rest) = halves(line.as_str());
                row.read(alloc, key, rest)?;
            }
            self.row = Some(row);
        }
        Ok(())
    }

    /// Reads the next line.
    fn take<F>(&mut self, rt: &(impl Print + AllocGlobal), line: &str, program: &F) -> Result<()>
    where
        F: Fn(Global, &[String], &mut MemShelf, &mut MemSink) -> u8,
        requires { F.IsAlwaysCallable program.now }
    {
        if line.starts_with("row ") {
            self.tell(rt)?;
        }
        let (key, rest) = halves(line);
        told(match &mut self.row {
            Some(row) if key == "want" => row.call(rt.alloc(), rest, program),
            _ => self.read(rt.alloc(), line),
        })
    }

    /// Reads a line that makes no call.
    fn read(&mut self, alloc: Global, line: &str) -> Result<(), Fault> {
        let (key, rest) = halves(line);
        if key == "row" {
            return self.begin(alloc, rest);
        }
        match &mut self.row {
            Some(row) => row.read(alloc, key, rest),
            None if self.has_begun => Ok(()),
            None => Ok(self.common.push(String::from_str(alloc, line)?)?),
        }
    }

    /// Prints whether the row passes, or what isn't as it must be.
    fn tell(&self, rt: &impl Print) -> Result<()> {
        if let Some(row) = &self.row {
            if row.wrong.is_empty() {
                println!(rt; "{}: ok", row.name)?;
            } else {
                println!(rt; "{}: {}", row.name, row.wrong)?;
            }
        }
        Ok(())
    }
}

/// Tries each row of the table in standard input, and prints for each whether it passes, or what
/// came and what must come.
pub fn run<F>(rt: &(impl Input + Print + Env + AllocGlobal), program: F) -> Result<()>
where
    F: Fn(Global, &[String], &mut MemShelf, &mut MemSink) -> u8,
    requires { F.IsAlwaysCallable program }
{
    let mut table = Table {
        word: chosen(rt)?,
        common: Vec::new(rt.alloc()),
        has_begun: false,
        row: None,
    };
    let tried = try_lines(rt, &mut table, &program);
    drop(table);
    tried
}

/// Tries all lines.
fn try_lines<F>(
    rt: &(impl Input + Print + AllocGlobal),
    table: &mut Table,
    program: &F,
) -> Result<()>
where
    F: Fn(Global, &[String], &mut MemShelf, &mut MemSink) -> u8,
    requires { F.IsAlwaysCallable program.now }
{
    let mut number = 0u64;
    for line in rt.lines(rt.alloc()) {
        number = number.saturating_add(1);
        table
            .take(rt, line?.as_str(), program)
            .context(format_args!("line {number}"))?;
    }
    table.tell(rt)
}
