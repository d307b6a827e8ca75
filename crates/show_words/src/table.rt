//! Schedules and logs as text.

use crate::counts::{Counts, counts_of};
use crate::ends::push_end;
use crate::moves::{Shown, show_moves};
use crate::program::Program;
use crate::walks::{Went, push_ending, push_title, walk_words};
use path_walk::Paths;
use run_log::Log;
use schedule_file::Schedule;
use show_rows::Told;
use std::alloc::{AllocError, Global};

/// The kinds of rows.
#[derive(Clone, Copy, Debug, PartialEq, Eq)]
pub enum Detail {
    /// A statement or an event.
    Statements,
    /// A move.
    Moves,
}

/// The widths of the columns that have one of their own.
#[derive(Clone, Copy)]
struct Widths {
    thread: usize,
    source: usize,
}

/// The table of a schedule's moves, with the name of its program above, and how it ended below.
pub fn schedule_text(
    alloc: Global,
    name: &str,
    program: Program<'_>,
    schedule: &Schedule,
    told: &Told,
    detail: Detail,
) -> Result<String, AllocError> {
    let shown = show_moves(alloc, program, schedule.model, told.rows.as_slice())?;
    let mut out = String::new(alloc);
    push_head(&mut out, name, program, schedule, shown.as_slice())?;
    push_rows(&mut out, program, shown.as_slice(), detail)?;
    out.push('\n')?;
    push_end(&mut out, program, told)?;
    Ok(out)
}

/// Adds the lines above the table: the program and its digest, the memory model, and the
/// schedule's counts.
fn push_head(
    out: &mut String,
    name: &str,
    program: Program<'_>,
    schedule: &Schedule,
    shown: &[Shown],
) -> Result<(), AllocError> {
    let model = schedule.model.name();
    let Counts {
        moves,
        switches,
        events,
    } = counts_of(shown);
    let digest = program.names.digest();
    writeln!(
        out,
        "{name} under {model}: moves {moves}, switches {switches}, events {events} of 256"
    )?;
    writeln!(out, "sha256 {digest}\n")
}

impl Shown {
    /// Its words in a table, if it has a row there.
    fn words_in(&self, detail: Detail) -> Option<&str> {
        match (detail, &self.brief) {
            (Detail::Moves, _) => Some(self.words.as_str()),
            (Detail::Statements, Some(brief)) => Some(brief.as_str()),
            (Detail::Statements, None) => None,
        }
    }
}

/// Adds the rows, with a rule between those of different threads.
fn push_rows(
    out: &mut String,
    program: Program<'_>,
    shown: &[Shown],
    detail: Detail,
) -> Result<(), AllocError> {
    let widths = widths_of(program, shown, detail);
    let mut last: Option<&Shown> = None;
    for (i, row) in shown.iter().enumerate() {
        if let Some(words) = row.words_in(detail) {
            if let Some(before) = last
                && before.thread != row.thread
            {
                push_many(
                    out,
                    '-',
                    widths
                        .thread
                        .saturating_add(widths.source)
                        .saturating_add(40),
                )?;
                out.push('\n')?;
            }
            push_row(out, program, widths, i, row)?;
            writeln!(out, "  {words}")?;
            last = Some(row);
        }
    }
    Ok(())
}

/// The widths that the rows need.
fn widths_of(program: Program<'_>, shown: &[Shown], detail: Detail) -> Widths {
    let mut widths = Widths {
        thread: 6,
        source: 4,
    };
    for row in shown {
        if row.words_in(detail).is_some() {
            widths.thread = widths.thread.max(width(row.thread.as_str()));
            widths.source = widths.source.max(width(program.names.line(row.line)));
        }
    }
    widths
}

/// Adds the row of the move at a place, up to its words.
fn push_row(
    out: &mut String,
    program: Program<'_>,
    widths: Widths,
    place: usize,
    row: &Shown,
) -> Result<(), AllocError> {
    let number = place.saturating_add(1);
    let line = row.line;
    write!(out, "{number:>4}  ")?;
    push_left(out, row.thread.as_str(), widths.thread)?;
    write!(out, "  {line:>4}  ")?;
    push_left(out, program.names.line(line), widths.source)
}

/// The threads of a log, the lines of each with the outcomes of its branches, and how the run
/// ended.
pub fn log_text(
    alloc: Global,
    program: Program<'_>,
    log: &Log,
    paths: &Paths,
) -> Result<String, AllocError> {
    let model = log.model().name();
    let mut out = format!(in alloc; "recorded under {model}\n")?;
    for walk in paths.threads() {
        out.push('\n')?;
        push_title(&mut out, program, walk)?;
        out.push('\n')?;
        push_lines(&mut out, walk_words(alloc, program, walk)?.as_slice())?;
    }
    out.push('\n')?;
    push_ending(&mut out, program, paths)?;
    Ok(out)
}

/// Adds the lines that a thread went along.
fn push_lines(out: &mut String, lines: &[Went<'_>]) -> Result<(), AllocError> {
    for went in lines {
        let (line, source) = (went.line, went.source);
        let outcome = match went.outcome {
            Some(true) => "  -> true",
            Some(false) => "  -> false",
            None => "",
        };
        writeln!(out, "{line:>6}  {source}{outcome}")?;
    }
    Ok(())
}

/// The number of characters in a text.
fn width(text: &str) -> usize {
    text.chars().count()
}

/// Adds a text, and blanks up to a width.
fn push_left(out: &mut String, text: &str, room: usize) -> Result<(), AllocError> {
    out.push_str(text)?;
    push_many(out, ' ', room.saturating_sub(width(text)))
}

/// Adds a character a number of times.
fn push_many(out: &mut String, c: char, count: usize) -> Result<(), AllocError> {
    for _ in 0..count {
        out.push(c)?;
    }
    Ok(())
}
