//! The paths of a log's threads, in words.

use crate::program::Program;
use path_walk::{Blocked, Paths, Walk};
use std::alloc::{AllocError, Global};
use tc_base::Failing;
use tc_code::Instr;

/// A line that a thread went along.
#[derive(Clone, Copy)]
pub struct Went<'a> {
    /// The number of the line, from 1.
    pub line: u32,
    /// Its text.
    pub source: &'a str,
    /// For a branch there, whether its condition, or the left side of its `&&` or `||`, wasn't 0.
    pub outcome: Option<bool>,
}

/// Adds a thread by its name, its function and its number of steps.
pub fn push_title(out: &mut String, program: Program<'_>, walk: &Walk) -> Result<(), AllocError> {
    let name = walk.name();
    let function = program.called(walk.function());
    let steps = walk.places().len();
    let unit = if steps == 1 { "step" } else { "steps" };
    write!(out, "{name} {function}, {steps} {unit}")
}

/// The lines of a thread's path. Successive steps at one line count as one, up to a branch.
pub fn walk_words<'a>(
    alloc: Global,
    program: Program<'a>,
    walk: &Walk,
) -> Result<Vec<Went<'a>>, AllocError> {
    let mut lines = Vec::new(alloc);
    push_walk(&mut lines, program, walk)?;
    Ok(lines)
}

/// Adds the lines of a thread's path.
fn push_walk<'a>(
    lines: &mut Vec<Went<'a>>,
    program: Program<'a>,
    walk: &Walk,
) -> Result<(), AllocError> {
    let mut used = 0usize;
    let mut open = 0;
    for place in walk.places() {
        let line = program.line(walk.function(), *place);
        if line != open {
            push_line(lines, program, open, None)?;
        }
        open = line;
        if is_branch(program, walk.function(), *place) {
            let outcome = walk.outcomes().get(used).copied();
            let outcome = truth_of(program, walk.function(), *place, outcome);
            push_line(lines, program, line, outcome)?;
            used = used.saturating_add(1);
            open = 0;
        }
    }
    push_line(lines, program, open, None)
}

/// Adds a line that a thread went along. Lines are numbered from 1, so 0 adds none.
fn push_line<'a>(
    lines: &mut Vec<Went<'a>>,
    program: Program<'a>,
    line: u32,
    outcome: Option<bool>,
) -> Result<(), AllocError> {
    if line == 0 {
        return Ok(());
    }
    Ok(lines.push(Went {
        line,
        source: program.names.line(line),
        outcome,
    })?)
}

/// Whether the condition of the text is true at a branch, given the logged outcome: for `||` the
/// code branches on whether the left side is false.
fn truth_of(
    program: Program<'_>,
    function: usize,
    place: usize,
    outcome: Option<bool>,
) -> Option<bool> {
    let is_or = matches!(program.branched(function, place), Some(choice) if choice.is_or);
    Some(outcome? != is_or)
}

/// Whether there is a branch at a place.
fn is_branch(program: Program<'_>, function: usize, place: usize) -> bool {
    matches!(
        program.code.instr(function, place),
        Some(Instr::Branch { .. })
    )
}

/// Adds how the run of a log ended, in lines.
pub fn push_ending(
    out: &mut String,
    program: Program<'_>,
    paths: &Paths,
) -> Result<(), AllocError> {
    match paths.failing() {
        Failing::Thread(index) => push_failed(out, program, paths.threads().get(index)),
        Failing::Deadlock => {
            out.push_str("deadlock\n")?;
            for walk in paths.threads() {
                push_blocked(out, program, walk)?;
            }
            Ok(())
        }
    }
}

/// Adds where a thread failed.
fn push_failed(
    out: &mut String,
    program: Program<'_>,
    walk: Option<&Walk>,
) -> Result<(), AllocError> {
    if let Some(walk) = walk
        && let Some(place) = walk.places().last()
    {
        let name = walk.name();
        let line = program.line(walk.function(), *place);
        let source = program.names.line(line);
        writeln!(out, "{name} failed at line {line}: {source}")
    } else {
        Ok(())
    }
}

/// Adds what blocks a thread in a deadlock, if it is blocked.
fn push_blocked(words: &mut String, program: Program<'_>, walk: &Walk) -> Result<(), AllocError> {
    let name = walk.name();
    match walk.blocked() {
        None => writeln!(words, "  {name} has exited"),
        Some(Blocked::Lock { mutex }) => {
            let mutex = program.names.mutex(mutex);
            writeln!(words, "  {name} can't lock {mutex}")
        }
        Some(Blocked::Wake { condition, .. }) => {
            let condition = program.names.condition(condition);
            writeln!(words, "  {name} waits on {condition}")
        }
        Some(Blocked::Join { child }) => {
            writeln!(words, "  {name} waits for the end of {name}.{child}")
        }
    }
}
