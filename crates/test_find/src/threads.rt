//! The paths of one thread.
ghost use Rattle.std.specs.Prelude.{◌≤◌, length, IfOk, IfSome};

use anyhow::{Context, Result, bail};
use slot_liveness::live_slots;
use std::alloc::Global;
use std::fmt::Write;
use tc_code::Code;
use tc_compile::compile;
use tc_limits::limits::PROGRAM_BYTES;
use thread_paths::{Aim, Cut, End, Found, Path, Program, Scope, first_path, next_path};

/// The greatest number of paths in a row.
const MOST: u32 = 1_000;

fn end_of(word: &str) -> Result<End> {
    match word {
        "exit" => Ok(End::Exit),
        "used" => Ok(End::Used),
        "open" => Ok(End::Open),
        "rest" => Ok(End::Rest),
        _ => bail!("no such end"),
    }
}

/// The scope of the search.
fn scope_of(words: &str) -> Result<Scope> {
    let mut words = words.split_whitespace();
    let function = words.next().context("no function")?.parse::<usize>()?;
    let end = end_of(words.next().context("no end")?)?;
    let most = words
        .next()
        .context("no number of outcomes")?
        .parse::<u16>()?;
    let may_fail = words.next() == Some("fails");
    let aim = Aim { end, may_fail };
    Ok(Scope {
        function,
        aim,
        most,
    })
}

fn push_path(text: &mut String, path: &Path) -> Result<()> {
    write!(text, "{}:", path.steps)?;
    for outcome in path.outcomes.as_slice() {
        text.push(if *outcome { '1' } else { '0' })?;
    }
    text.push(' ')?;
    Ok(())
}

/// What at least one of two searches left out.
fn both(one: Cut, other: Cut) -> Cut {
    Cut {
        outcomes: one.outcomes || other.outcomes,
        steps: one.steps || other.steps,
    }
}

fn push_end(text: &mut String, cut: Cut) -> Result<()> {
    if cut.outcomes {
        text.push_str("outcomes ")?;
    }
    if cut.steps {
        text.push_str("steps ")?;
    }
    text.push_str("end")?;
    Ok(())
}

/// The code of a program.
pub(crate) fn code_of(alloc: Global, text: &[u8]) -> Result<Code> {
    if text.len() as u64 > PROGRAM_BYTES {
        bail!("a program that is too long");
    }
    Ok(compile(alloc, text)?)
}

/// The first path, or the one after a given path.
fn following(alloc: Global, program: Program<'_>, scope: Scope, last: Option<Path>) -> Result<Found>
    requires { IfSome last (λ p. length p.outcomes ≤ scope.most) }
    ensures { IfOk result (λ found. IfSome found.path (λ p. length p.outcomes ≤ scope.most)) }
{
    match last {
        Some(path) => Ok(next_path(alloc, program, scope, path)?),
        None => Ok(first_path(alloc, program, scope)?),
    }
}

/// The paths, one after another.
pub(crate) fn paths(alloc: Global, given: &str) -> Result<String> {
    let (words, program) = given.split_once(" : ").context("no program")?;
    let scope = scope_of(words)?;
    let code = code_of(alloc, program.as_bytes())?;
    let live = live_slots(alloc, &code)?;
    let program = Program {
        code: &code,
        live: &live,
    };
    let mut text = String::new(alloc);
    let mut cut = Cut {
        outcomes: false,
        steps: false,
    };
    let mut last = None;
    'paths: for _ in 0..MOST {
        let found = following(alloc, program, scope, last)?;
        cut = both(cut, found.cut);
        last = found.path;
        match &last {
            Some(path) => push_path(&mut text, path)?,
            None => {
                push_end(&mut text, cut)?;
                return Ok(text);
            }
        }
    }
    bail!("too many paths")
}
