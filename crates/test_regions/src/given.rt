//! The input of a row.
ghost use Rattle.std.specs.Prelude.{◌≤◌, length, IfOk};
ghost use Rattle.tc_limits.specs.declared.limits.TheConstants.{PROGRAM_BYTES, THREADS};

use crate::told::Told;
use anyhow::{Context, Result, bail};
use path_log::read_log;
use path_walk::{Paths, walk};
use read_write::all_accesses;
use run_log::Log;
use std::alloc::{AllocError, Global};
use std::mem::drop;
use sym_exec::execute;
use sym_terms::Terms;
use tc_code::Code;
use tc_compile::compile;
use tc_limits::limits::{PROGRAM_BYTES, THREADS};

/// What the regions in a log of a program do.
pub(crate) fn regions(alloc: Global, given: &str) -> Result<String> {
    let (digits, program) = given.split_once(" : ").context("a log without a program")?;
    let log = log_of(alloc, digits)?;
    let told = in_program(alloc, program, &log);
    drop(log);
    told
}

/// The log of hex digits.
fn log_of(alloc: Global, digits: &str) -> Result<Log> {
    let bytes = hex::decode(alloc, digits.as_bytes())?;
    Ok(read_log(alloc, bytes.as_slice())?)
}

/// The bytes of a program that is as long as one may be.
fn within(program: &str) -> Result<&[u8]>
    ensures { IfOk result (λ text. length text.now ≤ PROGRAM_BYTES) }
{
    let text = program.as_bytes();
    if text.len() as u64 > PROGRAM_BYTES {
        bail!("a program that is too long");
    }
    Ok(text)
}

fn in_program(alloc: Global, program: &str, log: &Log) -> Result<String> {
    let code = compile(alloc, within(program)?)?;
    let told = in_log(alloc, &code, log);
    drop(code);
    told
}

fn in_log(alloc: Global, code: &Code, log: &Log) -> Result<String> {
    if log.threads().len() > THREADS {
        bail!("a log of too many threads");
    }
    let paths = walk(alloc, code, log)?;
    let told = on_paths(alloc, code, &paths);
    drop(paths);
    Ok(told?)
}

fn on_paths(alloc: Global, code: &Code, paths: &Paths) -> Result<String, AllocError> {
    let mut terms = Terms::new(alloc);
    let told = with_terms(alloc, code, paths, &mut terms);
    drop(terms);
    told
}

fn with_terms(
    alloc: Global,
    code: &Code,
    paths: &Paths,
    terms: &mut Terms,
) -> Result<String, AllocError> {
    let symbolic = execute(alloc, code, paths, terms)?;
    let accesses = all_accesses(alloc, &symbolic);
    drop(symbolic);
    let accesses = accesses?;
    let told = Told {
        alloc,
        paths,
        terms,
        accesses: &accesses,
    };
    told.all(code.mutexes())
}
