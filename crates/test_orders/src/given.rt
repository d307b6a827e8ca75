//! The input of a row.
ghost use Rattle.std.specs.Prelude.{◌≤◌, length, IfOk};
ghost use Rattle.tc_limits.specs.declared.limits.TheConstants.{PROGRAM_BYTES};

use anyhow::{Result, bail};
use clap_solve::{Posed, pose};
use clap_system::{BuildFault, System, build};
use path_log::read_log;
use run_log::Log;
use std::alloc::Global;
use std::mem::drop;
use store_buffers::{PsoModel, Sc, TsoModel};
use tc_code::Code;
use tc_compile::compile;
use tc_limits::limits::PROGRAM_BYTES;
use test_table::given::Given;

/// The system of a log and a program under a model.
pub(crate) fn system(alloc: Global, model: &str, given: &mut Given) -> Result<System> {
    let (code, log) = code_and_log(alloc, given)?;
    let system = system_under(alloc, model, &code, &log);
    drop(code);
    drop(log);
    system
}

/// The clauses of a log and a program under a model.
pub(crate) fn posed(alloc: Global, model: &str, given: &mut Given) -> Result<Posed> {
    let (code, log) = code_and_log(alloc, given)?;
    let posed = posed_under(alloc, model, &code, &log);
    drop(code);
    drop(log);
    posed
}

/// The code of a program, and a log.
pub(crate) fn code_and_log(alloc: Global, given: &mut Given) -> Result<(Code, Log)> {
    let log = log_of(alloc, given.before(" : "))?;
    let code = compile(alloc, within(given.rest())?)?;
    Ok((code, log))
}

/// The log of hex digits.
fn log_of(alloc: Global, digits: &str) -> Result<Log> {
    let bytes = hex::decode(alloc, digits.as_bytes())?;
    Ok(read_log(alloc, bytes.as_slice())?)
}

/// The bytes of a program that is as long as one may be.
fn within(program: &str) -> Result<&[u8]>
    ensures { IfOk result (λ text. length text.now ≤ PROGRAM_BYTES) }
{
    let text = program.as_bytes();
    if text.len() as u64 > PROGRAM_BYTES {
        bail!("a program that is too long");
    }
    Ok(text)
}

fn system_under(alloc: Global, model: &str, code: &Code, log: &Log) -> Result<System> {
    match model {
        "sc" => built(build::<Sc>(alloc, code, log)),
        "tso" => built(build::<TsoModel>(alloc, code, log)),
        "pso" => built(build::<PsoModel>(alloc, code, log)),
        _ => bail!("no such model"),
    }
}

fn posed_under(alloc: Global, model: &str, code: &Code, log: &Log) -> Result<Posed> {
    match model {
        "sc" => built(pose::<Sc>(alloc, code, log)),
        "tso" => built(pose::<TsoModel>(alloc, code, log)),
        "pso" => built(pose::<PsoModel>(alloc, code, log)),
        _ => bail!("no such model"),
    }
}

/// What was built from a log; fails if the log has a fault.
pub(crate) fn built<T: Drop>(made: Result<T, BuildFault>) -> Result<T> {
    match made {
        Ok(made) => Ok(made),
        Err(fault) => bail!("{fault:?}"),
    }
}
