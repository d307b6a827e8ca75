//! What a search for a schedule finds before it learns a clause.

use crate::given::{built, code_and_log};
use anyhow::{Result, bail};
use clap_solve::{Answer, solve};
use run_log::Log;
use std::alloc::Global;
use std::mem::drop;
use store_buffers::{MemoryModel, PsoModel, Sc, TsoModel};
use tc_code::Code;
use test_table::given::Given;

/// The answer on a log if the budget is one learnt clause: `spent` if the search learns one.
pub(crate) fn solved(alloc: Global, given: &mut Given) -> Result<String> {
    let model = given.before(" : ");
    let (code, log) = code_and_log(alloc, given)?;
    let answer = answer_under(alloc, model, &code, &log);
    drop(code);
    drop(log);
    Ok(String::from_str(alloc, answer?)?)
}

fn answer_under(alloc: Global, model: &str, code: &Code, log: &Log) -> Result<&'static str> {
    match model {
        "sc" => answer::<Sc>(alloc, code, log),
        "tso" => answer::<TsoModel>(alloc, code, log),
        "pso" => answer::<PsoModel>(alloc, code, log),
        _ => bail!("no such model"),
    }
}

fn answer<M: MemoryModel>(alloc: Global, code: &Code, log: &Log) -> Result<&'static str> {
    Ok(match built(solve::<M>(alloc, code, log, 1))? {
        Answer::Found(_) => "possible",
        Answer::Impossible(_) => "impossible",
        Answer::Spent(_) => "spent",
    })
}
