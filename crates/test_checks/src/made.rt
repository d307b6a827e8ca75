//! Certificates that searches make, and the verdicts on them.

ghost use Rattle.std.specs.Prelude.{◌≤◌};
ghost use Rattle.tc_limits.specs.declared.limits.TheConstants as limits;

use anyhow::{Context, Result, bail};
use certificate_input::{Incoming, Verdict};
use certified_logs::{certificate, header_of};
use find_failures::{Asked, Found, Searched, find};
use log_walk::Kind;
use memory_models::Model;
use std::alloc::Global;
use store_buffers::{PsoModel, Sc, TsoModel};
use tc_code::Code;
use tc_compile::compile;
use tc_limits::limits::PROGRAM_BYTES;

/// The greatest number of logs in a row.
const LOGS: u32 = 1_000;

/// The number of clauses that the search for a schedule of one log may learn.
const BUDGET: u32 = 10_000;

fn kind_of(word: &str) -> Result<Kind> {
    match word {
        "failure" => Ok(Kind::Failure),
        "deadlock" => Ok(Kind::Deadlock),
        _ => bail!("no such kind"),
    }
}

/// The code of a program.
fn code_of(alloc: Global, text: &[u8]) -> Result<Code> {
    if text.len() as u64 > PROGRAM_BYTES {
        bail!("a program that is too long");
    }
    Ok(compile(alloc, text)?)
}

/// The result under a memory model.
fn find_under(alloc: Global, model: Model, code: &Code, asked: Asked) -> Result<Searched>
    requires some { 1 ≤ asked.budget }
    requires room { asked.budget ≤ limits.BUDGET }
{
    match model {
        Model::Sc => Ok(find::<Sc>(alloc, code, asked)?),
        Model::Tso => Ok(find::<TsoModel>(alloc, code, asked)?),
        Model::Pso => Ok(find::<PsoModel>(alloc, code, asked)?),
    }
}

fn model_of(word: &str) -> Result<Model> {
    match word {
        "sc" => Ok(Model::Sc),
        "tso" => Ok(Model::Tso),
        "pso" => Ok(Model::Pso),
        _ => bail!("no such model"),
    }
}

/// The certificate that a search makes, if it rules runs out.
pub(crate) fn certificate_of(alloc: Global, words: &str, program: &str) -> Result<Option<Vec<u8>>> {
    let mut words = words.split_whitespace();
    let model = model_of(words.next().context("no model")?)?;
    let asked = Asked {
        kind: kind_of(words.next().context("no kind")?)?,
        outcomes: words
            .next()
            .context("no number of outcomes")?
            .parse::<u16>()?,
        logs: LOGS,
        budget: BUDGET,
    };
    let code = code_of(alloc, program.as_bytes())?;
    let searched = find_under(alloc, model, &code, asked)?;
    let Found::Never(reach) = &searched.found else {
        return Ok(None);
    };
    let header = header_of(model, asked, *reach);
    Ok(Some(certificate(alloc, header, &searched.refuted)?))
}

/// The verdict on a certificate for a program.
pub(crate) fn verdict_on(alloc: Global, program: &str, bytes: &[u8]) -> Result<String> {
    let code = code_of(alloc, program.as_bytes())?;
    let mut incoming = Incoming::new(alloc, code);
    incoming.take(alloc, bytes)?;
    let verdict = incoming.outcome(alloc)?;
    verdict_text(alloc, verdict)
}

fn verdict_text(alloc: Global, verdict: Verdict) -> Result<String> {
    match verdict {
        Verdict::Holds(header) => {
            let extent = if header.whole { "whole" } else { "cut" };
            Ok(format!(in alloc; "holds {extent}")?)
        }
        Verdict::Open => Ok(String::from_str(alloc, "open")?),
        Verdict::LineRefused(line) => Ok(format!(in alloc; "refused {line}")?),
        Verdict::Form(line) => Ok(format!(in alloc; "form {line}")?),
        Verdict::Limit(which, number, limit) => {
            Ok(format!(in alloc; "{which:?} {number} of {limit}")?)
        }
        Verdict::LeftOut(_) => Ok(String::from_str(alloc, "left out")?),
    }
}

/// The verdict on the certificate that a search makes.
pub(crate) fn made(alloc: Global, given: &str) -> Result<String> {
    let (words, program) = given.split_once(" : ").context("no program")?;
    match certificate_of(alloc, words, program)? {
        Some(bytes) => verdict_on(alloc, program, &bytes),
        None => Ok(String::from_str(alloc, "none")?),
    }
}

/// The verdict on a given certificate.
pub(crate) fn checked(alloc: Global, given: &str) -> Result<String> {
    let (program, bytes) = given.split_once(" : ").context("no certificate")?;
    verdict_on(alloc, program, bytes.as_bytes())
}
