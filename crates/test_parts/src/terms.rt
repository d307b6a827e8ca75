//! Terms over two loads, which took 3 and -4.
ghost use Rattle.std.specs.Prelude.{◌<◌, length, IfOk};

use crate::base::{binary_of, unary_of};
use anyhow::{Context, Result, bail};
use std::alloc::Global;
use std::mem::drop;
use sym_terms::{Id, Terms, Values, value};
use test_table::given::Given;

/// The term of an earlier step.
fn term_of(terms: &Terms, ids: &[Id], step: usize) -> Result<Id>
    ensures { IfOk result (λ id. id < length terms.now) }
{
    match ids.get(step) {
        Some(id) if id.place() < terms.len() => Ok(*id),
        _ => bail!("no such step"),
    }
}

/// The number of a step, as `#N`.
fn step_of(word: &str) -> Result<usize> {
    let number = word.strip_prefix('#').context("no number of a step")?;
    Ok(number.parse::<usize>()?)
}

/// The term of a step.
fn made(terms: &mut Terms, ids: &[Id], step: &mut Given) -> Result<Id> {
    let first = step.word();
    if first == "load" {
        return Ok(terms.symbol(step.number())?);
    }
    if first.starts_with('#') {
        let a = term_of(terms, ids, step_of(first)?)?;
        let op = binary_of(step.word())?;
        let b = term_of(terms, ids, step_of(step.word())?)?;
        return Ok(terms.op2(op, a, b)?);
    }
    match unary_of(first) {
        Some(op) => {
            let a = term_of(terms, ids, step_of(step.word())?)?;
            Ok(terms.op1(op, a)?)
        }
        None => Ok(terms.constant(first.parse()?)?),
    }
}

/// The number of terms, and the value of the last, which must stay the same when asked for again.
fn told(alloc: Global, terms: &Terms, ids: &[Id]) -> Result<String> {
    let last = term_of(terms, ids, ids.len().saturating_sub(1))?;
    let mut values = Values::new(alloc, terms, &[3, -4])?;
    let first = value(terms, last, &mut values);
    if first != value(terms, last, &mut values) {
        bail!("another value");
    }
    Ok(format!(in alloc; "{} terms, {first}", terms.len())?)
}

/// Terms made step by step.
pub(crate) fn terms(alloc: Global, given: &mut Given) -> Result<String> {
    let mut terms = Terms::new(alloc);
    let mut ids = Vec::new(alloc);
    let made = make_all(&mut terms, &mut ids, given.rest());
    let told = told(alloc, &terms, &ids);
    drop(terms);
    drop(ids);
    made?;
    told
}

fn make_all(terms: &mut Terms, ids: &mut Vec<Id>, steps: &str) -> Result<()> {
    for step in steps.split(", ") {
        let mut step = Given::new(step);
        let id = made(terms, ids, &mut step)?;
        step.end()?;
        ids.push(id)?;
    }
    Ok(())
}
