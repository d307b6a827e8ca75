//! Searches; every answer and derivation is checked.
use crate::lists::{is_satisfied, read};
use anyhow::{Result, bail};
use cdcl_core::{Answer, Progress, Search, solve_cnf};
use cnf_core::{Assignment, Cnf};
use refute_check::{Checked, Derivation, Line, check};
use std::alloc::{AllocError, Global};
use std::mem::drop;
use test_table::given::Given;

/// The result of a run of a search.
#[derive(Clone, Copy, PartialEq, Eq)]
enum Came {
    Satisfied,
    Closed,
    Paused(u32),
}

/// The greatest number of clauses that may be learnt.
const MOST: u32 = 10_000_000;

/// A run of a search, with its answer and derivation checked.
fn run(alloc: Global, cnf: &Cnf, search: &mut Search, conflicts: u32) -> Result<Came> {
    if conflicts == 0 || conflicts > MOST - search.added() {
        bail!("so many clauses can't be learnt");
    }
    let came = came_of(cnf, &search.run(alloc, conflicts)?, search.added())?;
    let Ok(checked) = check(alloc, cnf, search.derivation()) else {
        bail!("a line doesn't pass");
    };
    if (came == Came::Closed) != (checked == Checked::Closed) {
        bail!("closed by one, and open by the other");
    }
    Ok(came)
}

/// The result of a run that has added this many clauses.
fn came_of(cnf: &Cnf, progress: &Progress, added: u32) -> Result<Came> {
    match progress {
        Progress::Sat(values) if is_satisfied(cnf, values) => Ok(Came::Satisfied),
        Progress::Sat(_) => bail!("a wrong assignment"),
        Progress::Closed => Ok(Came::Closed),
        Progress::Paused => Ok(Came::Paused(added)),
    }
}

/// Adds the result of a run.
fn push_came(told: &mut String, came: Came) -> Result<(), AllocError> {
    if !told.is_empty() {
        told.push_str(", ")?;
    }
    match came {
        Came::Satisfied => told.push_str("satisfied"),
        Came::Closed => told.push_str("closed"),
        Came::Paused(added) => write!(told, "paused at {added}"),
    }
}

/// The results of the runs of one search.
pub(crate) fn search(alloc: Global, given: &mut Given) -> Result<String> {
    let cnf = read(alloc, given)?;
    let mut search = Search::new(alloc, &cnf, &[])?;
    let mut told = String::new(alloc);
    let ran = push_runs(alloc, &cnf, &mut search, given.rest(), &mut told);
    drop(search);
    drop(cnf);
    ran?;
    Ok(told)
}

fn push_runs(
    alloc: Global,
    cnf: &Cnf,
    search: &mut Search,
    runs: &str,
    told: &mut String,
) -> Result<()> {
    for conflicts in runs.split_whitespace() {
        let came = run(alloc, cnf, search, conflicts.parse()?)?;
        push_came(told, came)?;
    }
    Ok(())
}

/// The result of a search that learns one clause in each run, and whether an answer at once is
/// that the list is satisfiable.
pub(crate) fn both(alloc: Global, given: &mut Given) -> Result<String> {
    let cnf = read(alloc, given)?;
    let mut search = Search::new(alloc, &cnf, &[])?;
    let came = last(alloc, &cnf, &mut search);
    drop(search);
    let answer = solved(alloc, &cnf, given)?;
    let at_once = is_found(&cnf, &answer);
    drop(answer);
    drop(cnf);
    let mut told = String::new(alloc);
    push_came(&mut told, came?)?;
    write!(told, ", {at_once}")?;
    Ok(told)
}

/// The result of the last run, if each learns one clause.
fn last(alloc: Global, cnf: &Cnf, search: &mut Search) -> Result<Came> {
    for _ in 0..1000 {
        let came = run(alloc, cnf, search, 1)?;
        if came == Came::Satisfied || came == Came::Closed {
            return Ok(came);
        }
    }
    bail!("no answer")
}

/// The answer of `solve_cnf` within a budget, if some values are tried first.
fn solved(alloc: Global, cnf: &Cnf, given: &mut Given) -> Result<Answer<Assignment>> {
    let budget = given.number();
    if budget == 0 || budget > MOST {
        bail!("so many clauses can't be learnt");
    }
    let signs = given.rest().bytes();
    let first: Vec<bool> = signs.map(|sign| sign == b'+').collect(alloc)?;
    Ok(solve_cnf(alloc, cnf, first.as_slice(), budget)?)
}

/// Whether an answer is values that satisfy the list.
fn is_found(cnf: &Cnf, answer: &Answer<Assignment>) -> bool {
    match answer {
        Answer::Found(values) => is_satisfied(cnf, values),
        _ => false,
    }
}

/// The values that `solve_cnf` gives, as literals that are true.
pub(crate) fn values(alloc: Global, given: &mut Given) -> Result<String> {
    let cnf = read(alloc, given)?;
    let answer = solved(alloc, &cnf, given);
    drop(cnf);
    let Answer::Found(values) = answer? else {
        bail!("no values");
    };
    let text = literals_text(alloc, &values.into_values());
    Ok(text?)
}

/// The literals that are true under these values.
fn literals_text(alloc: Global, values: &[bool]) -> Result<String, AllocError> {
    let mut text = String::new(alloc);
    for (place, value) in values.iter().enumerate() {
        let sign = if *value { "" } else { "-" };
        write!(text, "{sign}{} ", place + 1)?;
    }
    String::from_str(alloc, text.trim_end())
}

/// The answer of `solve_cnf`: the number of values, or the lines.
pub(crate) fn solve(alloc: Global, given: &mut Given) -> Result<String> {
    let cnf = read(alloc, given)?;
    let answer = solved(alloc, &cnf, given)?;
    let text = answer_text(alloc, &cnf, &answer);
    drop(answer);
    drop(cnf);
    Ok(text?)
}

/// An answer: the number of values, or the lines.
fn answer_text(
    alloc: Global,
    cnf: &Cnf,
    answer: &Answer<Assignment>,
) -> Result<String, AllocError> {
    match answer {
        Answer::Found(values) => {
            let right = is_satisfied(cnf, values);
            let count = values.vars();
            format!(in alloc; "satisfied {right}, {count} values")
        }
        Answer::Impossible(derivation) => lines_text(alloc, "unsatisfiable", cnf, derivation),
        Answer::Spent(derivation) => {
            let added = added(derivation);
            let what = format!(in alloc; "spent, {added} lines added")?;
            lines_text(alloc, what.as_str(), cnf, derivation)
        }
    }
}

/// The number of clauses of the list that are deleted, and the checker's answer to the lines.
fn lines_text(
    alloc: Global,
    what: &str,
    cnf: &Cnf,
    derivation: &Derivation,
) -> Result<String, AllocError> {
    let lost = lost(cnf, derivation);
    let checked = check(alloc, cnf, derivation);
    format!(in alloc; "{what}, {lost} clauses of the list deleted, {checked:?}")
}

/// The number of clauses of the list that are deleted.
fn lost(cnf: &Cnf, derivation: &Derivation) -> u32 {
    let mut lost = 0u32;
    for line in derivation.lines() {
        if let Line::Delete(numbers) = line {
            for number in numbers.as_slice() {
                if *number as usize <= cnf.len() {
                    lost = lost.saturating_add(1);
                }
            }
        }
    }
    lost
}

/// The number of lines that add a clause.
fn added(derivation: &Derivation) -> u32 {
    let mut added = 0u32;
    for line in derivation.lines() {
        if let Line::Add(..) = line {
            added = added.saturating_add(1);
        }
    }
    added
}
