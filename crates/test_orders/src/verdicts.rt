//! Whether logs are possible, by the clauses of their formulas.
use crate::given::{posed, system};
use anyhow::{Result, bail};
use bit_blast::Blasted;
use cdcl_core::{Answer, Progress, Search, solve_cnf};
use cnf_core::Cnf;
use order_formula::World;
use std::alloc::Global;
use std::mem::drop;
use test_table::given::Given;

/// The greatest number of clauses that a search may learn.
const BUDGET: u32 = 1_000_000;

/// The verdict on a log.
pub(crate) fn verdict(alloc: Global, given: &mut Given) -> Result<String> {
    let model = given.before(" : ");
    let mut again = *given;
    let posed = posed(alloc, model, given)?;
    let world = found(alloc, posed.blasted());
    drop(posed);
    let answer = match world? {
        None => "impossible",
        Some(world) => possible(alloc, model, &mut again, world)?,
    };
    Ok(String::from_str(alloc, answer)?)
}

/// The result of a search that tries false first, and the number of clauses that it learns.
pub(crate) fn learnt(alloc: Global, given: &mut Given) -> Result<String> {
    let posed = posed(alloc, given.before(" : "), given)?;
    let told = searched(alloc, posed.clauses());
    drop(posed);
    told
}

fn searched(alloc: Global, clauses: &Cnf) -> Result<String> {
    let mut search = Search::new(alloc, clauses, &[])?;
    let progress = search.run(alloc, BUDGET);
    let added = search.added();
    drop(search);
    let answer = match progress? {
        Progress::Sat(_) => "possible",
        Progress::Closed => "impossible",
        Progress::Paused => bail!("the budget is spent"),
    };
    Ok(format!(in alloc; "{answer}, {added} learnt")?)
}

/// The world of some values that satisfy the clauses, if there are such values.
fn found(alloc: Global, blasted: &Blasted) -> Result<Option<World>> {
    match solve_cnf(alloc, blasted.clauses(), &[], BUDGET)? {
        Answer::Found(values) => {
            if blasted.clauses().vars() == 0 {
                bail!("values of no variables");
            }
            Ok(Some(blasted.world(alloc, &values)?))
        }
        Answer::Impossible(_) => Ok(None),
        Answer::Spent(_) => bail!("the budget is spent"),
    }
}

/// The verdict `possible`, if the formula is true in the world.
fn possible(alloc: Global, model: &str, given: &mut Given, world: World) -> Result<&'static str> {
    let system = system(alloc, model, given)?;
    let lawful = system.holds(alloc, &world);
    drop(system);
    drop(world);
    if !lawful? {
        bail!("a world that isn't lawful");
    }
    Ok("possible")
}
