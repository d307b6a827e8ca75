//! Worked rows of orders, as data: reads a table of rows, and prints for each group how many rows
//! pass, and for each failing row what came. `test_table` defines the format of a table. With a
//! word after the program's name, tries only the groups and rows that contain it.
//!
//! What is given to a part, with ` : ` between several things, and what comes. A model is `sc`, `tso` or `pso`, a log is given
//! by its hex digits, and an event by its thread and step, as `0.1@2`:
//!
//! - `world`: a model : the events in their order : the values that the loads take : for each sleep what ends it, or `-` : a
//!   log : a program; whether the formula is true in this world, `lawful` or `unlawful`;
//! - `verdict`: a model : a log : a program; whether a search over the clauses of the formula finds values, `possible` or
//!   `impossible`; the world that they tell has to be lawful;
//! - `learnt`: the same; the verdict of a search that tries false first, and how many clauses it learns;
//! - `solved`: the same; what `solve` answers within a budget of one learnt clause: `possible` if the values of the first run
//!   leave nothing to learn;
//! - `fewest`: the same; how many moves and switches a schedule has that has the fewest switches, or `impossible`; a derivation that
//!   none has fewer is checked;
//! - `formula`: the same; how many events, loads and conjuncts there are;
//! - `clauses`: the same; how many variables and clauses.
#![tactic(auto)]

mod fewest;
mod given;
mod sizes;
mod solved;
mod verdicts;
mod worlds;

use anyhow::{Result, bail};
use std::alloc::Global;
use std::env::Env;
use std::str;
use test_table::given::Given;
use test_table::parts::{Parts, try_rows};

/// The parts of the program.
#[derive(Drop)]
struct Tried;

impl Parts for Tried {
    fn answer(&self, alloc: Global, part: &str, given: &[u8]) -> Result<String> {
        let mut given = Given::new(str::from_utf8(given)?);
        let told = answer(alloc, part, &mut given)?;
        given.end()?;
        Ok(told)
    }
}

/// The answer of a part.
fn answer(alloc: Global, part: &str, given: &mut Given) -> Result<String> {
    match part {
        "world" => worlds::judged(alloc, given),
        "verdict" => verdicts::verdict(alloc, given),
        "learnt" => verdicts::learnt(alloc, given),
        "solved" => solved::solved(alloc, given),
        "fewest" => fewest::fewest(alloc, given),
        "formula" => sizes::formula(alloc, given),
        "clauses" => sizes::clauses(alloc, given),
        _ => bail!("no such part"),
    }
}

fn main(rt: HostRuntime) -> Result<()> {
    try_rows(&rt, &Tried)
}
