//! Worked rows of clauses, gates, refutations and searches, as data: reads a table of rows, and
//! prints for each group how many rows pass, and for each failing row what came. `test_table`
//! defines the format of a table. With a word after the program's name, tries only the groups and
//! rows that contain it.
//!
//! What a part is given, and what comes; several things are separated by ` : `. A clause has its
//! literals by rising variable, and ends with 0:
//!
//! - `gate`: a gate and two literals of the variables 1 and 2; the values of these and of the gate's variable that satisfy its
//!   clauses, true for each `+`;
//! - `check`: variables : clauses : a refutation; what the checker answers, to the whole and piece by piece;
//! - `cut-check`: the same; what each beginning of the refutation is answered;
//! - `takes`: a text; how many bytes each taking takes of the rest, and what they are;
//! - `search`: variables : clauses : how many clauses each run may learn; what each run comes to;
//! - `both`: variables : clauses : a budget; what a search comes to that learns one clause in each run, and whether there is an
//!   answer at once that the list is satisfiable;
//! - `solve`: variables : clauses : a budget; the answer, and how many values there are, or what the lines do;
//! - `values`: the same, and the values that are tried first, if any, true for each `+`; the values that come, each as the
//!   literal that is true.
#![tactic(auto)]

mod lists;
mod refutations;
mod search;

use anyhow::{Result, bail};
use std::alloc::Global;
use std::env::Env;
use std::str;
use test_table::given::Given;
use test_table::parts::{Parts, try_rows};

/// The parts of the program.
#[derive(Drop)]
struct Tried;

impl Parts for Tried {
    fn answer(&self, alloc: Global, part: &str, given: &[u8]) -> Result<String> {
        let mut given = Given::new(str::from_utf8(given)?);
        let told = answer(alloc, part, &mut given)?;
        given.end()?;
        Ok(told)
    }
}

/// The answer of a part.
fn answer(alloc: Global, part: &str, given: &mut Given) -> Result<String> {
    match part {
        "gate" => lists::gate(alloc, given),
        "check" => refutations::check_row(alloc, given),
        "cut-check" => refutations::cut_check(alloc, given),
        "takes" => refutations::takes(alloc, given),
        "search" => search::search(alloc, given),
        "both" => search::both(alloc, given),
        "solve" => search::solve(alloc, given),
        "values" => search::values(alloc, given),
        _ => bail!("no such part"),
    }
}

fn main(rt: HostRuntime) -> Result<()> {
    try_rows(&rt, &Tried)
}
