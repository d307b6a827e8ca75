//! Worked rows of the search for a failure or a deadlock without a run, as data: reads a table of
//! rows, and prints for each group how many rows pass, and for each failing row what came.
//! `test_table` defines the format of a table. With a word after the program's name, tries only the
//! groups and rows that contain it.
//!
//! What a part is given, and what comes; several things are separated by ` : `:
//!
//! - `find`: `sc`, `tso` or `pso`, `failure` or `deadlock`, and the greatest number of outcomes : a program; `possible`, and
//!   each thread's name, steps and outcomes, or `never`, `every` or `bounded`, and the number of logs that are impossible; or
//!   why neither is known.
#![tactic(auto)]

mod find;

use anyhow::{Result, bail};
use std::alloc::Global;
use std::str;
use test_table::parts::{Parts, try_rows};

/// The parts of the program.
#[derive(Drop)]
struct Tried;

impl Parts for Tried {
    fn answer(&self, alloc: Global, part: &str, given: &[u8]) -> Result<String> {
        match part {
            "find" => find::find_row(alloc, str::from_utf8(given)?),
            _ => bail!("no such part"),
        }
    }
}

fn main(rt: HostRuntime) -> Result<()> {
    try_rows(&rt, &Tried)
}
