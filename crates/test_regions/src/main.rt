//! Worked rows of the regions of mutexes, as data: reads a table of rows, and prints for each group
//! how many rows pass, and for each failing row what came. `test_table` defines the format of a
//! table. With a word after the program's name, tries only the groups and rows that contain it.
//!
//! What a part is given, and what comes:
//!
//! - `regions`: a log by its hex digits : a program; for each mutex the variables that it guards,
//!   and for each of its regions what it leaves in their cells, and what its loads take, as
//!   expressions over the cells before it.
#![tactic(auto)]

mod given;
mod told;

use anyhow::{Result, bail};
use std::alloc::Global;
use std::str;
use test_table::parts::{Parts, try_rows};

/// The parts of the program.
#[derive(Drop)]
struct Tried;

impl Parts for Tried {
    fn answer(&self, alloc: Global, part: &str, given: &[u8]) -> Result<String> {
        match part {
            "regions" => given::regions(alloc, str::from_utf8(given)?),
            _ => bail!("no such part"),
        }
    }
}

fn main(rt: HostRuntime) -> Result<()> {
    try_rows(&rt, &Tried)
}
