//! Worked rows of places, as data: reads a table of rows, and prints for each group how many rows
//! pass, and for each failing row what came. `test_table` defines the format of a table. With a
//! word after the program's name, tries only the groups and rows that contain it.
//!
//! What a part is given, and what comes:
//!
//! - `places`: how often a thread may go round each loop : a program; how many places each function
//!   has, and for each place its instruction, and the first instruction and the round of each loop
//!   around it.
#![tactic(auto)]

mod given;

use anyhow::{Result, bail};
use std::alloc::Global;
use std::str;
use test_table::parts::{Parts, try_rows};

/// The parts of the program.
#[derive(Drop)]
struct Tried;

impl Parts for Tried {
    fn answer(&self, alloc: Global, part: &str, given: &[u8]) -> Result<String> {
        match part {
            "places" => given::places(alloc, str::from_utf8(given)?),
            _ => bail!("no such part"),
        }
    }
}

fn main(rt: HostRuntime) -> Result<()> {
    try_rows(&rt, &Tried)
}
