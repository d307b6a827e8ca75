//! Worked rows of the search for a failure without a run, as data: reads a table of rows, and
//! prints for each group how many rows pass, and for each failing row what came. `test_table`
//! defines the format of a table. With a word after the program's name, tries only the groups and
//! rows that contain it.
//!
//! What a part is given, and what comes; several things are separated by ` : `:
//!
//! - `thread-paths`: a function's number, how its paths end (`exit`, `used`, `open` or `rest`), the greatest number of
//!   outcomes, and `fails` where the thread may fail : a program; the steps and the outcomes of each path that the thread may
//!   take, one after another, then `outcomes` or `steps` where some are left out since they have too many, and `end`.
//! - `logs`: `failure` or `deadlock`, and the greatest number of outcomes : a program; of each log, one after another, each
//!   thread's name, steps and outcomes, and `|`; then the limits for which some are left out, and `end`.
#![tactic(auto)]

mod logs;
mod threads;

use anyhow::{Result, bail};
use std::alloc::Global;
use std::str;
use test_table::parts::{Parts, try_rows};

/// The parts of the program.
#[derive(Drop)]
struct Tried;

impl Parts for Tried {
    fn answer(&self, alloc: Global, part: &str, given: &[u8]) -> Result<String> {
        match part {
            "logs" => logs::logs(alloc, str::from_utf8(given)?),
            "thread-paths" => threads::paths(alloc, str::from_utf8(given)?),
            _ => bail!("no such part"),
        }
    }
}

fn main(rt: HostRuntime) -> Result<()> {
    try_rows(&rt, &Tried)
}
