//! Worked rows of the program, as data: reads a table of calls, and prints for each whether it
//! passes, or what came and what must come.
//!
//! `test_table` defines the format of a table. The last lines are the answers of calls that find no
//! memory, and of one over a shelf and a sink that never fail.
#![tactic(auto)]

mod memory;

use anyhow::Result;
use clap_debug_cli::clap_debug;
use test_table::runs::run;

fn main(rt: HostRuntime) -> Result<()> {
    run(
        &rt,
        |alloc, words, shelf, sink| clap_debug(alloc, words, shelf, sink),
    )?;
    memory::run_scantly(&rt)?;
    memory::run_surely(&rt)
}
