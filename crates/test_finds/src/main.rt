//! Worked rows of the program that searches for failures, as data: reads a table of calls, and prints
//! for each whether it passes, or what came and what must come.
//!
//! `test_table` defines the format of a table.
#![tactic(auto)]

use anyhow::Result;
use clap_debug_find_cli::clap_debug_find;
use test_table::runs::run;

fn main(rt: HostRuntime) -> Result<()> {
    run(
        &rt,
        |alloc, words, shelf, sink| clap_debug_find(alloc, words, shelf, sink),
    )
}
