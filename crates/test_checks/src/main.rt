//! Worked rows of certificates that are made and checked, as data: reads a table of rows, and prints
//! for each group how many rows pass, and for each failing row what came. `test_table` defines the
//! format of a table. With a word after the program's name, tries only the groups and rows that
//! contain it.
//!
//! What a part is given, and what comes; several things are separated by ` : `:
//!
//! - `made`: `sc`, `tso` or `pso`, `failure` or `deadlock`, and the greatest number of outcomes : a
//!   program; the verdict on the certificate that a search makes, or `none` if it makes none;
//! - `turned`: the same : a change of that certificate (`without` or `swapped` and the index of a
//!   log, `whole`, or `cut short`); the verdict on what comes of it;
//! - `check`: a program : a certificate; the verdict on it.
#![tactic(auto)]

mod made;
mod turned;

use anyhow::{Result, bail};
use std::alloc::Global;
use std::str;
use test_table::parts::{Parts, try_rows};

/// The parts of the program.
#[derive(Drop)]
struct Tried;

impl Parts for Tried {
    fn answer(&self, alloc: Global, part: &str, given: &[u8]) -> Result<String> {
        let given = str::from_utf8(given)?;
        match part {
            "made" => made::made(alloc, given),
            "turned" => turned::turned(alloc, given),
            "check" => made::checked(alloc, given),
            _ => bail!("no such part"),
        }
    }
}

fn main(rt: HostRuntime) -> Result<()> {
    try_rows(&rt, &Tried)
}
