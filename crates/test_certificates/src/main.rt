//! Worked rows of the texts of certificates, as data: reads a table of rows, and prints for each
//! group how many rows pass, and for each failing row what came. `test_table` defines the format of
//! a table. With a word after the program's name, tries only the groups and rows that contain it.
//!
//! What a part is given, and what comes, or `refused`:
//!
//! - `header`: the first line of a certificate; the model, the kind, the number of outcomes, and
//!   whether it is whole;
//! - `log`: the line of a log; the thread that fails, or `none`, and each thread's name, steps and
//!   outcomes;
//! - `again`: a certificate; whether it is read, and is the same when it is written again.
#![tactic(auto)]

mod again;

use again::again;
use anyhow::{Result, bail};
use none_certificates::{read_header, read_log_line};
use std::alloc::Global;
use std::fmt::Write;
use test_table::parts::{Parts, try_rows};

/// The parts of the program.
#[derive(Drop)]
struct Tried;

impl Parts for Tried {
    fn answer(&self, alloc: Global, part: &str, given: &[u8]) -> Result<String> {
        match part {
            "header" => header(alloc, given),
            "log" => log(alloc, given),
            "again" => again(alloc, given),
            _ => bail!("no such part"),
        }
    }
}

fn header(alloc: Global, given: &[u8]) -> Result<String> {
    let Some(header) = read_header(alloc, given)? else {
        return Ok(String::from_str(alloc, "refused")?);
    };
    let bounds = header.bounds;
    Ok(format!(in alloc;
        "{} {:?} {} {}",
        header.model, bounds.kind, bounds.most, header.whole
    )?)
}

fn log(alloc: Global, given: &[u8]) -> Result<String> {
    let Some(line) = read_log_line(alloc, given)? else {
        return Ok(String::from_str(alloc, "refused")?);
    };
    let mut text = String::new(alloc);
    match &line.failing {
        Some(name) => write!(text, "{name}")?,
        None => text.push_str("none")?,
    }
    for thread in &line.threads {
        write!(text, ", {} {}", thread.name(), thread.steps())?;
        for outcome in thread.outcomes() {
            text.push_str(if *outcome { " 1" } else { " 0" })?;
        }
    }
    Ok(text)
}

fn main(rt: HostRuntime) -> Result<()> {
    try_rows(&rt, &Tried)
}
