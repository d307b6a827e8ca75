//! Worked rows of shelves and sinks, as data: over real files in the folder where the program runs,
//! and over readers and writers that fail. Reads a table of rows, and prints for each group how many
//! rows pass, and for each failing row what came. `test_table` defines the format of a table. With a
//! word after the program's name, tries only the groups and rows that contain it.
//!
//! What a part is given, and what comes:
//!
//! - `real`: acts on a shelf over real files, with `; ` between them; what each answers, and how many bytes were taken;
//! - `short`: the same over files each of which gives three bytes, one at a time, and then fails;
//! - `mem` and `sure`: the same over a shelf in memory, that may fail or never does; what each act answers;
//! - `sink` and `interrupted`: texts with `, ` between them, put into a sink that keeps them, or into one that takes three
//!   bytes, is interrupted, and takes two more; what each put answers, and what was written if that is known;
//! - `reader` and `interruption`: limits for readings of up to so many bytes, of `0123456789` or of a reader that gives three
//!   bytes, is interrupted, and gives two more; the number of bytes or the fault of each, and how many bytes were taken.
//!
//! The acts on a shelf:
//!
//! - `fetch NAME LIMIT`: the bytes, or why there are none; `keep NAME TEXT`, and `open NAME`, whether it works;
//! - `read NAME SIZE`: opens a reading and takes pieces of a size; the bytes, whether it comes to its end, and whether it is
//!   open then; `is-open`: whether a reading is open;
//! - `hold NAME TEXT` and `fail CALL AFTER`, in memory: puts a text under a name, plans a call that fails;
//! - `make-dir NAME`, `remove-dir NAME`, `write NAME TEXT`, `remove NAME`, `link NAME NAME`, `hard-link NAME NAME`,
//!   `chmod NAME MODE`: they change real files, and end the program if they can't; `mode NAME`: a file's mode, and whether the
//!   name is a link; `names NAME`: the names in a folder.
#![tactic(auto)]

mod fakes;
mod files;
mod shelves;
mod streams;

use anyhow::{Result, bail};
use std::alloc::Global;
use std::str;
use test_table::given::Given;
use test_table::parts::{Parts, try_rows};

/// The parts, over the files of the system.
#[derive(Drop)]
struct Tried {
    rt: HostRuntime,
}

impl Parts for Tried {
    fn answer(&self, alloc: Global, part: &str, given: &[u8]) -> Result<String> {
        let mut given = Given::new(str::from_utf8(given)?);
        let mut told = String::new(alloc);
        self.tell(part, &mut given, &mut told)?;
        given.end()?;
        Ok(told)
    }
}

impl Tried {
    /// Adds the answer of a part.
    fn tell(&self, part: &str, given: &mut Given, told: &mut String) -> Result<()> {
        match part {
            "real" => files::real(&self.rt, given.rest(), told),
            "short" => shelves::short(given.rest(), told),
            "mem" => shelves::mem(given.rest(), told),
            "sure" => shelves::sure(given.rest(), told),
            "sink" => Ok(streams::sink(given.rest(), told)?),
            "interrupted" => Ok(streams::interrupted(given.rest(), told)?),
            "reader" => streams::reader(given.rest(), told),
            "interruption" => streams::interruption(given.rest(), told),
            _ => bail!("no such part"),
        }
    }
}

fn main(rt: HostRuntime) -> Result<()> {
    let files = rt.clone()?;
    try_rows(&rt, &Tried { rt: files })
}
