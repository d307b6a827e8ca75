//! Worked rows of parts of the program, as data: reads a table of rows, and prints for each group
//! how many rows pass, and for each failing row what came. `test_table` defines the format of a
//! table. With a word after the program's name, tries only the groups and rows that contain it.
//!
//! What a part is given, and what comes; several things are separated by ` : `:
//!
//! - `arith`: an operator with its one or two numbers; the value;
//! - `name`: numbers of children; the name that they lead to, and its children;
//! - `order`: two names' children; how the names are ordered, and whether they are equal;
//! - `seeded`: a seed; the first five words of the generator;
//! - `terms`: steps with `,` between them, each a number, `load N`, or an operator over earlier steps `#N`; how many terms
//!   they make, and the value of the last, where load 0 took 3 and load 1 -4;
//! - `buffer`: a model, and acts with `,` between them: `issue CELL VALUE`, `bar`, `load CELL`, `drain`, `drain CELL`,
//!   `forms`, `empty`, `own CELL VALUE` (a store and a load), `bound` (the model's name, and whether an older store is bound
//!   before a newer one: plainly, to one cell, over a bar, and both); what all but the first two answer;
//! - `tokens`: a text; its tokens and their places, a keyword in `"` and a sign in `` ` ``, or the fault;
//! - `place`: a text; the place after it;
//! - `program`: a text; that it is a program, or its fault;
//! - `tree`: an expression; the same with brackets round each operator, and `[..]` for those of the text;
//! - `schedule`: a text; its model and moves, or the fault;
//! - `cut-schedule`: a text; what each of its beginnings is answered, from the shortest, equal answers counted;
//! - `log`: hex digits; how many threads the log has, or the fault;
//! - `paths`: hex digits; the log's model, the first and the last byte of its digest, the failing thread or that there is a
//!   deadlock, and each thread's steps and outcomes;
//! - `digest`: a text; its digest;
//! - `moves`: a model of the machine, a schedule's model and moves with `,` between them : a program; the moves that are
//!   enabled then, and each thread's name, function and instruction, steps and outcomes; or the first move that isn't
//!   enabled, and why;
//! - `walk`: hex digits of a log : a program; how many events and operators the paths have and whether they are dead, or
//!   the log's fault;
//! - `ways`: the same; the same, and each path;
//! - `sizes`: the same; how many loads and terms the execution has;
//! - `execute`: the same : values of loads; all that the execution finds, with the value of each
//!   term after it;
#![tactic(auto)]

mod base;
mod buffers;
mod execution;
mod files;
mod machine;
mod paths;
mod terms;
mod text;

use anyhow::{Result, bail};
use std::alloc::Global;
use std::env::Env;
use std::str;
use test_table::given::Given;
use test_table::parts::{Parts, try_rows};

/// The parts of the program.
#[derive(Drop)]
struct Tried;

impl Parts for Tried {
    fn answer(&self, alloc: Global, part: &str, given: &[u8]) -> Result<String> {
        match part {
            "tokens" => text::tokens(alloc, given),
            "place" => text::place(alloc, given),
            "program" => text::program(alloc, given),
            "schedule" => files::schedule(alloc, given),
            "cut-schedule" => files::cut_schedule(alloc, given),
            "digest" => files::digest(alloc, given),
            _ => {
                let mut given = Given::new(str::from_utf8(given)?);
                let told = answer(alloc, part, &mut given)?;
                given.end()?;
                Ok(told)
            }
        }
    }
}

/// The answer of a part.
fn answer(alloc: Global, part: &str, given: &mut Given) -> Result<String> {
    match part {
        "arith" => base::arith(alloc, given),
        "name" => base::name(alloc, given),
        "order" => base::order(alloc, given),
        "seeded" => base::seeded(alloc, given),
        "terms" => terms::terms(alloc, given),
        "buffer" => buffers::buffer(alloc, given),
        "tree" => text::tree(alloc, given),
        "log" => files::log(alloc, given),
        "paths" => files::paths(alloc, given),
        "moves" => machine::moved(alloc, given),
        "walk" => paths::walked(alloc, given),
        "ways" => paths::ways(alloc, given),
        "sizes" => paths::sizes(alloc, given),
        "execute" => paths::executed(alloc, given),
        _ => bail!("no such part"),
    }
}

fn main(rt: HostRuntime) -> Result<()> {
    try_rows(&rt, &Tried)
}
