//! Tables of rows, as they are read from standard input.
//!
//! Module `runs` defines the format of a table of calls of a program and tries its rows, module
//! `parts` does so for a table of parts of it, and module `text` says how both write bytes. Module
//! `given` reads the input of a part, and module `answers` summarizes many answers.
#![tactic(auto)]

pub mod answers;
mod fault;
pub mod given;
pub mod parts;
pub mod runs;
mod text;

use anyhow::Result;
use std::env::{self, Env};

/// The word after the program's own name: only the rows that contain it are tried. It is empty if
/// there is none.
fn chosen(rt: &(impl Env + AllocGlobal)) -> Result<String> {
    Ok(env::args(rt)?.nth(1).unwrap_or(String::new(rt.alloc())))
}

/// The text before the first blank, and the text after it.
fn halves(line: &str) -> (&str, &str) {
    line.split_once(' ').unwrap_or((line, ""))
}
