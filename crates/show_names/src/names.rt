//! All names of a program, and its lines.

use crate::body::{BodyNames, body_names};
use crate::globals::{GlobalNames, global_names};
use crate::source::source_of;
use crate::text::lines_of;
use sha2::{Digest, Sha256};
use std::alloc::{AllocError, Global};
use tc_tree::Tree;

/// What the text calls a cell, a mutex, a condition, a slot or a thread variable of its code, the text's lines, and its digest.
///
/// `?` is shown where there is no name: for a slot of the code's own, and a number past the last.
#[derive(Drop)]
pub struct Names {
    digest: String,
    lines: Vec<String>,
    source: Vec<String>,
    globals: GlobalNames,
    bodies: Vec<BodyNames>,
}

impl Names {
    /// The names of a program.
    pub fn of_tree(alloc: Global, tree: &Tree) -> Result<Names, AllocError> {
        Ok(Names {
            digest: hex::encode(alloc, Sha256::digest(tree.text).as_slice())?,
            lines: lines_of(alloc, tree.text)?,
            source: source_of(alloc, tree.text)?,
            globals: global_names(alloc, tree)?,
            bodies: body_names(alloc, tree)?,
        })
    }

    /// The SHA-256 digest of the text, in 64 digits.
    pub fn digest(&self) -> &str {
        self.digest.as_str()
    }

    /// The line with this number, from 1, without comments and the blanks at its ends, and cut off
    /// if it is longer than 60 characters.
    pub fn line(&self, number: u32) -> &str {
        match number.checked_sub(1) {
            Some(place) => named(self.lines.get(place as usize)),
            None => "?",
        }
    }

    /// All lines as they are written, each tab as four blanks.
    pub fn source(&self) -> &[String] {
        self.source.as_slice()
    }

    /// The name of a cell: that of an int, or of an array with the index.
    pub fn cell(&self, cell: u32) -> &str {
        named(self.globals.cells.get(cell as usize))
    }

    /// The names of all cells.
    pub fn cells(&self) -> &[String] {
        self.globals.cells.as_slice()
    }

    /// The name of the array that begins at a cell.
    pub fn array(&self, first: u32) -> &str {
        for array in self.globals.arrays.iter() {
            if array.first == first as usize {
                return array.name.as_str();
            }
        }
        "?"
    }

    /// The name of a mutex.
    pub fn mutex(&self, mutex: u32) -> &str {
        named(self.globals.mutexes.get(mutex as usize))
    }

    /// The names of all mutexes.
    pub fn mutexes(&self) -> &[String] {
        self.globals.mutexes.as_slice()
    }

    /// The names of all conditions.
    pub fn conditions(&self) -> &[String] {
        self.globals.conditions.as_slice()
    }

    /// The name of a condition.
    pub fn condition(&self, condition: u32) -> &str {
        named(self.globals.conditions.get(condition as usize))
    }

    /// The name of a function's parameter or int, if the slot is one.
    pub fn int(&self, function: usize, slot: u32) -> Option<&str> {
        Some(self.bodies.get(function)?.ints.get(slot as usize)?.as_str())
    }

    /// The name of a function's thread variable.
    pub fn handle(&self, function: usize, handle: u32) -> &str {
        match self.bodies.get(function) {
            Some(body) => named(body.handles.get(handle as usize)),
            None => "?",
        }
    }
}

/// The name, or `?` if there is none.
fn named(name: Option<&String>) -> &str {
    match name {
        Some(name) => name.as_str(),
        None => "?",
    }
}
