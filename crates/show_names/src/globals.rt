//! The names of the globals, by their numbers in the code.

use crate::text::shown;
use std::alloc::{AllocError, Global as Heap};
use tc_tree::{Global, Name, Tree};

/// An array: the number of its first cell, and its name.
#[derive(Drop)]
pub(crate) struct Array {
    pub(crate) first: usize,
    pub(crate) name: String,
}

/// The names of cells, mutexes and conditions, each at the place of its number, and the arrays.
#[derive(Drop)]
pub(crate) struct GlobalNames {
    pub(crate) cells: Vec<String>,
    pub(crate) arrays: Vec<Array>,
    pub(crate) mutexes: Vec<String>,
    pub(crate) conditions: Vec<String>,
}

/// The names of the globals of a tree.
pub(crate) fn global_names(alloc: Heap, tree: &Tree) -> Result<GlobalNames, AllocError> {
    let mut names = GlobalNames {
        cells: Vec::new(alloc),
        arrays: Vec::new(alloc),
        mutexes: Vec::new(alloc),
        conditions: Vec::new(alloc),
    };
    for global in &tree.program.globals {
        names.add(alloc, tree.text, global)?;
    }
    Ok(names)
}

impl GlobalNames {
    /// The next global: an int is one cell, an array as many as its length.
    fn add(&mut self, alloc: Heap, text: &[u8], global: &Global) -> Result<(), AllocError> {
        match global {
            Global::Int(name, _) => self.cells.push(name_of(alloc, text, name)?)?,
            Global::Array(name, length) => {
                let name = name_of(alloc, text, name)?;
                let first = self.cells.len();
                for i in 0..length.value {
                    self.cells.push(format!(in alloc; "{name}[{i}]")?)?;
                }
                self.arrays.push(Array { first, name })?;
            }
            Global::Mutex(name) => self.mutexes.push(name_of(alloc, text, name)?)?,
            Global::Condition(name) => self.conditions.push(name_of(alloc, text, name)?)?,
        }
        Ok(())
    }
}

/// A name of a text.
pub(crate) fn name_of(alloc: Heap, text: &[u8], name: &Name) -> Result<String, AllocError> {
    shown(alloc, name.text(text))
}
