//! The names that a body declares, by their numbers in the code.

use crate::globals::name_of;
use std::alloc::{AllocError, Global};
use tc_tree::{Local, Name, Tree};

/// The names of a function's parameters and ints, and of its thread variables, each at the place of its number.
#[derive(Drop)]
pub(crate) struct BodyNames {
    pub(crate) ints: Vec<String>,
    pub(crate) handles: Vec<String>,
}

/// The names of each function, main's last.
pub(crate) fn body_names(alloc: Global, tree: &Tree) -> Result<Vec<BodyNames>, AllocError> {
    let mut bodies = Vec::new(alloc);
    for thread in &tree.program.threads {
        let parameters = thread.parameters.as_slice();
        let locals = thread.body.locals.as_slice();
        bodies.push(body_of(alloc, tree.text, parameters, locals)?)?;
    }
    let locals = tree.program.main.locals.as_slice();
    bodies.push(body_of(alloc, tree.text, &[], locals)?)?;
    Ok(bodies)
}

/// The names of a body with these parameters and declarations.
fn body_of(
    alloc: Global,
    text: &[u8],
    parameters: &[Name],
    locals: &[Local],
) -> Result<BodyNames, AllocError> {
    let mut names = BodyNames {
        ints: Vec::new(alloc),
        handles: Vec::new(alloc),
    };
    for name in parameters {
        names.ints.push(name_of(alloc, text, name)?)?;
    }
    for local in locals {
        match local {
            Local::Int(name) => names.ints.push(name_of(alloc, text, name)?)?,
            Local::Handle(name) => names.handles.push(name_of(alloc, text, name)?)?,
        }
    }
    Ok(names)
}
