//! The names of a program, each with the scope in which it is known.

use std::alloc::{AllocError, Global as Heap};
use tc_lexer::Place;
use tc_names::Meaning;
use tc_tree::{Body, Global, Local, Name, Program, Thread};

/// Where a name is known.
#[derive(Clone, Copy, PartialEq, Eq)]
pub(crate) enum Scope {
    /// In the whole program.
    Whole,
    /// In the body of the thread of this name.
    Thread(Name),
    /// In main.
    Main,
}

/// A name with its declaration.
#[derive(Clone, Copy)]
pub(crate) struct Known {
    pub(crate) name: Name,
    pub(crate) meaning: Meaning,
    pub(crate) scope: Scope,
}

/// All names of a program, in the order of their scopes: those of the whole program first.
pub(crate) fn known_names(alloc: Heap, program: &Program) -> Result<Vec<Known>, AllocError> {
    let mut known = Vec::new(alloc);
    push_whole(&mut known, program)?;
    for thread in &program.threads {
        push_thread(&mut known, thread)?;
    }
    push_locals(&mut known, &program.main, Scope::Main)?;
    Ok(known)
}

/// Adds the names that are known in the whole program.
fn push_whole(known: &mut Vec<Known>, program: &Program) -> Result<(), AllocError> {
    for global in &program.globals {
        known.push(known_global(global))?;
    }
    for thread in &program.threads {
        known.push(Known {
            name: thread.name,
            meaning: Meaning::Thread(thread.parameters.len()),
            scope: Scope::Whole,
        })?;
    }
    Ok(())
}

/// Adds the names that are known in the body of a thread.
fn push_thread(known: &mut Vec<Known>, thread: &Thread) -> Result<(), AllocError> {
    let scope = Scope::Thread(thread.name);
    for name in &thread.parameters {
        known.push(Known {
            name: *name,
            meaning: Meaning::Parameter,
            scope,
        })?;
    }
    push_locals(known, &thread.body, scope)
}

fn known_global(global: &Global) -> Known {
    let (name, meaning) = match global {
        Global::Int(name, _) => (*name, Meaning::Global),
        Global::Array(name, _) => (*name, Meaning::Array),
        Global::Mutex(name) => (*name, Meaning::Mutex),
        Global::Condition(name) => (*name, Meaning::Condition),
    };
    Known {
        name,
        meaning,
        scope: Scope::Whole,
    }
}

/// Adds the declarations of a body.
fn push_locals(known: &mut Vec<Known>, body: &Body, scope: Scope) -> Result<(), AllocError> {
    for local in &body.locals {
        let (name, meaning) = match local {
            Local::Int(name) => (*name, Meaning::Local),
            Local::Handle(name) => (*name, Meaning::Handle),
        };
        known.push(Known {
            name,
            meaning,
            scope,
        })?;
    }
    Ok(())
}

/// The body that contains a place.
pub(crate) fn scope_at(program: &Program, place: Place) -> Scope {
    for thread in &program.threads {
        if is_before(place, thread.name.place) {
            return Scope::Whole;
        }
        if !is_before(thread.body.block.end, place) {
            return Scope::Thread(thread.name);
        }
    }
    Scope::Main
}

fn is_before(this: Place, that: Place) -> bool {
    this.line < that.line || (this.line == that.line && this.col < that.col)
}
