//! The walk over a program in the order of its text.
ghost use Rattle.std.specs.Prelude.{◌≡◌, ◌++◌, [], IfOk, map, take, drop, length};
ghost use Rattle.tc_tree.specs.Seen.{body_of, thread_of, program_of};
ghost use Rattle.tc_names.specs.Names.{
  twice_fault,
  size_fault,
  global_name,
  globals_fault,
  declarations_fault,
  body_fault,
  threads_fault,
  names_fault,
  program_declarations,
  ◌then◌,
};
ghost use Rattle.tc_names.specs.Names as rules;
ghost use Rattle.tc_names.specs.Answers.{TellsUnlessMemory};
ghost use Rattle.tc_names.specs.helpers.Answers.{Tells};

use crate::fault::NameFault;
use crate::scope::{Declaration, Meaning, Scope, check_first};
use crate::uses::check_statements;
use std::alloc::{AllocError, Global as Heap};
use tc_tree::{Body, Global, Local, Name, Program, Thread, Tree};

/// Rejects a program at the first token that breaks the rules for names.
pub fn check_names(alloc: Heap, tree: &Tree) -> Result<(), NameFault>
    ensures { TellsUnlessMemory result (names_fault tree.now.text.now (program_of tree.now.program)) }
{
    let source = tree.text;
    let program = &tree.program;
    let all = declared(alloc, program)?;
    check_globals(source, all.as_slice(), program.globals.as_slice())?;
    check_threads(
        alloc,
        source,
        all.as_slice(),
        program.globals.len(),
        program.threads.as_slice(),
    )?;
    check_body(alloc, source, all.as_slice(), &[], &program.main)
}

/// The global declarations and the threads, in order.
fn declared(alloc: Heap, program: &Program) -> Result<Vec<Declaration>, AllocError>
    ensures { IfOk result (λ all. all.items ≡ map rules.global_declaration program.now.globals.items ++ map
        (λ t. rules.thread_declaration (thread_of t)) program.now.threads.items) }
{
    program
        .globals
        .iter()
        .map(global_declaration)
        .chain(program.threads.iter().map(thread_declaration))
        .collect(alloc)
}

fn thread_declaration(thread: &Thread) -> Declaration
    ensures { result ≡ rules.thread_declaration (thread_of thread.now) }
{
    Declaration {
        name: thread.name,
        meaning: Meaning::Thread(thread.parameters.len()),
    }
}

fn global_declaration(global: &Global) -> Declaration
    ensures { result ≡ rules.global_declaration global.now }
{
    match global {
        Global::Int(name, _) => Declaration {
            name: *name,
            meaning: Meaning::Global,
        },
        Global::Array(name, _) => Declaration {
            name: *name,
            meaning: Meaning::Array,
        },
        Global::Mutex(name) => Declaration {
            name: *name,
            meaning: Meaning::Mutex,
        },
        Global::Condition(name) => Declaration {
            name: *name,
            meaning: Meaning::Condition,
        },
    }
}

/// Checks the globals, which are the first of these declarations.
fn check_globals(source: &[u8], all: &[Declaration], globals: &[Global]) -> Result<(), NameFault>
    requires { all.now ≡ map rules.global_declaration globals.now ++ drop (length globals.now) all.now }
    ensures { Tells result (globals_fault source.now [] globals.now) }
{
    let mut count = 0_usize;
    let mut rest = globals;
    while let [global, later @ ..] = rest {
        check_global(source, &all[..count], global)?;
        count += 1;
        rest = later;
    }
    Ok(())
}

fn check_global(source: &[u8], earlier: &[Declaration], global: &Global) -> Result<(), NameFault>
    ensures { Tells result (twice_fault source.now earlier.now (global_name global.now) then size_fault global.now) }
{
    match global {
        Global::Int(name, _) | Global::Mutex(name) | Global::Condition(name) => {
            check_first(source, earlier, name)
        }
        Global::Array(name, size) => {
            check_first(source, earlier, name)?;
            if size.value == 0 {
                Err(NameFault::Kind(size.place))
            } else {
                Ok(())
            }
        }
    }
}

/// Checks the threads, which are declared after the globals.
fn check_threads(
    alloc: Heap,
    source: &[u8],
    all: &[Declaration],
    globals: usize,
    threads: &[Thread],
) -> Result<(), NameFault>
    requires { drop globals all.now ≡ map rules.thread_declaration (map thread_of threads.now) }
    ensures { TellsUnlessMemory result (threads_fault source.now all.now (take globals all.now) (map thread_of threads.now)) }
{
    let mut count = globals;
    let mut rest = threads;
    while let [thread, later @ ..] = rest {
        check_first(source, &all[..count], &thread.name)?;
        check_body(
            alloc,
            source,
            all,
            thread.parameters.as_slice(),
            &thread.body,
        )?;
        count += 1;
        rest = later;
    }
    Ok(())
}

/// Checks the parameters and the declarations of a body, then its statements.
fn check_body(
    alloc: Heap,
    source: &[u8],
    all: &[Declaration],
    parameters: &[Name],
    body: &Body,
) -> Result<(), NameFault>
    ensures { TellsUnlessMemory result (body_fault source.now all.now parameters.now (body_of body.now)) }
{
    let own = own_declarations(alloc, parameters, body.locals.as_slice())?;
    check_own(source, own.as_slice())?;
    let scope = Scope {
        source,
        own: own.as_slice(),
        all,
    };
    check_statements(scope, body.block.statements.as_slice())
}

/// The parameters, then the declarations of a body.
fn own_declarations(
    alloc: Heap,
    parameters: &[Name],
    locals: &[Local],
) -> Result<Vec<Declaration>, AllocError>
    ensures { IfOk result (λ own. own.items ≡ rules.own_declarations parameters.now locals.now) }
{
    parameters
        .iter()
        .map(parameter_declaration)
        .chain(locals.iter().map(local_declaration))
        .collect(alloc)
}

fn parameter_declaration(name: &Name) -> Declaration
    ensures { result ≡ rules.parameter_declaration name.now }
{
    Declaration {
        name: *name,
        meaning: Meaning::Parameter,
    }
}

fn local_declaration(local: &Local) -> Declaration
    ensures { result ≡ rules.local_declaration local.now }
{
    match local {
        Local::Int(name) => Declaration {
            name: *name,
            meaning: Meaning::Local,
        },
        Local::Handle(name) => Declaration {
            name: *name,
            meaning: Meaning::Handle,
        },
    }
}

/// Rejects the first of a body's own declarations whose name was declared before it.
fn check_own(source: &[u8], own: &[Declaration]) -> Result<(), NameFault>
    ensures { Tells result (declarations_fault source.now [] own.now) }
{
    let mut count = 0_usize;
    let mut rest = own;
    while let [declaration, later @ ..] = rest {
        check_first(source, &own[..count], &declaration.name)?;
        count += 1;
        rest = later;
    }
    Ok(())
}
