//! Store buffers, by callers that are generic over the model.
ghost use Rattle.std.specs.Prelude.{◌≡◌, Some, true, IfOk, List};
ghost use Rattle.store_buffers.specs.Pending.{Pending, Stands};

use anyhow::{Result, bail};
use std::alloc::{AllocError, Global};
use std::mem::drop;
use store_buffers::{MemoryModel, PsoModel, Sc, TsoModel};
use test_table::given::Given;

/// Issues a store and loads its cell: whatever else is pending, the load takes the store's value.
fn store_and_load<M: MemoryModel>(
    buffer: &mut M::Buffer,
    cell: u32,
    value: i32,
) -> Result<Option<i32>, AllocError>
    requires { M.BUFFERED ≡ true }
    ensures { (pending : List Pending) → Stands M.ops buffer.old pending → IfOk result (λ taken. taken ≡ Some value) }
{
    M::issue(buffer, cell, value)?;
    Ok(M::forward(buffer, cell))
}

/// Does an act, and adds its answer.
fn act_on<M: MemoryModel>(
    text: &mut String,
    buffer: &mut M::Buffer,
    act: &mut Given,
) -> Result<(), AllocError> {
    match act.word() {
        "issue" => issue::<M>(buffer, act.number(), act.number()),
        "bar" => M::bar(buffer),
        "load" => push_load::<M>(text, buffer, act.number()),
        "drain" => push_drain::<M>(text, buffer, form_of(act)),
        "forms" => push_forms::<M>(text, buffer),
        "empty" => text.push_str(if M::is_empty(buffer) { " yes;" } else { " no;" }),
        "own" => push_own::<M>(text, buffer, act.number(), act.number()),
        "bound" => push_bound::<M>(text),
        _ => {
            act.refuse();
            Ok(())
        }
    }
}

/// The form of a drain: a cell, or none.
fn form_of(act: &mut Given) -> Option<u32> {
    if act.is_at_end() {
        None
    } else {
        Some(act.number())
    }
}

/// Issues a store, if the model has buffers.
fn issue<M: MemoryModel>(buffer: &mut M::Buffer, cell: u32, value: i32) -> Result<(), AllocError> {
    if M::BUFFERED {
        M::issue(buffer, cell, value)
    } else {
        Ok(())
    }
}

/// Adds the value that a load takes from the buffer.
fn push_load<M: MemoryModel>(
    text: &mut String,
    buffer: &M::Buffer,
    cell: u32,
) -> Result<(), AllocError> {
    match M::forward(buffer, cell) {
        Some(value) => write!(text, " {value};"),
        None => text.push_str(" none;"),
    }
}

/// Does a drain in a form, if it may be done, and adds the store.
fn push_drain<M: MemoryModel>(
    text: &mut String,
    buffer: &mut M::Buffer,
    form: Option<u32>,
) -> Result<(), AllocError> {
    let may = M::may_drain(buffer, form);
    match M::drain(buffer, form) {
        Some((cell, value)) if may => write!(text, " {cell}={value};"),
        None if !may => text.push_str(" none;"),
        _ => text.push_str(" a drain that may not be, or isn't;"),
    }
}

/// Adds the forms of the drains that may be done.
fn push_forms<M: MemoryModel>(text: &mut String, buffer: &M::Buffer) -> Result<(), AllocError> {
    for form in &M::forms(*text.allocator(), buffer)? {
        match form {
            Some(cell) => write!(text, " {cell}")?,
            None => text.push_str(" -")?,
        }
    }
    text.push(';')
}

/// Adds the value that a load takes right after a store, if the model has buffers.
fn push_own<M: MemoryModel>(
    text: &mut String,
    buffer: &mut M::Buffer,
    cell: u32,
    value: i32,
) -> Result<(), AllocError> {
    if !M::BUFFERED {
        return Ok(());
    }
    let taken = store_and_load::<M>(buffer, cell, value)?;
    write!(text, " {taken:?};")
}

/// Adds the model's name, and the stores that it binds.
fn push_bound<M: MemoryModel>(text: &mut String) -> Result<(), AllocError> {
    write!(text, " {}", M::MODEL)?;
    for (same, barred) in [(false, false), (true, false), (false, true), (true, true)] {
        text.push_str(if M::bound(same, barred) {
            " yes"
        } else {
            " no"
        })?;
    }
    text.push(';')
}

/// Does acts on a buffer, and adds their answers.
fn act_all<M: MemoryModel>(text: &mut String, buffer: &mut M::Buffer, acts: &str) -> Result<()> {
    for act in acts.split(", ") {
        let mut act = Given::new(act);
        act_on::<M>(text, buffer, &mut act)?;
        act.end()?;
    }
    Ok(())
}

/// The answers of acts on an empty buffer.
fn all_acted<M: MemoryModel>(alloc: Global, acts: &str) -> Result<String> {
    let mut buffer = M::empty(alloc);
    let mut text = String::new(alloc);
    let acted = act_all::<M>(&mut text, &mut buffer, acts);
    drop(buffer);
    acted?;
    Ok(String::from_str(alloc, text.trim_start())?)
}

pub(crate) fn buffer(alloc: Global, given: &mut Given) -> Result<String> {
    match given.word() {
        "sc" => all_acted::<Sc>(alloc, given.rest()),
        "tso" => all_acted::<TsoModel>(alloc, given.rest()),
        "pso" => all_acted::<PsoModel>(alloc, given.rest()),
        _ => bail!("no such model"),
    }
}
