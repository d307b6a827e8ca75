//! The slots of a thread.
ghost use Rattle.std.specs.Prelude.{◌≡◌, ◌<◌, length, pos, slice_index_or, IfOk};
ghost use Rattle.tc_threads.specs.run_laws.Whole.{IsWholeThread};
ghost use Rattle.tc_code.specs.Code as flat;
ghost use Rattle.tc_code.specs.Lawful.{IsLawful};
ghost use Rattle.tc_code.specs.Step as plain;

use std::alloc::{AllocError, Global};
use store_buffers::MemoryModel;
use tc_base::Request;
use tc_code::{Cell, Code, Expr, Instr};
use tc_threads::Thread;

/// The number of int slots of a function, or 0 if it doesn't exist.
pub(crate) fn ints_of(code: &Code, function: usize) -> u32
    ensures ints { result ≡ plain.ints_of code.now function }
    ensures lawful { IsLawful code.now }
{
    match code.functions().get(function) {
        Some(func) => func.ints,
        None => 0,
    }
}

/// The value of each slot of a thread, which has `count` of them.
pub(crate) fn slots_of<M: MemoryModel>(
    alloc: Global,
    count: u32,
    thread: &Thread<M>,
) -> Result<Vec<i32>, AllocError>
    requires whole { (code : flat.Code) × IsWholeThread code thread.now.local }
    requires count { count ≡ length thread.now.local.slots }
    ensures { IfOk result (λ slots. slots.items ≡ thread.now.local.slots) }
{
    let mut slots = Vec::new(alloc);
    for slot in 0..count {
        slots.push(slot_of(thread, slot))?;
    }
    Ok(slots)
}

/// The value of a slot of a thread: the value that the thread would ask to store from that slot.
fn slot_of<M: MemoryModel>(thread: &Thread<M>, slot: u32) -> i32
    requires whole { (code : flat.Code) × IsWholeThread code thread.now.local }
    requires there { slot < length thread.now.local.slots }
    ensures { result ≡ slice_index_or thread.now.local.slots slot (pos 0) }
{
    let store = Instr::Store {
        cell: Cell::Fixed(0),
        value: Expr::slot(slot),
    };
    match thread.request(&store) {
        Request::Write(_, value) => value,
        _ => unreachable!(),
    }
}
