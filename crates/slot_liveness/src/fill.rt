//! The least table of a function, by passes from its last place to its first until nothing changes.
ghost use Rattle.std.specs.Prelude.{◌+◌, ◌<◌, ◌^◌};

use crate::table::{Row, Table};
use std::alloc::{AllocError, Global};
use tc_code::{Func, Instr};

/// Makes each slot live at a place that must be. Returns whether there was one that wasn't.
fn fill_place(table: &mut Table, instr: &Instr, place: usize, slots: usize) -> bool
    requires room { place + 1 < 2 ^ 64 }
{
    let mut changed = false;
    for slot in 0..slots {
        if !table.is_kept(instr, place, slot) {
            table.make_live(place, slot);
            changed = true;
        }
    }
    changed
}

/// The same at all places, the last first.
fn fill(table: &mut Table, func: &Func) -> bool {
    let mut changed = false;
    for (place, instr) in func.instrs.as_slice().iter().enumerate().rev() {
        if fill_place(table, instr, place, func.ints as usize) {
            changed = true;
        }
    }
    changed
}

/// A table in which no slot is live.
fn nothing_live(alloc: Global, func: &Func) -> Result<Table, AllocError> {
    let mut rows = Vec::new(alloc);
    for _ in func.instrs.as_slice() {
        let slots = vec![in alloc; false; func.ints as usize]?;
        rows.push(Row { slots })?;
    }
    Ok(Table { rows })
}

/// The table of a function.
pub fn table_of(alloc: Global, func: &Func) -> Result<Table, AllocError> {
    let mut table = nothing_live(alloc, func)?;
    let most = func
        .instrs
        .as_slice()
        .len()
        .saturating_mul(func.ints as usize);
    for _ in 0..most {
        if !fill(&mut table, func) {
            return Ok(table);
        }
    }
    Ok(table)
}
