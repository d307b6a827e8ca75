//! The test that tables are closed.
ghost use Rattle.std.specs.Prelude.{◌≡◌, ◌+◌, ◌<◌, ◌^◌, Some, IsTrue};
ghost use Rattle.pure_turns.specs.Live.{IsClosed};
ghost use Rattle.slot_liveness.specs.Tables.{liveness};
ghost use Rattle.slot_liveness.specs.helpers.Closed.{IsClosedAt, IsClosedIn};

use crate::table::Table;
use tc_code::{Code, Instr};

/// Whether each slot is live at a place that must be.
fn is_closed_at(table: &Table, instr: &Instr, place: usize) -> bool
    requires room { place + 1 < 2 ^ 64 }
    ensures { IsTrue result → IsClosedAt table.now instr.now place }
{
    let Some(row) = table.rows.get(place) else {
        return false;
    };
    for slot in 0..row.slots.len() {
        if !table.is_kept(instr, place, slot) {
            return false;
        }
    }
    true
}

/// Whether the table of a function is closed.
fn is_closed(table: &Table, instrs: &[Instr]) -> bool
    ensures { IsTrue result → IsClosedIn table.now instrs.now }
{
    for (place, instr) in instrs.iter().enumerate() {
        if !is_closed_at(table, instr, place) {
            return false;
        }
    }
    true
}

/// Whether the tables of all functions are closed.
pub fn are_closed(code: &Code, tables: &[Table]) -> bool
    ensures { IsTrue result → IsClosed code.now (liveness (Some tables.now)) }
{
    for (function, func) in code.functions().iter().enumerate() {
        let Some(table) = tables.get(function) else {
            return false;
        };
        if !is_closed(table, func.instrs.as_slice()) {
            return false;
        }
    }
    true
}
