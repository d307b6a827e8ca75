//! The slots that are live at each place of a program.
ghost use Rattle.std.specs.Prelude.{◌≡◌, IfOk};
ghost use Rattle.pure_turns.specs.Live.{IsClosed};
ghost use Rattle.slot_liveness.specs.Tables.{liveness};

use crate::check::are_closed;
use crate::fill::table_of;
use crate::table::Table;
use std::alloc::{AllocError, Global};
use std::marker::Model;
use tc_code::Code;

/// The slots that are live at each place of each function.
#[derive(Debug, Drop)]
pub struct LiveSlots {
    /// The table of each function. Without tables, each slot is taken to be live.
    tables: Option<Vec<Table>>,
}

impl Model for LiveSlots {
    ghost use Rattle.std.specs.Prelude.{List, Option, option_map};
    ghost use Rattle.slot_liveness.specs.Tables.{Table as PlainTable};

    ghost Value = { Option (List PlainTable) };

    ghost view = { λ l. option_map (λ v. v.items) l.tables };
}

impl LiveSlots {
    /// Whether a slot is live at a place of a function.
    pub fn is_live(&self, function: usize, place: usize, slot: usize) -> bool
        ensures { result ≡ liveness self.now function place slot }
    {
        match &self.tables {
            Some(tables) => match tables.get(function) {
                Some(table) => table.is_live(place, slot),
                None => false,
            },
            None => true,
        }
    }
}

/// The tables of all functions.
fn tables_of(alloc: Global, code: &Code) -> Result<Vec<Table>, AllocError> {
    let mut tables = Vec::new(alloc);
    for func in code.functions() {
        tables.push(table_of(alloc, func)?)?;
    }
    Ok(tables)
}

/// The slots that are live at each place of a program: each slot that the instruction there reads,
/// and each that is live after it and that it doesn't write.
///
/// The tables are tested before they are given. Should they not be closed, each slot is live.
pub fn live_slots(alloc: Global, code: &Code) -> Result<LiveSlots, AllocError>
    ensures { IfOk result (λ live. IsClosed code.now (liveness live)) }
{
    let tables = tables_of(alloc, code)?;
    if are_closed(code, &tables) {
        return Ok(LiveSlots {
            tables: Some(tables),
        });
    }
    Ok(LiveSlots { tables: None })
}
