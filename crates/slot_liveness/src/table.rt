//! The table of a function.
ghost use Rattle.std.specs.Prelude.{◌≡◌, ◌+◌, ◌<◌, ◌^◌, slice_index_or, true, not, ◌||◌};
ghost use Rattle.slot_liveness.specs.Tables.{is_live_in};
ghost use Rattle.slot_liveness.specs.helpers.Closed.{is_live_after, must_be_live};

use crate::instrs::{reads_slot, writes_slot};
use std::marker::Model;
use tc_code::Instr;

/// For each slot, whether it is live.
#[derive(Debug, Drop)]
pub struct Row {
    pub slots: Vec<bool>,
}

impl Model for Row {
    ghost use Rattle.std.specs.Prelude.{List, Bool};

    ghost Value = { List Bool };

    ghost view = { λ r. r.slots.items };
}

impl Row {
    /// Whether a slot is live; one that the row doesn't have is.
    pub fn is_live(&self, slot: usize) -> bool
        ensures { result ≡ slice_index_or self.now slot true }
    {
        match self.slots.get(slot) {
            Some(live) => *live,
            None => true,
        }
    }
}

/// For each place and slot of a function, whether the slot is live there.
#[derive(Debug, Drop)]
pub struct Table {
    pub rows: Vec<Row>,
}

impl Model for Table {
    ghost use Rattle.slot_liveness.specs.Tables.{Table as PlainTable};

    ghost Value = { PlainTable };

    ghost view = { λ t. t.rows.items };
}

impl Table {
    /// Whether a slot is live at a place.
    pub fn is_live(&self, place: usize, slot: usize) -> bool
        ensures { result ≡ is_live_in self.now place slot }
    {
        match self.rows.get(place) {
            Some(row) => row.is_live(slot),
            None => false,
        }
    }

    /// Whether a slot is live at a place that the instruction at this one may lead to.
    fn is_live_after(&self, instr: &Instr, place: usize, slot: usize) -> bool
        requires room { place + 1 < 2 ^ 64 }
        ensures { result ≡ is_live_after self.now instr.now place slot }
    {
        match instr {
            Instr::Branch { target, .. } => {
                self.is_live(place + 1, slot) || self.is_live(*target as usize, slot)
            }
            Instr::Goto { target } => self.is_live(*target as usize, slot),
            _ => self.is_live(place + 1, slot),
        }
    }

    /// Whether a slot must be live at a place, by its instruction and what is live after it.
    fn must_be_live(&self, instr: &Instr, place: usize, slot: usize) -> bool
        requires room { place + 1 < 2 ^ 64 }
        ensures { result ≡ must_be_live self.now instr.now place slot }
    {
        reads_slot(instr, slot)
            || (self.is_live_after(instr, place, slot) && !writes_slot(instr, slot))
    }

    /// Whether a slot is live at a place, unless it needn't be.
    pub fn is_kept(&self, instr: &Instr, place: usize, slot: usize) -> bool
        requires room { place + 1 < 2 ^ 64 }
        ensures { result ≡ (is_live_in self.now place slot || not (must_be_live self.now instr.now place slot)) }
    {
        self.is_live(place, slot) || !self.must_be_live(instr, place, slot)
    }

    /// Makes a slot live at a place.
    pub fn make_live(&mut self, place: usize, slot: usize) {
        if let Some(row) = self.rows.get_mut(place) {
            if let Some(live) = row.slots.get_mut(slot) {
                *live = true;
            }
        }
    }
}
