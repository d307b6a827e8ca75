//! Stores with no bar between them.
ghost use Rattle.std.specs.Prelude.{◌≡◌, ◌∷◌, [], ◌++◌, drop, slice_get, not, IfOk, OnOk, OnErr, None, true, false};
ghost use Rattle.std.specs.FinMap as fin;
ghost use Rattle.std.specs.List.{last_or};
ghost use Rattle.list_laws.specs.Lists.{is_nil};
ghost use Rattle.store_buffers.specs.Buffers.{values_to, with_values, has_no_store, cell_buffer};
ghost use Rattle.store_buffers.specs.Laws.{AreForms};

use crate::values::Values;
use std::alloc::{AllocError, Global};
use std::collections::BTreeMap;
use std::marker::Model;

/// For each cell that has any, the values on their way to it.
#[derive(Debug, Drop)]
pub(crate) struct Segment {
    by_cell: BTreeMap<u32, Values>,
}

impl Model for Segment {
    ghost use Rattle.std.specs.Prelude.{List, ℤ};
    ghost use Rattle.std.specs.FinMap as fin;
    ghost use Rattle.std.specs.Ordering.{nat_cmp};
    ghost use Rattle.std.specs.Coded.{coded_ℕ, coded_ℤ, coded_list};
    ghost use Rattle.std.specs.BTreeMap.{IsOrdered};
    ghost use Rattle.store_buffers.specs.helpers.Segments.{IsTidy};

    ghost Value = { fin.FinMap nat_cmp (List ℤ) };

    ghost coded = { fin.code coded_ℕ (coded_list coded_ℤ) };

    ghost view = { λ a. fin.from_entries a.by_cell.entries };

    ghost invariant = { λ a. IsTidy (fin.from_entries a.by_cell.entries) × IsOrdered nat_cmp a.by_cell };
}

impl Segment {
    /// No store.
    pub(crate) fn new(alloc: Global) -> Segment
        ensures { result ≡ fin.empty }
    {
        Segment {
            by_cell: BTreeMap::new(alloc),
        }
    }

    pub(crate) fn is_empty(&self) -> bool
        ensures { result ≡ has_no_store self.now }
    {
        self.by_cell.is_empty()
    }

    /// Whether there is a store to a cell.
    pub(crate) fn has(&self, cell: u32) -> bool
        ensures { result ≡ not (is_nil (values_to self.now cell)) }
    {
        self.by_cell.contains_key(&cell)
    }

    /// The newest value to a cell.
    pub(crate) fn last(&self, cell: u32) -> Option<i32>
        ensures { result ≡ last_or None (values_to self.now cell) }
    {
        match self.by_cell.get(&cell) {
            Some(values) => values.last(),
            None => None,
        }
    }

    /// The cells that have a store, in order, as the forms of their drains.
    pub(crate) fn forms(&self, alloc: Global) -> Result<Vec<Option<u32>>, AllocError>
        ensures { IfOk result (λ forms. AreForms cell_buffer (self.now ∷ []) forms.items) }
    {
        let mut forms = Vec::new(alloc);
        for cell in self.by_cell.keys() {
            forms.push(Some(*cell))?;
        }
        Ok(forms)
    }

    /// Adds a store at the end of its cell's queue.
    pub(crate) fn push(&mut self, alloc: Global, cell: u32, value: i32) -> Result<(), AllocError>
        ensures ok { OnOk result (self.new ≡ with_values self.old cell (values_to self.old cell ++ value ∷ [])) }
        ensures err { OnErr result (self.new ≡ self.old) }
    {
        if self.has(cell) {
            return self.grow(cell, value);
        }
        self.add(cell, Values::of_one(alloc, value)?)
    }

    /// Adds a value to a cell that has some.
    fn grow(&mut self, cell: u32, value: i32) -> Result<(), AllocError>
        requires { is_nil (values_to self.old cell) ≡ false }
        ensures ok { OnOk result (self.new ≡ with_values self.old cell (values_to self.old cell ++ value ∷ [])) }
        ensures err { OnErr result (self.new ≡ self.old) }
    {
        match self.by_cell.get_mut(&cell) {
            Some(values) => values.push(value),
            None => Ok(()),
        }
    }

    /// Adds the first values to a cell.
    fn add(&mut self, cell: u32, values: Values) -> Result<(), AllocError>
        requires { is_nil values ≡ false }
        ensures ok { OnOk result (self.new ≡ with_values self.old cell values) }
        ensures err { OnErr result (self.new ≡ self.old) }
    {
        self.by_cell.insert(cell, values)?;
        Ok(())
    }

    /// Takes out the oldest value to a cell, if there is one.
    pub(crate) fn pop(&mut self, cell: u32) -> Option<i32>
        ensures first { result ≡ slice_get (values_to self.old cell) 0 }
        ensures rest { self.new ≡ with_values self.old cell (drop 1 (values_to self.old cell)) }
    {
        if self.has_more(cell) {
            self.pop_one(cell)
        } else {
            self.pop_last(cell)
        }
    }

    /// Whether there is more than one value to a cell.
    fn has_more(&self, cell: u32) -> bool
        ensures { result ≡ not (is_nil (drop 1 (values_to self.now cell))) }
    {
        match self.by_cell.get(&cell) {
            Some(values) => values.has_more(),
            None => false,
        }
    }

    /// Takes out the oldest of several values to a cell.
    fn pop_one(&mut self, cell: u32) -> Option<i32>
        requires { is_nil (drop 1 (values_to self.old cell)) ≡ false }
        ensures first { result ≡ slice_get (values_to self.old cell) 0 }
        ensures rest { self.new ≡ with_values self.old cell (drop 1 (values_to self.old cell)) }
    {
        match self.by_cell.get_mut(&cell) {
            Some(values) => values.pop(),
            None => None,
        }
    }

    /// Takes out the only value to a cell, and its queue.
    fn pop_last(&mut self, cell: u32) -> Option<i32>
        requires { is_nil (drop 1 (values_to self.old cell)) ≡ true }
        ensures first { result ≡ slice_get (values_to self.old cell) 0 }
        ensures rest { self.new ≡ with_values self.old cell (drop 1 (values_to self.old cell)) }
    {
        match self.by_cell.remove(&cell) {
            Some(mut values) => values.pop(),
            None => None,
        }
    }
}
