//! One queue of stores.
ghost use Rattle.std.specs.Prelude.{◌≡◌, ◌∷◌, [], ◌++◌, drop, slice_index_or, OnOk, OnErr, IfOk, IfSome, IfNone, is_some, not, option_map};
ghost use Rattle.store_buffers.specs.Buffers.{newest, no_entry};
ghost use Rattle.list_laws.specs.Lists.{is_nil};

use crate::segment::Segment;
use std::alloc::{AllocError, Global};
use std::collections::VecDeque;
use std::marker::Model;

/// A store on its way to memory.
#[derive(Clone, Copy, Debug)]
pub(crate) struct Store {
    pub(crate) cell: u32,
    pub(crate) value: i32,
}

/// The stores of a thread on their way to memory, oldest first.
///
/// They are also grouped by cell, so that the newest to a cell is found without a search.
#[derive(Debug, Drop)]
pub struct Queue {
    stores: VecDeque<Store>,
    by_cell: Segment,
}

impl Model for Queue {
    ghost use Rattle.std.specs.Prelude.{◌≡◌, List, map};
    ghost use Rattle.tc_base.specs.Buffers.{Entry};
    ghost use Rattle.store_buffers.specs.helpers.Seen.{entry_of, stores_by_cell, coded_entries};

    ghost Value = { List Entry };

    ghost coded = { coded_entries };

    ghost view = { λ a. map entry_of a.stores.items };

    ghost invariant = { λ a. a.by_cell ≡ stores_by_cell (map entry_of a.stores.items) };
}

impl Queue {
    /// A queue with no store.
    pub(crate) fn new(alloc: Global) -> Queue
        ensures { result ≡ [] }
    {
        Queue {
            stores: VecDeque::new(alloc),
            by_cell: Segment::new(alloc),
        }
    }

    /// Adds a store at the end.
    pub(crate) fn push(&mut self, cell: u32, value: i32) -> Result<(), AllocError>
        ensures ok { OnOk result (self.new ≡ self.old ++ record { cell = cell; value = value } ∷ []) }
        ensures err { OnErr result (self.new ≡ self.old) }
    {
        let alloc = *self.stores.allocator();
        self.stores.push_back(Store { cell, value })?;
        if let Err(refused) = self.by_cell.push(alloc, cell, value) {
            self.stores.pop_back();
            return Err(refused);
        }
        Ok(())
    }

    /// The value of the newest store to a cell.
    pub(crate) fn newest(&self, cell: u32) -> Option<i32>
        ensures { result ≡ newest self.now cell }
    {
        self.by_cell.last(cell)
    }

    pub(crate) fn is_empty(&self) -> bool
        ensures { result ≡ is_nil self.now }
    {
        self.stores.is_empty()
    }

    /// Takes out the oldest store.
    pub(crate) fn pop(&mut self) -> Option<(u32, i32)>
        ensures cell { IfSome result (λ s. s.0 ≡ (slice_index_or self.old 0 no_entry).cell) }
        ensures value { IfSome result (λ s. s.1 ≡ (slice_index_or self.old 0 no_entry).value) }
        ensures there { is_some result ≡ not (is_nil self.old) }
        ensures none { IfNone result (self.new ≡ self.old) }
        ensures rest { self.new ≡ drop 1 self.old }
    {
        let store = self.stores.pop_front()?;
        self.by_cell.pop(store.cell);
        Some((store.cell, store.value))
    }
}
