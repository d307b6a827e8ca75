//! Segments, separated by bars.
ghost use Rattle.std.specs.Prelude.{◌≡◌, ℕ, ◌∷◌, [], ◌++◌, ◌+◌, ◌<◌, ◌^◌, length, slice_get, not, false, OnOk, OnErr, IfOk};
ghost use Rattle.std.specs.VecDeque.{deque_len};
ghost use Rattle.std.specs.FinMap as fin;
ghost use Rattle.std.specs.List.{list_all};
ghost use Rattle.list_laws.specs.Lists.{is_nil};
ghost use Rattle.store_buffers.specs.Buffers.{has_no_store, issue_last, last_value, first_values, values_to, drop_first, cell_buffer};
ghost use Rattle.store_buffers.specs.Laws.{AreForms};
ghost use Rattle.store_buffers.specs.helpers.Seen.{begins_empty, after_empty, values_in_first, drop_in_first};

use crate::segment::Segment;
use std::alloc::{AllocError, Global};
use std::collections::VecDeque;
use std::marker::Model;
use std::mem;

/// The stores of a thread on their way to memory, with their bars.
///
/// Bars before the oldest store are only counted, so they take no memory.
#[derive(Debug, Drop)]
pub struct Segments {
    skipped: u64,
    older: VecDeque<Segment>,
    last: Segment,
}

impl Model for Segments {
    ghost use Rattle.std.specs.Prelude.{◌≡◌, List, ℤ, false, ◌++◌, ◌∷◌, [], ◌+◌, ◌<◌, ◌^◌, length};
    ghost use Rattle.std.specs.FinMap as fin;
    ghost use Rattle.std.specs.Ordering.{nat_cmp};
    ghost use Rattle.std.specs.Coded.{coded_ℕ, coded_ℤ, coded_list};
    ghost use Rattle.store_buffers.specs.helpers.Seen.{begins_empty, after_empty};

    ghost Value = { List (fin.FinMap nat_cmp (List ℤ)) };

    ghost coded = { coded_list (fin.code coded_ℕ (coded_list coded_ℤ)) };

    ghost view = { λ a. after_empty a.skipped (a.older.items ++ a.last ∷ []) };

    ghost invariant = { λ a. (begins_empty a.older.items ≡ false) × (a.skipped + length a.older.items < 2 ^ 64) };
}

impl Segments {
    /// One segment with no store.
    pub(crate) fn new(alloc: Global) -> Segments
        ensures { result ≡ fin.empty ∷ [] }
    {
        Segments {
            skipped: 0,
            older: VecDeque::new(alloc),
            last: Segment::new(alloc),
        }
    }

    /// Adds a store to the last segment.
    pub(crate) fn issue(&mut self, cell: u32, value: i32) -> Result<(), AllocError>
        ensures ok { OnOk result (self.new ≡ issue_last self.old cell value) }
        ensures err { OnErr result (self.new ≡ self.old) }
    {
        let alloc = *self.older.allocator();
        self.last.push(alloc, cell, value)
    }

    /// Adds a bar at the end.
    pub(crate) fn bar(&mut self) -> Result<(), AllocError>
        ensures ok { OnOk result (self.new ≡ self.old ++ fin.empty ∷ []) }
        ensures err { OnErr result (self.new ≡ self.old) }
    {
        if self.skipped + self.older.len() as u64 == u64::MAX {
            return Err(AllocError);
        }
        if self.is_empty() {
            self.skipped += 1;
            return Ok(());
        }
        self.begin_segment()
    }

    /// Adds an empty segment at the end.
    fn begin_segment(&mut self) -> Result<(), AllocError>
        requires some { list_all has_no_store self.old ≡ false }
        requires room { length self.old < 2 ^ 64 }
        ensures ok { OnOk result (self.new ≡ self.old ++ fin.empty ∷ []) }
        ensures err { OnErr result (self.new ≡ self.old) }
    {
        self.older.reserve(1)?;
        let next = Segment::new(*self.older.allocator());
        self.older
            .push_back_reserved(mem::replace(&mut self.last, next));
        Ok(())
    }

    /// The last value to a cell.
    pub(crate) fn forward(&self, cell: u32) -> Option<i32>
        ensures { result ≡ last_value self.now cell }
    {
        let newest = self.last.last(cell);
        if newest.is_some() {
            return newest;
        }
        last_of(&self.older, cell)
    }

    pub(crate) fn is_empty(&self) -> bool
        ensures { result ≡ list_all has_no_store self.now }
    {
        self.older.is_empty() && self.last.is_empty()
    }

    /// The first segment that isn't empty, or the last one if all are.
    fn front(&self) -> &Segment
        ensures { (c : ℕ) → first_values self.now c ≡ values_to result.now c }
    {
        match self.older.front() {
            Some(segment) => segment,
            None => &self.last,
        }
    }

    /// Whether a store to a cell is in the first segment that isn't empty.
    pub(crate) fn may_drain(&self, cell: u32) -> bool
        ensures { result ≡ not (is_nil (first_values self.now cell)) }
    {
        self.front().has(cell)
    }

    /// The cells of the first segment that isn't empty, in order, as the forms of their drains.
    pub(crate) fn forms(&self, alloc: Global) -> Result<Vec<Option<u32>>, AllocError>
        ensures { IfOk result (λ forms. AreForms cell_buffer self.now forms.items) }
    {
        self.front().forms(alloc)
    }

    /// Takes out the oldest value to a cell from the first segment that isn't empty.
    pub(crate) fn drain(&mut self, cell: u32) -> Option<i32>
        requires { is_nil (first_values self.old cell) ≡ false }
        ensures value { result ≡ slice_get (first_values self.old cell) 0 }
        ensures rest { self.new ≡ drop_first self.old cell }
    {
        if self.older.is_empty() {
            return self.last.pop(cell);
        }
        let value = pop_first(&mut self.older, cell);
        skip_empty(&mut self.skipped, &mut self.older);
        value
    }
}

/// The last value to a cell in these segments.
fn last_of(segments: &VecDeque<Segment>, cell: u32) -> Option<i32>
    ensures { result ≡ last_value segments.now.items cell }
{
    let mut last = None;
    for segment in segments {
        let found = segment.last(cell);
        if found.is_some() {
            last = found;
        }
    }
    last
}

/// Takes out the oldest value to a cell from the first of these segments.
fn pop_first(segments: &mut VecDeque<Segment>, cell: u32) -> Option<i32>
    ensures value { result ≡ slice_get (values_in_first segments.old.items cell) 0 }
    ensures rest { segments.new.items ≡ drop_in_first segments.old.items cell }
    ensures len { deque_len segments.new ≡ deque_len segments.old }
{
    match segments.front_mut() {
        Some(first) => first.pop(cell),
        None => None,
    }
}

/// Counts the empty segments in front, and drops them.
fn skip_empty(skipped: &mut u64, segments: &mut VecDeque<Segment>)
    requires { skipped.old + deque_len segments.old < 2 ^ 64 }
    ensures same { after_empty skipped.new segments.new.items ≡ after_empty skipped.old segments.old.items }
    ensures begins { begins_empty segments.new.items ≡ false }
    ensures len { skipped.new + deque_len segments.new ≡ skipped.old + deque_len segments.old }
{
    while begins_empty(segments) {
        segments.pop_front();
        *skipped += 1;
    }
}

/// Whether the first of these segments has no store.
fn begins_empty(segments: &VecDeque<Segment>) -> bool
    ensures { result ≡ begins_empty segments.now.items }
{
    match segments.front() {
        Some(segment) => segment.is_empty(),
        None => false,
    }
}
