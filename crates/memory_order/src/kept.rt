//! Which events of a thread a memory model keeps before later ones.
ghost use Rattle.std.specs.Prelude.{◌≡◌, List, length, ◌==◌, ◌&&◌, fold, option_copied, option_map, option_and_then, IfOk, OnOk};
ghost use Rattle.std.specs.List.{find, list_any};
ghost use Rattle.sym_terms.specs.Terms.{with_node, id_of};
ghost use Rattle.sym_terms.specs.declared.node.Node.{Node};
ghost use Rattle.sym_exec.specs.Making.{Grows};
ghost use Rattle.order_cells.specs.lawful_order.Memory as memory;
ghost use Rattle.order_cells.specs.Same as cells;
ghost use Rattle.order_cells.specs.Terms.{HaveTerms};
ghost use Rattle.memory_order.specs.Own as spec;
ghost use Rattle.memory_order.specs.helpers.Twos.{plain};

use order_cells::{known_same, same_test};
use path_walk::{Event, EventKind};
use std::alloc::AllocError;
use store_buffers::MemoryModel;
use sym_exec::{Access, Cell, Symbolic};
use sym_terms::{Id, Terms};

/// Whether an event is a plain store, not an exchange.
fn is_store(kind: EventKind) -> bool
    ensures { result ≡ memory.is_store kind }
{
    matches!(kind, EventKind::Store)
}

/// Whether a thread may do an event while its own stores are pending.
fn may_overtake(kind: EventKind) -> bool
    ensures { result ≡ memory.may_overtake kind }
{
    matches!(kind, EventKind::Load | EventKind::Store | EventKind::Fail)
}

/// Whether an event is a failure, which ends the run.
pub(crate) fn is_failing(kind: EventKind) -> bool
    ensures { result ≡ spec.is_failing kind }
{
    matches!(kind, EventKind::Fail)
}

/// Whether an event has the position of its step; a store in a buffer has that of its drain.
pub(crate) fn is_settled<M: MemoryModel>(kind: EventKind) -> bool
    ensures { result ≡ spec.is_settled M.BUFFERED kind }
{
    !(M::BUFFERED && is_store(kind))
}

/// Whether the first event stays before the second, given whether both are to the same cell.
fn keeps<M: MemoryModel>(same_cell: bool, first: &Event, second: &Event) -> bool
    ensures { result ≡ spec.keeps M.BUFFERED M.bound same_cell first.now second.now }
{
    is_settled::<M>(first.kind)
        || !may_overtake(second.kind)
        || is_store(second.kind) && M::bound(same_cell, first.bars != second.bars)
}

/// The access of a step, if there is one.
fn access_at(accesses: &[Access], step: usize) -> Option<&Access>
    ensures { option_copied result ≡ find (λ a. a.step == step) accesses.now }
{
    accesses.iter().find(|access| access.step == step)
}

/// Two events of a thread, with the events between them.
#[derive(Clone, Copy, Debug)]
pub(crate) struct Two<'a> {
    /// The earlier event.
    pub(crate) first: &'a Event,
    /// The events between them.
    pub(crate) between: &'a [Event],
    /// The later event.
    pub(crate) second: &'a Event,
}

/// A thread of the paths, with the result of executing them.
#[derive(Clone, Copy, Debug)]
pub(crate) struct Thread<'a> {
    /// The result of executing all threads.
    pub(crate) symbolic: &'a Symbolic,
    /// The thread's index.
    pub(crate) number: usize,
}

impl Thread<'_> {
    /// The cell of the thread's step, if it has one.
    fn cell_of(&self, step: usize) -> Option<Cell>
        ensures { result ≡ memory.cell_of self.now.symbolic.now self.now.number step }
    {
        let course = self.symbolic.threads().get(self.number)?;
        Some(access_at(course.accesses(), step)?.cell)
    }

    /// The cells of two of the thread's events, if both have one.
    fn cells_of(&self, first: &Event, second: &Event) -> Option<(Cell, Cell)>
        ensures { result ≡ spec.cells_of self.now.symbolic.now self.now.number first.now second.now }
    {
        let one = self.cell_of(first.step)?;
        Some((one, self.cell_of(second.step)?))
    }

    /// Whether the cells of two events are the same, if known.
    fn known_same(&self, terms: &Terms, first: &Event, second: &Event) -> Option<bool>
        ensures { result ≡ option_and_then (λ c. cells.known_same terms.now c.0 c.1)
            (spec.cells_of self.now.symbolic.now self.now.number first.now second.now) }
    {
        let (one, other) = self.cells_of(first, second)?;
        known_same(terms, one, other)
    }

    /// Whether the first event stays before the second, whatever the indexes of their cells are.
    fn is_always_kept<M: MemoryModel>(&self, terms: &Terms, first: &Event, second: &Event) -> bool
        ensures { result ≡ spec.is_always_kept M.BUFFERED M.bound self.now.symbolic.now terms.now self.now.number first.now second.now }
    {
        let same_cell = self.known_same(terms, first, second).unwrap_or(false);
        keeps::<M>(same_cell, first, second)
    }

    /// Whether the first event always stays before the second, and no event between them implies
    /// it.
    pub(crate) fn is_kept_next<M: MemoryModel>(&self, terms: &Terms, two: &Two) -> bool
        ensures { result ≡ spec.is_kept_next M.BUFFERED M.bound self.now.symbolic.now terms.now self.now.number (plain two.now) }
    {
        self.is_always_kept::<M>(terms, two.first, two.second)
            && !self.goes_through::<M>(terms, two)
    }

    /// Whether an event between two always stays after the first and before the second.
    fn goes_through<M: MemoryModel>(&self, terms: &Terms, two: &Two) -> bool
        ensures { result ≡ list_any (λ z. spec.is_always_kept M.BUFFERED M.bound self.now.symbolic.now terms.now self.now.number two.now.first.now z
            && spec.is_always_kept M.BUFFERED M.bound self.now.symbolic.now terms.now self.now.number z two.now.second.now) two.now.between.now }
    {
        for event in two.between {
            if self.is_always_kept::<M>(terms, two.first, event)
                && self.is_always_kept::<M>(terms, event, two.second)
            {
                return true;
            }
        }
        false
    }

    /// The test that two indexes are equal, if the first event stays before the second only then.
    pub(crate) fn kept_test<M: MemoryModel>(
        &self,
        terms: &mut Terms,
        two: &Two,
    ) -> Result<Option<Id>, AllocError>
        requires { HaveTerms terms.old self.now.symbolic.now }
        ensures test { IfOk result (λ test. (later : List Node) → Grows terms.new later → test
            ≡ option_map (id_of later) (spec.kept_test M.BUFFERED M.bound self.now.symbolic.now later self.now.number (plain two.now))) }
        ensures added { OnOk result ((before : List Node) → HaveTerms before self.now.symbolic.now → Grows before terms.old → terms.new
            ≡ fold with_node terms.old (spec.two_tests M.BUFFERED M.bound self.now.symbolic.now before self.now.number (plain two.now))) }
        ensures grown { Grows terms.old terms.new }
    {
        if !keeps::<M>(true, two.first, two.second) || keeps::<M>(false, two.first, two.second) {
            return Ok(None);
        }
        match self.cells_of(two.first, two.second) {
            Some((one, other)) => same_test(terms, one, other),
            None => Ok(None),
        }
    }
}
