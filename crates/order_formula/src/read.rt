//! The values that loads take.
ghost use Rattle.std.specs.Prelude.{◌≡◌};

use std::marker::Model;
use sym_terms::Id;

/// A write whose value a load may take.
#[derive(Clone, Copy, Debug)]
pub struct Candidate {
    /// The event of the write.
    pub event: u32,
    /// Whether the write is earlier on the load's own path, so that the load sees it regardless of
    /// the order. A load sees other writes only if they come before it in the order.
    pub earlier: bool,
    /// The term that is nonzero exactly when the write is to the load's cell. None if it always is.
    pub same_cell: Option<Id>,
    /// The term of the value that is written.
    pub value: Id,
}

/// The condition that a load takes the value of the last write to its cell that it sees, or the
/// cell's initial value if it sees none.
#[derive(Debug, Drop)]
pub struct Read {
    event: u32,
    takes: Id,
    start: Id,
    candidates: Vec<Candidate>,
}

impl Model for Read {
    ghost use Rattle.order_formula.specs.Reads.{Read as PlainRead};

    ghost Value = { PlainRead };

    ghost view = { λ r. record { event = r.event; takes = r.takes; start = r.start; candidates = r.candidates.items } };
}

impl Read {
    /// The condition on a load: its event, the terms of the value that it takes and of its cell's
    /// initial value, and the writes that may be to its cell.
    pub fn new(event: u32, takes: Id, start: Id, candidates: Vec<Candidate>) -> Read
        ensures { result ≡ record { event = event; takes = takes; start = start; candidates = candidates.items } }
    {
        Read {
            event,
            takes,
            start,
            candidates,
        }
    }

    /// The event of the load.
    pub fn event(&self) -> u32
        ensures { result ≡ self.now.event }
    {
        self.event
    }

    /// The term of the value that it takes.
    pub fn takes(&self) -> Id
        ensures { result ≡ self.now.takes }
    {
        self.takes
    }

    /// The term of its cell's initial value.
    pub fn start(&self) -> Id
        ensures { result ≡ self.now.start }
    {
        self.start
    }

    /// The writes that may be to its cell.
    pub fn candidates(&self) -> &[Candidate]
        ensures { result.now ≡ self.now.candidates }
    {
        self.candidates.as_slice()
    }
}
