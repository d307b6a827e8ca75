//! The literals and words of a draft.
ghost use Rattle.std.specs.Prelude.{◌≡◌, false, get_or};
ghost use Rattle.std.specs.List.{position_or_len};
ghost use Rattle.order_events.specs.lawful_order.Events.{all_events, number_of};
ghost use Rattle.bit_gates.specs.Folded.{constant};
ghost use Rattle.bit_order.specs.Comparators.{before_literal};
ghost use Rattle.mutex_states.specs.InOrder as spec;

use bit_gates::constant;
use bit_ops::Word;
use bit_order::Layout;
use cnf_core::Lit;
use order_events::{Events, Placed};
use order_formula::{Body, Conjunct};
use path_walk::Paths;
use sym_exec::Access;

/// The literals and words of a draft, with the paths, the events and the conjuncts that they are
/// about.
#[derive(Clone, Copy)]
pub struct Literals<'a> {
    /// The paths.
    pub paths: &'a Paths,
    /// Their events.
    pub events: &'a Events,
    /// The conjuncts.
    pub conjuncts: &'a [Conjunct],
    /// The layout of the order and the loads.
    pub layout: &'a Layout,
    /// The word of each term.
    pub words: &'a [Word],
    /// The literal of each conjunct.
    pub roots: &'a [Lit],
}

impl Literals<'_> {
    /// The literal that a step of a thread comes before another.
    pub fn before(&self, thread: usize, step: usize, other: usize, later: usize) -> Lit
        requires { self.now.events.now ≡ all_events self.now.paths.now }
        ensures { result
            ≡ before_literal self.now.layout.now (number_of self.now.paths.now thread step) (number_of self.now.paths.now other later) }
    {
        let first = self.events.number(thread, step);
        let second = self.events.number(other, later);
        self.layout.before(first, second)
    }

    /// The literal of the conjunct at an index, or false past the last.
    pub fn root(&self, number: usize) -> Lit
        ensures { result ≡ get_or self.now.roots.now number (constant false) }
    {
        self.roots.get(number).copied().unwrap_or(constant(false))
    }

    /// The literal of the conjunct about an access's load.
    pub fn read(&self, access: &Placed<Access>) -> Lit
        requires { self.now.events.now ≡ all_events self.now.paths.now }
        ensures { result
            ≡ get_or self.now.roots.now (spec.read_number self.now.paths.now self.now.conjuncts.now access.now) (constant false) }
    {
        let event = self.events.number(access.thread, access.it.step);
        self.root(read_number(self.conjuncts, event))
    }
}

/// The index of the conjunct about an event's load, or the number of conjuncts if there is none.
fn read_number(conjuncts: &[Conjunct], event: u32) -> usize
    ensures { result ≡ position_or_len (λ c. spec.is_read_of event c.body) conjuncts.now }
{
    let mut number = 0;
    for conjunct in conjuncts {
        if is_read_of(event, &conjunct.body) {
            return number;
        }
        number += 1;
    }
    number
}

/// Whether a conjunct is about the load of an event.
fn is_read_of(event: u32, body: &Body) -> bool
    ensures { result ≡ spec.is_read_of event body.now }
{
    match body {
        Body::Any(_) => false,
        Body::Read(read) => read.event() == event,
    }
}
