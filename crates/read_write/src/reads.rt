//! The values that loads take.
ghost use Rattle.std.specs.Prelude.{◌≡◌, ◌≤◌, [], List, fold, length, IfOk, OnOk, option_map, slice_get};
ghost use Rattle.std.specs.List.{All, filter_map, flat_map};
ghost use Rattle.std.specs.Option.{option_map_or, option_to_list};
ghost use Rattle.tc_code.specs.tc_limits.declared.limits.TheConstants.{EVENTS};
ghost use Rattle.sym_terms.specs.Terms.{with_node};
ghost use Rattle.sym_terms.specs.declared.node.Node.{Node};
ghost use Rattle.sym_exec.specs.Making.{Grows};
ghost use Rattle.order_formula.specs.Orders as orders;
ghost use Rattle.order_cells.specs.lawful_order.Cells as cells;
ghost use Rattle.order_cells.specs.lawful_order.Events.{all_events};
ghost use Rattle.order_cells.specs.lawful_order.Whole.{IsExecutedBy};
ghost use Rattle.order_cells.specs.Terms.{AccessIsOf, HaveTerms};
ghost use Rattle.read_write.specs.Reading as spec;

use crate::accesses::{all_accesses, is_earlier, is_one};
use order_cells::{known_same, same_test};
use order_events::{Events, Placed, formula_of};
use order_formula::{Body, Candidate, Conjunct, Formula, Group, Order, Read};
use path_walk::Paths;
use std::alloc::{AllocError, Global};
use sym_exec::{Access, Cell, Symbolic};
use sym_terms::Terms;
use tc_code::Code;

/// A conjunct for each load: it takes the value of the last write to its cell that it sees, or the
/// cell's initial value if it sees none.
///
/// Adds the terms that the conjuncts need. If out of memory, the terms and the questions of the
/// order may have grown.
pub fn read_constraints(
    alloc: Global,
    code: &Code,
    paths: &Paths,
    symbolic: &Symbolic,
    terms: &mut Terms,
    order: &mut Order,
) -> Result<Formula, AllocError>
    requires few { length (all_events paths.now) ≤ EVENTS }
    requires executed { IsExecutedBy paths.now symbolic.now }
    requires terms { HaveTerms terms.old symbolic.now }
    requires events { order.old.events ≡ length (all_events paths.now) }
    ensures formula { IfOk result (λ formula. formula ≡ spec.read_formula code.now paths.now symbolic.now terms.new) }
    ensures made { OnOk result (terms.new ≡ fold with_node terms.old (spec.read_needs code.now symbolic.now terms.old)) }
    ensures asked { OnOk result (order.new ≡ orders.with_formula order.old (spec.read_formula code.now paths.now symbolic.now terms.new)) }
    ensures terms_grow { Grows terms.old terms.new }
    ensures order_grows { orders.Grows order.old order.new }
{
    let events = Events::of(alloc, paths)?;
    let accesses = all_accesses(alloc, symbolic)?;
    let conjuncts = conjuncts(alloc, code, &events, &accesses, terms)?;
    formula_of(alloc, conjuncts, order)
}

/// The conjuncts of all loads among the accesses.
fn conjuncts(
    alloc: Global,
    code: &Code,
    events: &Events,
    accesses: &[Placed<Access>],
    terms: &mut Terms,
) -> Result<Vec<Conjunct>, AllocError>
    requires { All (λ a. AccessIsOf (length terms.old) a.it) accesses.now }
    ensures conjuncts { (later : List Node) → Grows terms.new later → IfOk result (λ conjuncts. conjuncts.items
        ≡ filter_map (λ a. option_map (spec.conjunct_of code.now events.now accesses.now later a) a.it.takes) accesses.now) }
    ensures made { OnOk result (terms.new
        ≡ fold with_node terms.old (flat_map (λ a. option_map_or (spec.needs_of code.now accesses.now terms.old a) a.it.takes []) accesses.now)) }
    ensures grown { Grows terms.old terms.new }
{
    let mut conjuncts = Vec::new(alloc);
    for load in accesses {
        if let Some(number) = load.it.takes {
            conjuncts.push(conjunct(alloc, code, events, accesses, load, number, terms)?)?;
        }
    }
    Ok(conjuncts)
}

/// The conjunct about the load `number`.
fn conjunct(
    alloc: Global,
    code: &Code,
    events: &Events,
    accesses: &[Placed<Access>],
    load: &Placed<Access>,
    number: u32,
    terms: &mut Terms,
) -> Result<Conjunct, AllocError>
    requires load { AccessIsOf (length terms.old) load.now.it }
    requires accesses { All (λ a. AccessIsOf (length terms.old) a.it) accesses.now }
    ensures conjunct { (later : List Node) → Grows terms.new later
        → IfOk result (λ conjunct. conjunct ≡ spec.conjunct_of code.now events.now accesses.now later load.now number) }
    ensures made { OnOk result (terms.new ≡ fold with_node terms.old (spec.needs_of code.now accesses.now terms.old load.now number)) }
    ensures grown { Grows terms.old terms.new }
{
    let event = events.number(load.thread, load.it.step);
    let takes = terms.symbol(number)?;
    let start = terms.constant(value_at_start(code, load.it.cell))?;
    let candidates = candidates(alloc, events, accesses, load, terms)?;
    Ok(Conjunct {
        group: Group::Read {
            thread: load.thread,
            line: line_of(events, event),
        },
        body: Body::Read(Read::new(event, takes, start, candidates)),
    })
}

/// The accesses that are writes whose value a load may take.
fn candidates(
    alloc: Global,
    events: &Events,
    accesses: &[Placed<Access>],
    load: &Placed<Access>,
    terms: &mut Terms,
) -> Result<Vec<Candidate>, AllocError>
    requires load { AccessIsOf (length terms.old) load.now.it }
    requires accesses { All (λ a. AccessIsOf (length terms.old) a.it) accesses.now }
    ensures candidates { (later : List Node) → Grows terms.new later
        → IfOk result (λ candidates. candidates.items ≡ filter_map (spec.candidate_of events.now later load.now) accesses.now) }
    ensures made { OnOk result (terms.new ≡ fold with_node terms.old (filter_map (spec.test_of terms.old load.now) accesses.now)) }
    ensures grown { Grows terms.old terms.new }
{
    let mut candidates = Vec::new(alloc);
    for access in accesses {
        if let Some(candidate) = candidate(events, load, access, terms)? {
            candidates.push(candidate)?;
        }
    }
    Ok(candidates)
}

/// An access as a candidate, if it is a write whose value the load may take.
fn candidate(
    events: &Events,
    load: &Placed<Access>,
    other: &Placed<Access>,
    terms: &mut Terms,
) -> Result<Option<Candidate>, AllocError>
    requires load { AccessIsOf (length terms.old) load.now.it }
    requires other { AccessIsOf (length terms.old) other.now.it }
    ensures candidate { (later : List Node) → Grows terms.new later
        → IfOk result (λ candidate. candidate ≡ spec.candidate_of events.now later load.now other.now) }
    ensures made { OnOk result (terms.new ≡ fold with_node terms.old (option_to_list (spec.test_of terms.old load.now other.now))) }
    ensures grown { Grows terms.old terms.new }
{
    let Some(value) = other.it.writes else {
        return Ok(None);
    };
    if !may_be_seen(terms, load, other) {
        return Ok(None);
    }
    let same_cell = same_test(terms, other.it.cell, load.it.cell)?;
    Ok(Some(Candidate {
        event: events.number(other.thread, other.it.step),
        earlier: is_earlier(other, load),
        same_cell,
        value,
    }))
}

/// Whether an access isn't the load itself, nor known to be to another cell.
fn may_be_seen(terms: &Terms, load: &Placed<Access>, other: &Placed<Access>) -> bool
    ensures { result ≡ spec.may_be_seen terms.now load.now other.now }
{
    !is_one(other, load) && known_same(terms, other.it.cell, load.it.cell).unwrap_or(true)
}

/// The line of the event `number`, or 0 if there is none.
fn line_of(events: &Events, number: u32) -> u32
    ensures { result ≡ option_map_or (λ e. e.it.line) (slice_get events.now number) 0 }
{
    match events.all().get(number as usize) {
        Some(placed) => placed.it.line,
        None => 0,
    }
}

/// The initial value of a cell. Elements of arrays are initially 0.
pub fn value_at_start(code: &Code, cell: Cell) -> i32
    ensures { result ≡ cells.value_at_start code.now cell }
{
    match cell {
        Cell::Fixed(number) => code.memory().get(number as usize).copied().unwrap_or(0),
        Cell::Element { .. } => 0,
    }
}
