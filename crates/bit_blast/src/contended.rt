//! The events whose order is contended.
ghost use Rattle.std.specs.Prelude.{◌≡◌, if◌then◌else◌, fold, IfOk, OnOk};
ghost use Rattle.bit_blast.specs.Contended.{contended, is_literal, with_atom, with_body, with_case, with_candidate, with_event};

use indexmap::IndexSet;
use order_formula::{Atom, Body, Case, Formula, Literal, Read};
use std::alloc::{AllocError, Global};

/// The events of loads, of the writes that they may take, and of conjuncts of several literals.
pub(crate) fn contended(alloc: Global, formula: &Formula) -> Result<IndexSet<u32>, AllocError>
    ensures { IfOk result (λ events. events.keys ≡ contended formula.now) }
{
    let mut events = IndexSet::new(alloc);
    for conjunct in formula.conjuncts() {
        add_body(&mut events, &conjunct.body)?;
    }
    Ok(events)
}

/// Adds the events of a conjunct.
fn add_body(events: &mut IndexSet<u32>, body: &Body) -> Result<(), AllocError>
    ensures { OnOk result (events.new.keys ≡ with_body events.old.keys body.now) }
{
    match body {
        Body::Any(cases) => add_cases(events, cases.as_slice()),
        Body::Read(read) => add_read(events, read),
    }
}

/// Adds the events of a conjunct with cases, unless it is a single literal.
fn add_cases(events: &mut IndexSet<u32>, cases: &[Case]) -> Result<(), AllocError>
    ensures { OnOk result (events.new.keys ≡ (if is_literal cases.now then events.old.keys else fold with_case events.old.keys cases.now)) }
{
    if is_literal(cases) {
        return Ok(());
    }
    for case in cases {
        add_case(events, case.literals())?;
    }
    Ok(())
}

/// Whether the cases are a single literal.
fn is_literal(cases: &[Case]) -> bool
    ensures { result ≡ is_literal cases.now }
{
    cases.len() == 1 && cases.iter().all(|case| case.literals().len() == 1)
}

/// Adds the events of a case.
fn add_case(events: &mut IndexSet<u32>, literals: &[Literal]) -> Result<(), AllocError>
    ensures { OnOk result (events.new.keys ≡ with_case events.old.keys literals.now) }
{
    for literal in literals {
        add_atom(events, literal.atom)?;
    }
    Ok(())
}

/// Adds the events of an atom.
fn add_atom(events: &mut IndexSet<u32>, atom: Atom) -> Result<(), AllocError>
    ensures { OnOk result (events.new.keys ≡ with_atom events.old.keys atom) }
{
    if let Atom::Before { first, second } = atom {
        events.insert(first)?;
        events.insert(second)?;
    }
    Ok(())
}

/// Adds the events of a load and of the writes that it may take.
fn add_read(events: &mut IndexSet<u32>, read: &Read) -> Result<(), AllocError>
    ensures { OnOk result (events.new.keys ≡ fold with_candidate (with_event events.old.keys read.now.event) read.now.candidates) }
{
    events.insert(read.event())?;
    for candidate in read.candidates() {
        events.insert(candidate.event)?;
    }
    Ok(())
}
