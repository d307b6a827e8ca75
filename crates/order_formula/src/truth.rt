//! The truth of formulas in a world.
ghost use Rattle.std.specs.Prelude.{◌≡◌, length};
ghost use Rattle.std.specs.List.{All, list_any};
ghost use Rattle.std.specs.Option.{IfSome, option_map_or};
ghost use Rattle.order_formula.specs.Formulas.{AtomIsOf, BodyIsOf, CandidateIsOf, IsOf, LiteralIsOf, ReadIsOf};
ghost use Rattle.order_formula.specs.Truth.{Serves, atom_at, body_at, case_at, holds_at, is_read, later_of, read_at, source_at};

use crate::{Atom, Body, Candidate, Case, Formula, Literal, Read, World};
use sym_terms::{Id, Terms, Values, value};

/// Whether a formula is true in a world. Allocates nothing: the table, which has the world's values
/// of loads, has room for the values of all terms, and computes each of them once.
pub fn holds(terms: &Terms, formula: &Formula, world: &World, values: &mut Values) -> bool
    requires terms { IsOf (length terms.now) formula.now }
    requires table { Serves terms.now world.now values.old }
    ensures holds { result ≡ holds_at terms.now world.now formula.now }
    ensures table { Serves terms.now world.now values.new }
{
    for conjunct in formula.conjuncts() {
        if !body_holds(terms, &conjunct.body, world, values) {
            return false;
        }
    }
    true
}

fn body_holds(terms: &Terms, body: &Body, world: &World, values: &mut Values) -> bool
    requires terms { BodyIsOf (length terms.now) body.now }
    requires table { Serves terms.now world.now values.old }
    ensures holds { result ≡ body_at terms.now world.now body.now }
    ensures table { Serves terms.now world.now values.new }
{
    match body {
        Body::Any(cases) => any_holds(terms, cases.as_slice(), world, values),
        Body::Read(read) => read_holds(terms, read, world, values),
    }
}

fn any_holds(terms: &Terms, cases: &[Case], world: &World, values: &mut Values) -> bool
    requires terms { All (All (LiteralIsOf (length terms.now))) cases.now }
    requires table { Serves terms.now world.now values.old }
    ensures holds { result ≡ list_any (case_at terms.now world.now) cases.now }
    ensures table { Serves terms.now world.now values.new }
{
    for case in cases {
        if case_holds(terms, case.literals(), world, values) {
            return true;
        }
    }
    false
}

fn case_holds(terms: &Terms, literals: &[Literal], world: &World, values: &mut Values) -> bool
    requires terms { All (LiteralIsOf (length terms.now)) literals.now }
    requires table { Serves terms.now world.now values.old }
    ensures holds { result ≡ case_at terms.now world.now literals.now }
    ensures table { Serves terms.now world.now values.new }
{
    for literal in literals {
        if atom_holds(terms, literal.atom, world, values) != literal.wanted {
            return false;
        }
    }
    true
}

fn atom_holds(terms: &Terms, atom: Atom, world: &World, values: &mut Values) -> bool
    requires terms { AtomIsOf (length terms.now) atom }
    requires table { Serves terms.now world.now values.old }
    ensures holds { result ≡ atom_at terms.now world.now atom }
    ensures table { Serves terms.now world.now values.new }
{
    match atom {
        Atom::Before { first, second } => world.is_before(first, second),
        Atom::Ends { sleep, by } => world.is_ended(sleep, by),
        Atom::Test(term) => value(terms, term, values) != 0,
    }
}

fn read_holds(terms: &Terms, read: &Read, world: &World, values: &mut Values) -> bool
    requires terms { ReadIsOf (length terms.now) read.now }
    requires table { Serves terms.now world.now values.old }
    ensures holds { result ≡ read_at terms.now world.now read.now }
    ensures table { Serves terms.now world.now values.new }
{
    let from = match source_of(terms, read, world, values) {
        Some(candidate) => candidate.value,
        None => read.start(),
    };
    value(terms, read.takes(), values) == value(terms, from, values)
}

/// The write from which a load takes its value, if any.
fn source_of(terms: &Terms, read: &Read, world: &World, values: &mut Values) -> Option<Candidate>
    requires terms { ReadIsOf (length terms.now) read.now }
    requires table { Serves terms.now world.now values.old }
    ensures source { result ≡ source_at terms.now world.now read.now }
    ensures terms { IfSome result (CandidateIsOf (length terms.now)) }
    ensures table { Serves terms.now world.now values.new }
{
    let mut source = None;
    for candidate in read.candidates() {
        if is_read(terms, read, *candidate, world, values) {
            source = Some(later_of(source, *candidate, world));
        }
    }
    source
}

/// Whether the load sees the write, and it is to the load's cell.
fn is_read(
    terms: &Terms,
    read: &Read,
    candidate: Candidate,
    world: &World,
    values: &mut Values,
) -> bool
    requires terms { CandidateIsOf (length terms.now) candidate }
    requires table { Serves terms.now world.now values.old }
    ensures holds { result ≡ is_read terms.now world.now read.now candidate }
    ensures table { Serves terms.now world.now values.new }
{
    let seen = candidate.earlier || world.is_before(candidate.event, read.event());
    seen && match candidate.same_cell {
        Some(test) => value(terms, test, values) != 0,
        None => true,
    }
}

/// The later of two writes, or the second if there is no first.
fn later_of(first: Option<Candidate>, second: Candidate, world: &World) -> Candidate
    ensures { result ≡ option_map_or (λ c. later_of world.now c second) first second }
{
    match first {
        Some(candidate) if !world.is_before(candidate.event, second.event) => candidate,
        _ => second,
    }
}
