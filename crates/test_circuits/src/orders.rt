//! Orders of three events as clauses: whether the clauses allow each order of positions, and how
//! they are read back.
ghost use Rattle.std.specs.Prelude.{◌≡◌, [], ◌∷◌, ℕ, IfOk};
ghost use Rattle.std.specs.List.{All};
ghost use Rattle.order_formula.specs.Formulas.{LiteralIsOf};
ghost use Rattle.order_formula.specs.Orders.{LiteralIsIn};
ghost use Rattle.order_formula.specs.Orders as spec;
ghost use Rattle.order_formula.specs.declared.formula.Body.TheVariants as body;

use anyhow::{Result, bail};
use bit_blast::{Blasted, blast, extend_values};
use cnf_core::{Assignment, satisfies};
use order_formula::{Atom, Body, Case, Cases, Conjunct, Formula, Group, Literal, Order, World};
use std::alloc::Global;
use sym_terms::Terms;

/// All orders of three positions, and one position for all.
const POSITIONS: [[u8; 3]; 7] = [
    [1, 2, 3],
    [1, 3, 2],
    [2, 1, 3],
    [2, 3, 1],
    [3, 1, 2],
    [3, 2, 1],
    [5, 5, 5],
];

/// The literals that in each pair the first event comes before the second.
fn literals(alloc: Global, pairs: &[(u32, u32)]) -> Result<Vec<Literal>>
    ensures of { IfOk result (λ v. (n : ℕ) → All (LiteralIsOf n) v.items) }
    ensures within { IfOk result (λ v. (o : spec.Order) → o.events ≡ 3 → All (LiteralIsIn o) v.items) }
{
    let mut literals = Vec::new(alloc);
    for (first, second) in pairs {
        if *first >= 3 || *second >= 3 {
            bail!("no such event");
        }
        literals.push(Literal {
            atom: Atom::Before {
                first: *first,
                second: *second,
            },
            wanted: true,
        })?;
    }
    Ok(literals)
}

/// The conjunct that all literals are true.
fn all_of(alloc: Global, literals: Vec<Literal>) -> Result<Conjunct>
    ensures { IfOk result (λ c. c.body ≡ body.Any (literals.items ∷ [])) }
{
    let mut cases = Vec::new(alloc);
    cases.push(Case::new(literals))?;
    Ok(Conjunct {
        group: Group::Mutex(0),
        body: Body::Any(Cases::new(cases)),
    })
}

/// The clauses of the formula that in each pair the first event comes before the second.
fn clauses(alloc: Global, pairs: &[(u32, u32)]) -> Result<Blasted> {
    let literals = literals(alloc, pairs)?;
    if literals.len() > 3 {
        bail!("more than three pairs");
    }
    let conjunct = all_of(alloc, literals)?;
    let mut formula = Formula::empty(alloc);
    let mut order = Order::empty(alloc, 3, 0);
    formula.push(conjunct, &mut order)?;
    Ok(blast(alloc, &Terms::new(alloc), &formula, order, 0)?)
}

/// Adds the bits of a position, the highest first.
fn push_position(values: &mut Vec<bool>, position: u8) -> Result<()> {
    for place in 0..8u32 {
        values.push(position >> (7 - place) & 1 == 1)?;
    }
    Ok(())
}

/// Values of the positions, with those that the clauses leave to the other variables.
fn values(alloc: Global, blasted: &Blasted, positions: [u8; 3]) -> Result<Assignment> {
    let mut values = Vec::new(alloc);
    values.push(true)?;
    for position in positions {
        push_position(&mut values, position)?;
    }
    extend_values(blasted.clauses(), &mut values)?;
    Ok(Assignment::new(values))
}

/// The position of an event; equal positions are ordered by the events' numbers.
fn place(positions: [u8; 3], event: u32) -> (u8, u32) {
    let position = positions.get(event as usize).copied().unwrap_or(0);
    (position, event)
}

/// Whether in each pair the first event comes before the second.
fn are_before(positions: [u8; 3], pairs: &[(u32, u32)]) -> bool {
    for (first, second) in pairs {
        if place(positions, *first) >= place(positions, *second) {
            return false;
        }
    }
    true
}

/// Whether a world has the events in this order.
fn is_read_as(world: &World, positions: [u8; 3]) -> bool {
    for (first, second) in [(0, 1), (1, 2), (0, 2)] {
        if world.is_before(first, second) != are_before(positions, &[(first, second)]) {
            return false;
        }
    }
    true
}

/// Whether the clauses can be satisfied in an order. They must be exactly if the formula is true,
/// and the values must give that order.
fn is_satisfied(
    alloc: Global,
    blasted: &Blasted,
    pairs: &[(u32, u32)],
    positions: [u8; 3],
) -> Result<bool> {
    let assignment = values(alloc, blasted, positions)?;
    let vars = blasted.clauses().vars();
    if vars == 0 || assignment.vars() < vars as usize {
        bail!("a variable without a value");
    }
    if !is_read_as(&blasted.world(alloc, &assignment)?, positions) {
        bail!("read in another order");
    }
    let satisfied = satisfies(blasted.clauses(), &assignment);
    if satisfied != are_before(positions, pairs) {
        bail!("not as the formula says");
    }
    Ok(satisfied)
}

/// The number of orders in which the clauses can be satisfied.
fn count(alloc: Global, blasted: &Blasted, pairs: &[(u32, u32)]) -> Result<u32> {
    let mut orders = 0u32;
    for positions in POSITIONS {
        if is_satisfied(alloc, blasted, pairs, positions)? {
            orders = orders.saturating_add(1);
        }
    }
    Ok(orders)
}

/// Prints the numbers of variables and clauses, and of orders in which they can be satisfied.
fn row(rt: &(impl Print + AllocGlobal), name: &str, pairs: &[(u32, u32)]) -> Result<()> {
    let blasted = clauses(rt.alloc(), pairs)?;
    let (vars, len) = (blasted.clauses().vars(), blasted.clauses().len());
    let orders = count(rt.alloc(), &blasted, pairs)?;
    println!(rt; "{name}: {vars} variables, {len} clauses, {orders} orders")?;
    Ok(())
}

/// Variables 1 to 25 always exist, with one clause. A comparison of two positions has 31 gates,
/// each with three clauses. A second literal, even the same one, makes all three events compared,
/// with two clauses of transitivity; each other literal after the first adds a gate, and the conjunct
/// adds a clause.
pub fn run(rt: &(impl Print + AllocGlobal)) -> Result<()> {
    row(rt, "one pair", &[(0, 1)])?;
    row(rt, "a pair twice", &[(0, 1), (0, 1)])?;
    row(rt, "a chain", &[(0, 1), (1, 2)])?;
    row(rt, "a circle", &[(0, 1), (1, 2), (2, 0)])?;
    let none = Blasted::impossible(rt.alloc())?;
    let (vars, len) = (none.clauses().vars(), none.clauses().len());
    println!(rt; "impossible: {vars} variables, {len} clauses")?;
    Ok(())
}
