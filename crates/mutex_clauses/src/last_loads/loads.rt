//! The clauses of the loads after all regions.
ghost use Rattle.std.specs.Prelude.{◌≡◌, ◌<◌, ◌≤◌, ◌+◌, ◌*◌, ◌&&◌, ℕ, Some, is_some, not, length, IfOk, OnOk};
ghost use Rattle.std.specs.List.{Contains, list_all};
ghost use Rattle.tc_code.specs.Code.{Code};
ghost use Rattle.sym_exec.specs.Executed.{Symbolic};
ghost use Rattle.sym_exec.specs.declared.symbolic.Access.{Access as PlainAccess};
ghost use Rattle.order_events.specs.lawful_order.Events.{Placed as PlainPlaced, all_events};
ghost use Rattle.cnf_core.specs.Clauses.{var_of};
ghost use Rattle.cnf_core.specs.declared.cnf.TheConstants.{LIMIT};
ghost use Rattle.bit_gates.specs.Folded.{HasRoom, IsLarger};
ghost use Rattle.bit_ops.specs.bit_words.Words.{AreWithin};
ghost use Rattle.bit_blast.specs.Drafts.{Draft};
ghost use Rattle.bit_blast.specs.Reads.{with_clauses};
ghost use Rattle.read_write.specs.Accesses.{all_accesses};
ghost use Rattle.mutex_regions.specs.Regions.{lies_in, regions_of};
ghost use Rattle.mutex_regions.specs.Variables.{guarded, spots_of};
ghost use Rattle.mutex_states.specs.Sizes.{last_size};
ghost use Rattle.mutex_states.specs.States.{with_last_loads};
ghost use Rattle.mutex_clauses.specs.last_loads.Within.{IsStateWithin};
ghost use Rattle.mutex_clauses.specs.last_loads.helpers.Listed as listed;

use crate::literals::Literals;
use bit_blast::add_value;
use bit_gates::{Circuit, constant};
use bit_ops::Word;
use cnf_core::Lit;
use mutex_regions::{Spot, lies_in};
use order_cells::constant_of;
use order_events::Placed;
use path_walk::Region;
use std::alloc::{AllocError, Global};
use sym_exec::{Access, Cell};
use sym_terms::{Id, Terms};

/// The state of a mutex's cells after all its regions, and what says which loads take it.
#[derive(Clone, Copy)]
pub struct LastState<'a> {
    /// The literals of the order and of the conjuncts.
    pub literals: Literals<'a>,
    /// The terms, among them those of indexes.
    pub terms: &'a Terms,
    /// The literal that all is in order in the regions.
    pub ordered: Lit,
    /// The regions.
    pub regions: &'a [Placed<Region>],
    /// The cells of the state.
    pub spots: &'a [Spot],
    /// The word of each cell.
    pub words: &'a [Word],
}

/// A load after all regions.
#[derive(Clone, Copy)]
struct Late {
    /// Its cell.
    cell: Cell,
    /// The word of its value.
    word: Word,
    /// The literal that it takes the last state.
    after: Lit,
}

/// Adds the clauses of all loads that come after all regions.
pub fn add_last_loads(
    alloc: Global,
    circuit: &mut Circuit,
    last: &LastState<'_>,
    accesses: &[Placed<Access>],
) -> Result<(), AllocError>
    requires events { last.now.literals.events.now ≡ all_events last.now.literals.paths.now }
    requires count { length last.now.words.now ≡ length last.now.spots.now }
    requires loads { (a : PlainPlaced PlainAccess) (l : ℕ) → Contains accesses.now a → a.it.takes ≡ Some l
        → l < last.now.literals.layout.now.loads }
    requires within { IsStateWithin circuit.old.vars last.now.literals.layout.now last.now.literals.roots.now
        last.now.ordered last.now.words.now }
    requires room { HasRoom (last_size (length last.now.regions.now) (length last.now.spots.now) (length accesses.now)) circuit.old }
    ensures circuit { OnOk result ((code : Code) (symbolic : Symbolic) (m : ℕ) (d : Draft)
        → last.now.regions.now ≡ regions_of last.now.literals.paths.now m
        → last.now.spots.now ≡ spots_of (guarded last.now.literals.paths.now symbolic m)
        → accesses.now ≡ all_accesses symbolic
        → last.now.literals.layout.now ≡ d.layout
        → last.now.literals.roots.now ≡ d.roots
        → circuit.new ≡ with_last_loads code last.now.literals.paths.now symbolic last.now.terms.now last.now.literals.conjuncts.now m d
        last.now.ordered last.now.words.now circuit.old) }
    ensures larger { OnOk result (IsLarger (last_size (length last.now.regions.now) (length last.now.spots.now) (length accesses.now))
        circuit.old circuit.new) }
{
    for access in accesses {
        add_if_outside(alloc, circuit, last, access)?;
    }
    Ok(())
}

/// Adds the clauses of an access, if it is a load that comes after all regions.
fn add_if_outside(
    alloc: Global,
    circuit: &mut Circuit,
    last: &LastState<'_>,
    access: &Placed<Access>,
) -> Result<(), AllocError>
    requires events { last.now.literals.events.now ≡ all_events last.now.literals.paths.now }
    requires count { length last.now.words.now ≡ length last.now.spots.now }
    requires loads { (l : ℕ) → access.now.it.takes ≡ Some l → l < last.now.literals.layout.now.loads }
    requires within { IsStateWithin circuit.old.vars last.now.literals.layout.now last.now.literals.roots.now
        last.now.ordered last.now.words.now }
    requires room { HasRoom ((length last.now.regions.now + 1) * 3 + length last.now.spots.now * 64) circuit.old }
    ensures circuit { OnOk result (circuit.new ≡ listed.with_outside last.now.literals.paths.now last.now.literals.layout.now
        last.now.literals.conjuncts.now last.now.literals.roots.now last.now.terms.now last.now.ordered last.now.regions.now
        last.now.spots.now last.now.words.now circuit.old access.now) }
    ensures larger { OnOk result (IsLarger ((length last.now.regions.now + 1) * 3 + length last.now.spots.now * 64)
        circuit.old circuit.new) }
{
    if !is_outside(last.regions, access) {
        return Ok(());
    }
    match access.it.takes {
        Some(load) => add_load(alloc, circuit, last, access, load),
        None => Ok(()),
    }
}

/// Whether no region is without an end, and the access lies in none.
fn is_outside(regions: &[Placed<Region>], access: &Placed<Access>) -> bool
    ensures { result ≡ list_all (λ r. is_some r.it.to && not (lies_in r access.now)) regions.now }
{
    regions.iter().all(|region| region.it.to.is_some() && !lies_in(region, access))
}

/// Adds the clauses of a load: if all regions end before it, it takes the last state.
fn add_load(
    alloc: Global,
    circuit: &mut Circuit,
    last: &LastState<'_>,
    access: &Placed<Access>,
    load: u32,
) -> Result<(), AllocError>
    requires events { last.now.literals.events.now ≡ all_events last.now.literals.paths.now }
    requires count { length last.now.words.now ≡ length last.now.spots.now }
    requires load { load < last.now.literals.layout.now.loads }
    requires within { IsStateWithin circuit.old.vars last.now.literals.layout.now last.now.literals.roots.now
        last.now.ordered last.now.words.now }
    requires room { HasRoom ((length last.now.regions.now + 1) * 3 + length last.now.spots.now * 64) circuit.old }
    ensures circuit { OnOk result (circuit.new ≡ listed.with_load last.now.literals.paths.now last.now.literals.layout.now
        last.now.literals.conjuncts.now last.now.literals.roots.now last.now.terms.now last.now.ordered last.now.regions.now
        last.now.spots.now last.now.words.now access.now circuit.old load) }
    ensures larger { OnOk result (IsLarger ((length last.now.regions.now + 1) * 3 + length last.now.spots.now * 64)
        circuit.old circuit.new) }
{
    let after = after_all(circuit, last, access)?;
    let word = last.literals.layout.load(load);
    let late = Late {
        cell: access.it.cell,
        word,
        after,
    };
    add_spots(alloc, circuit, last, &late)?;
    Ok(())
}

/// The literal that all is in order, the load is right, and all regions end before it.
fn after_all(
    circuit: &mut Circuit,
    last: &LastState<'_>,
    access: &Placed<Access>,
) -> Result<Lit, AllocError>
    requires events { last.now.literals.events.now ≡ all_events last.now.literals.paths.now }
    requires within { IsStateWithin circuit.old.vars last.now.literals.layout.now last.now.literals.roots.now
        last.now.ordered last.now.words.now }
    requires room { HasRoom ((length last.now.regions.now + 1) * 3) circuit.old }
    ensures literal { IfOk result (λ l. l ≡ (listed.after_made last.now.literals.paths.now last.now.literals.layout.now
        last.now.literals.conjuncts.now last.now.literals.roots.now last.now.ordered last.now.regions.now circuit.old access.now).literal) }
    ensures formula { OnOk result (circuit.new ≡ (listed.after_made last.now.literals.paths.now last.now.literals.layout.now
        last.now.literals.conjuncts.now last.now.literals.roots.now last.now.ordered last.now.regions.now circuit.old access.now).formula) }
    ensures within { IfOk result (λ l. var_of l ≤ circuit.new.vars) }
    ensures larger { OnOk result (IsLarger ((length last.now.regions.now + 1) * 3) circuit.old circuit.new) }
{
    let regions = last.regions;
    let mut all = circuit.and(last.ordered, last.literals.read(access))?;
    for region in regions {
        all = circuit.and(all, ends_before(&last.literals, access, region))?;
    }
    Ok(all)
}

/// The literal that a region ends before an access, or false if it has no end.
fn ends_before(literals: &Literals<'_>, access: &Placed<Access>, region: &Placed<Region>) -> Lit
    requires { literals.now.events.now ≡ all_events literals.now.paths.now }
    ensures { result ≡ listed.ends_before literals.now.paths.now literals.now.layout.now access.now region.now }
{
    match region.it.to {
        Some(to) => literals.before(region.thread, to, access.thread, access.it.step),
        None => constant(false),
    }
}

/// Adds clauses: if the load takes the last state, its word equals that of its cell.
fn add_spots(
    alloc: Global,
    circuit: &mut Circuit,
    last: &LastState<'_>,
    late: &Late,
) -> Result<(), AllocError>
    requires count { length last.now.words.now ≡ length last.now.spots.now }
    requires within { IsStateWithin circuit.old.vars last.now.literals.layout.now last.now.literals.roots.now
        last.now.ordered last.now.words.now }
    requires word { AreWithin circuit.old.vars late.now.word }
    requires after { var_of late.now.after ≤ circuit.old.vars }
    requires room { length circuit.old.clauses + length last.now.spots.now * 64 < LIMIT }
    ensures circuit { OnOk result (circuit.new ≡ with_clauses circuit.old
        (listed.spots_clauses last.now.terms.now last.now.spots.now last.now.words.now late.now.cell late.now.word late.now.after)) }
    ensures vars { OnOk result (circuit.new.vars ≡ circuit.old.vars) }
    ensures few { OnOk result (length circuit.new.clauses ≤ length circuit.old.clauses + length last.now.spots.now * 64) }
{
    let spots = last.spots;
    let words = last.words;
    for place in 0..spots.len() {
        let is_its_cell = names_spot(last.terms, &spots[place], late.cell);
        add_spot(alloc, circuit, late, &words[place], is_its_cell)?;
    }
    Ok(())
}

/// Adds clauses, if the cell is the load's: its word equals that of the cell.
fn add_spot(
    alloc: Global,
    circuit: &mut Circuit,
    late: &Late,
    word: &Word,
    is_its_cell: bool,
) -> Result<(), AllocError>
    requires late_word { AreWithin circuit.old.vars late.now.word }
    requires after { var_of late.now.after ≤ circuit.old.vars }
    requires word { AreWithin circuit.old.vars word.now }
    requires room { length circuit.old.clauses + 64 < LIMIT }
    ensures circuit { OnOk result (circuit.new ≡ with_clauses circuit.old
        (listed.where_wanted is_its_cell (listed.word_clauses late.now.after late.now.word word.now))) }
    ensures vars { OnOk result (circuit.new.vars ≡ circuit.old.vars) }
    ensures few { OnOk result (length circuit.new.clauses ≤ length circuit.old.clauses + 64) }
{
    if is_its_cell {
        let always = circuit.constant(true);
        add_value(alloc, circuit, late.after, always, &late.word, word)?;
    }
    Ok(())
}

/// Whether a cell is this one of the state in every world.
fn names_spot(terms: &Terms, spot: &Spot, cell: Cell) -> bool
    ensures { result ≡ listed.names_spot terms.now spot.now cell }
{
    let variable = &spot.variable;
    match cell {
        Cell::Fixed(number) => !variable.is_array && variable.first == number,
        Cell::Element { first, index, .. } => {
            variable.is_array && (variable.first == first && is_number(terms, index, spot.index))
        }
    }
}

/// Whether a term is a constant with this value.
fn is_number(terms: &Terms, term: Id, number: u8) -> bool
    ensures { result ≡ listed.is_number terms.now term number }
{
    match constant_of(terms, term) {
        Some(value) => i32::from(number) == value,
        None => false,
    }
}
