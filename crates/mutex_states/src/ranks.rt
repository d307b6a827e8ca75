//! The ranks of regions as clauses.
ghost use Rattle.std.specs.Prelude.{◌≡◌, ℕ, suc, ◌+◌, ◌*◌, ◌<◌, ◌≤◌, length, IfOk, OnOk};
ghost use Rattle.std.specs.List.{flat_map, range_with_len};
ghost use Rattle.cnf_core.specs.Clauses.{var_of};
ghost use Rattle.cnf_core.specs.declared.cnf.TheConstants.{LIMIT};
ghost use Rattle.bit_gates.specs.Folded.{HasRoom, IsLarger};
ghost use Rattle.circuit_sizes.specs.bit_ops.bit_words.Words.{AreWithin};
ghost use Rattle.bit_order.specs.Comparators.{before_literal};
ghost use Rattle.bit_blast.specs.Reads.{with_clauses};
ghost use Rattle.mutex_states.specs.Ranks.{begins_before, excluding, exclusions, gates_made, least_literal, number_clauses, one_clauses, region_clauses, with_rank, with_ranks};
ghost use Rattle.mutex_states.specs.Sizes.{rank_size, ranks_size};

use bit_gates::{Circuit, constant};
use bit_order::{Layout, add_clause};
use cnf_core::Lit;
use std::alloc::{AllocError, Global};
use std::marker::Model;

/// The events that begin some regions, over the layout of their order.
#[derive(Clone, Copy)]
pub struct Begins<'a> {
    /// The layout.
    pub layout: &'a Layout,
    /// The number of each region's event.
    pub events: &'a [u32],
}

/// The variables of ranks: for each region and each number one that says that the region's rank is
/// at least that.
#[derive(Debug, Drop)]
pub struct Ranks {
    count: u32,
    start: u32,
}

impl Model for Ranks {
    ghost use Rattle.mutex_states.specs.Ranks.{Ranking};

    ghost Value = { Ranking };

    ghost use Rattle.mutex_states.specs.helpers.Held.{ranking_of, IsHeld};

    ghost view = { ranking_of };

    ghost invariant = { IsHeld };
}

/// Adds the variables and the clauses of the ranks of regions.
pub fn add_ranks(
    alloc: Global,
    circuit: &mut Circuit,
    begins: &Begins<'_>,
) -> Result<Ranks, AllocError>
    requires few { length begins.now.events.now ≤ 256 }
    requires before { (first second : ℕ) → var_of (before_literal begins.now.layout.now first second) ≤ circuit.old.vars }
    requires room { HasRoom (ranks_size (length begins.now.events.now)) circuit.old }
    ensures ranks { IfOk result (λ ranks. ranks ≡ record { count = length begins.now.events.now; start = suc circuit.old.vars }) }
    ensures circuit { OnOk result (circuit.new
        ≡ with_ranks (length begins.now.events.now) (begins_before begins.now.layout.now begins.now.events.now) circuit.old) }
    ensures larger { OnOk result (IsLarger (ranks_size (length begins.now.events.now)) circuit.old circuit.new) }
{
    let count = begins.events.len() as u32;
    let ranks = Ranks {
        count,
        start: circuit.vars() + 1,
    };
    add_variables(circuit, count * count);
    for region in 0..count {
        add_region(alloc, circuit, &ranks, begins, region)?;
    }
    Ok(ranks)
}

/// Adds `count` variables that no clause names yet.
fn add_variables(circuit: &mut Circuit, count: u32)
    requires { circuit.old.vars + count < LIMIT }
    ensures vars { circuit.new.vars ≡ circuit.old.vars + count }
    ensures clauses { circuit.new.clauses ≡ circuit.old.clauses }
{
    for _ in 0..count {
        circuit.add_variable();
    }
}

/// Adds the clauses of one region's ranks.
fn add_region(
    alloc: Global,
    circuit: &mut Circuit,
    ranks: &Ranks,
    begins: &Begins<'_>,
    region: u32,
) -> Result<(), AllocError>
    requires count { length begins.now.events.now ≡ ranks.now.count }
    requires region { region < ranks.now.count }
    requires before { (first second : ℕ) → var_of (before_literal begins.now.layout.now first second) ≤ circuit.old.vars }
    requires there { ranks.now.start + ranks.now.count * ranks.now.count ≤ suc circuit.old.vars }
    requires room { length circuit.old.clauses + ranks.now.count * (ranks.now.count + 1) < LIMIT }
    ensures circuit { OnOk result (circuit.new ≡ with_clauses circuit.old
        (region_clauses ranks.now.count ranks.now.start (begins_before begins.now.layout.now begins.now.events.now) region)) }
    ensures vars { OnOk result (circuit.new.vars ≡ circuit.old.vars) }
    ensures few { OnOk result (length circuit.new.clauses ≤ length circuit.old.clauses + ranks.now.count * (ranks.now.count + 1)) }
{
    for least in 0..ranks.count {
        add_number(alloc, circuit, ranks, begins, region, least)?;
    }
    Ok(())
}

/// Adds clauses: a rank above `least` is at least that, and if the region's rank is at least that,
/// those of the regions that begin after it are above it.
fn add_number(
    alloc: Global,
    circuit: &mut Circuit,
    ranks: &Ranks,
    begins: &Begins<'_>,
    region: u32,
    least: u32,
) -> Result<(), AllocError>
    requires count { length begins.now.events.now ≡ ranks.now.count }
    requires region { region < ranks.now.count }
    requires least { least < ranks.now.count }
    requires before { (first second : ℕ) → var_of (before_literal begins.now.layout.now first second) ≤ circuit.old.vars }
    requires there { ranks.now.start + ranks.now.count * ranks.now.count ≤ suc circuit.old.vars }
    requires room { length circuit.old.clauses + ranks.now.count + 1 < LIMIT }
    ensures circuit { OnOk result (circuit.new ≡ with_clauses circuit.old
        (number_clauses ranks.now.count ranks.now.start (begins_before begins.now.layout.now begins.now.events.now) region least)) }
    ensures vars { OnOk result (circuit.new.vars ≡ circuit.old.vars) }
    ensures few { OnOk result (length circuit.new.clauses ≤ length circuit.old.clauses + ranks.now.count + 1) }
{
    let low = ranks.literal(region, least);
    let above = ranks.literal(region, least + 1);
    add_clause(alloc, circuit, &[above.opposite(), low])?;
    for second in 0..ranks.count {
        if region != second {
            let before = begins.before(region, second);
            let high = ranks.literal(second, least + 1);
            add_clause(alloc, circuit, &[before.opposite(), low.opposite(), high])?;
        }
    }
    Ok(())
}

impl Begins<'_> {
    /// The literal that one of the regions begins before another.
    fn before(&self, first: u32, second: u32) -> Lit
        requires first { first < length self.now.events.now }
        requires second { second < length self.now.events.now }
        ensures { result ≡ begins_before self.now.layout.now self.now.events.now first second }
    {
        let (first, second) = (self.events[first as usize], self.events[second as usize]);
        self.layout.before(first, second)
    }
}

impl Ranks {
    /// The literal of "this region's rank is at least `least`".
    fn literal(&self, region: u32, least: u32) -> Lit
        requires { region < self.now.count }
        ensures literal { result ≡ least_literal self.now.count self.now.start region least }
        ensures within { var_of result < self.now.start + self.now.count * self.now.count }
    {
        let count = self.count;
        if least == 0 {
            return constant(true);
        }
        if least >= count {
            return constant(false);
        }
        Lit::new(self.start + (region * count + (least - 1)), false)
    }

    /// The literals of "this region has this rank", one for each region, with the clauses that
    /// exactly one region has it.
    pub fn rank(
        &self,
        alloc: Global,
        circuit: &mut Circuit,
        rank: u32,
    ) -> Result<Vec<Lit>, AllocError>
        requires rank { rank < self.now.count }
        requires there { self.now.start + self.now.count * self.now.count ≤ suc circuit.old.vars }
        requires room { HasRoom (rank_size self.now.count) circuit.old }
        ensures literals { IfOk result (λ v. v.items ≡ (with_rank self.now.count self.now.start rank circuit.old).word) }
        ensures circuit { OnOk result (circuit.new ≡ (with_rank self.now.count self.now.start rank circuit.old).state) }
        ensures count { IfOk result (λ v. length v.items ≡ self.now.count) }
        ensures within { IfOk result (λ v. AreWithin circuit.new.vars v.items) }
        ensures larger { OnOk result (IsLarger (rank_size self.now.count) circuit.old circuit.new) }
    {
        let gates = self.gates(alloc, circuit, rank)?;
        add_clause(alloc, circuit, gates.as_slice())?;
        add_exclusions(alloc, circuit, gates.as_slice())?;
        Ok(gates)
    }

    /// The literals of "this region has this rank", one for each region.
    fn gates(&self, alloc: Global, circuit: &mut Circuit, rank: u32) -> Result<Vec<Lit>, AllocError>
        requires rank { rank < self.now.count }
        requires there { self.now.start + self.now.count * self.now.count ≤ suc circuit.old.vars }
        requires room { HasRoom (3 * self.now.count) circuit.old }
        ensures literals { IfOk result (λ v. v.items ≡ (gates_made self.now.count self.now.start rank circuit.old).word) }
        ensures circuit { OnOk result (circuit.new ≡ (gates_made self.now.count self.now.start rank circuit.old).state) }
        ensures count { IfOk result (λ v. length v.items ≡ self.now.count) }
        ensures within { IfOk result (λ v. AreWithin circuit.new.vars v.items) }
        ensures larger { OnOk result (IsLarger (3 * self.now.count) circuit.old circuit.new) }
    {
        let mut gates = Vec::new(alloc);
        for region in 0..self.count {
            let low = self.literal(region, rank);
            let above = self.literal(region, rank + 1);
            gates.push(circuit.and(low, above.opposite())?)?;
        }
        Ok(gates)
    }
}

/// Adds clauses: no two of the literals are true.
fn add_exclusions(alloc: Global, circuit: &mut Circuit, literals: &[Lit]) -> Result<(), AllocError>
    requires literals { AreWithin circuit.old.vars literals.now }
    requires room { length circuit.old.clauses + length literals.now * length literals.now < LIMIT }
    ensures circuit { OnOk result (circuit.new ≡ with_clauses circuit.old (exclusions literals.now)) }
    ensures vars { OnOk result (circuit.new.vars ≡ circuit.old.vars) }
    ensures few { OnOk result (length circuit.new.clauses ≤ length circuit.old.clauses + length literals.now * length literals.now) }
{
    for first in 0..literals.len() {
        exclude(alloc, circuit, literals[first], &literals[first + 1..])?;
    }
    Ok(())
}

/// Adds clauses: if the literal is true, none of the others is.
fn exclude(
    alloc: Global,
    circuit: &mut Circuit,
    literal: Lit,
    others: &[Lit],
) -> Result<(), AllocError>
    requires literal { var_of literal ≤ circuit.old.vars }
    requires others { AreWithin circuit.old.vars others.now }
    requires room { length circuit.old.clauses + length others.now < LIMIT }
    ensures circuit { OnOk result (circuit.new ≡ with_clauses circuit.old (excluding literal others.now)) }
    ensures vars { OnOk result (circuit.new.vars ≡ circuit.old.vars) }
    ensures few { OnOk result (length circuit.new.clauses ≤ length circuit.old.clauses + length others.now) }
{
    for other in others {
        add_clause(alloc, circuit, &[literal.opposite(), other.opposite()])?;
    }
    Ok(())
}
