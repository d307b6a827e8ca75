//! The circuits of conjuncts that say which value a load takes.
ghost use Rattle.std.specs.Prelude.{◌≡◌, ℕ, ◌<◌, ◌≤◌, ◌+◌, ◌*◌, [], ◌∷◌, ◌++◌, length, map, IfOk, OnOk};
ghost use Rattle.std.specs.List.{All, flat_map};
ghost use Rattle.cnf_core.specs.Clauses.{var_of};
ghost use Rattle.cnf_core.specs.declared.cnf.TheConstants.{LIMIT};
ghost use Rattle.bit_gates.specs.Folded.{HasRoom, IsLarger};
ghost use Rattle.bit_order.specs.Comparators.{before_literal};
ghost use Rattle.bit_ops.specs.bit_words.Words.{AreWithin};
ghost use Rattle.order_formula.specs.Formulas.{CandidateIsOf, ReadIsOf};
ghost use Rattle.bit_blast.specs.Layered.{parts_of};
ghost use Rattle.bit_blast.specs.Reads.{all_seen, last_clause, last_clauses, none_clauses, read_made, seen_made, sources_of, value_clauses, with_clauses};
ghost use Rattle.bit_blast.specs.Sizes.{read_size};
ghost use Rattle.bit_blast.specs.helpers.Within.{ArePartsWithin, IsSourceWithin, AreSourcesWithin};

use bit_gates::Circuit;
use bit_ops::Word;
use bit_order::{Layout, add_clause};
use bit_terms::nonzero;
use cnf_core::Lit;
use order_formula::{Candidate, Read};
use std::alloc::{AllocError, Global};
use std::marker::Model;

/// A write that a load may take: its event, the literals that the load sees it at its cell and
/// takes it, and the word of the value written.
#[derive(Drop)]
struct Source {
    event: u32,
    seen: Lit,
    taken: Lit,
    value: Word,
}

impl Model for Source {
    ghost use Rattle.bit_blast.specs.Reads.{Source as PlainSource};

    ghost Value = { PlainSource };

    ghost view = { λ s. record { event = s.event; seen = s.seen; taken = s.taken; value = s.value } };
}

/// The literal of "the load takes the value that it must".
pub(crate) fn read_literal(
    alloc: Global,
    circuit: &mut Circuit,
    layout: &Layout,
    words: &[Word],
    read: &Read,
) -> Result<Lit, AllocError>
    requires parts { ArePartsWithin circuit.old.vars (parts_of layout.now words.now) }
    requires terms { ReadIsOf (length words.now) read.now }
    requires room { HasRoom (read_size (length read.now.candidates)) circuit.old }
    ensures literal { IfOk result (λ l. l ≡ (read_made (parts_of layout.now words.now) circuit.old read.now).literal) }
    ensures formula { OnOk result (circuit.new ≡ (read_made (parts_of layout.now words.now) circuit.old read.now).formula) }
    ensures within { IfOk result (λ l. var_of l ≤ circuit.new.vars) }
    ensures larger { OnOk result (IsLarger (read_size (length read.now.candidates)) circuit.old circuit.new) }
{
    let seen = all_seen(alloc, circuit, layout, words, read)?;
    let holds = circuit.add_variable();
    let start = circuit.add_variable();
    let sources = sources_of(alloc, circuit, words, read.candidates(), seen.as_slice())?;
    let sources = sources.as_slice();
    let takes = &words[read.takes().place()];
    let first = &words[read.start().place()];
    add_some(alloc, circuit, start, sources)?;
    add_none(alloc, circuit, start, sources)?;
    add_value(alloc, circuit, holds, start, takes, first)?;
    add_sources(alloc, circuit, layout, holds, takes, sources)?;
    Ok(holds)
}

/// Whether the load sees each of its candidates at its cell.
fn all_seen(
    alloc: Global,
    circuit: &mut Circuit,
    layout: &Layout,
    words: &[Word],
    read: &Read,
) -> Result<Vec<Lit>, AllocError>
    requires parts { ArePartsWithin circuit.old.vars (parts_of layout.now words.now) }
    requires terms { All (CandidateIsOf (length words.now)) read.now.candidates }
    requires room { HasRoom (99 * length read.now.candidates) circuit.old }
    ensures literals { IfOk result (λ v. v.items ≡ (all_seen (parts_of layout.now words.now) read.now circuit.old read.now.candidates).word) }
    ensures formula { OnOk result (circuit.new ≡ (all_seen (parts_of layout.now words.now) read.now circuit.old read.now.candidates).state) }
    ensures count { IfOk result (λ v. length v.items ≡ length read.now.candidates) }
    ensures within { IfOk result (λ v. AreWithin circuit.new.vars v.items) }
    ensures larger { OnOk result (IsLarger (99 * length read.now.candidates) circuit.old circuit.new) }
{
    let mut seen = Vec::new(alloc);
    for candidate in read.candidates() {
        let here = is_seen(circuit, layout, words, read, *candidate)?;
        seen.push(here)?;
    }
    Ok(seen)
}

/// Whether the load sees the write at its cell.
fn is_seen(
    circuit: &mut Circuit,
    layout: &Layout,
    words: &[Word],
    read: &Read,
    candidate: Candidate,
) -> Result<Lit, AllocError>
    requires parts { ArePartsWithin circuit.old.vars (parts_of layout.now words.now) }
    requires terms { CandidateIsOf (length words.now) candidate }
    requires room { HasRoom 99 circuit.old }
    ensures literal { IfOk result (λ l. l ≡ (seen_made (parts_of layout.now words.now) read.now circuit.old candidate).literal) }
    ensures formula { OnOk result (circuit.new ≡ (seen_made (parts_of layout.now words.now) read.now circuit.old candidate).formula) }
    ensures within { IfOk result (λ l. var_of l ≤ circuit.new.vars) }
    ensures larger { OnOk result (IsLarger 99 circuit.old circuit.new) }
{
    let cell = match candidate.same_cell {
        Some(term) => nonzero(circuit, &words[term.place()])?,
        None => circuit.constant(true),
    };
    let order = if candidate.earlier {
        circuit.constant(true)
    } else {
        layout.before(candidate.event, read.event())
    };
    circuit.and(order, cell)
}

/// The candidates with these literals, and a new variable for each.
fn sources_of(
    alloc: Global,
    circuit: &mut Circuit,
    words: &[Word],
    candidates: &[Candidate],
    seen: &[Lit],
) -> Result<Vec<Source>, AllocError>
    requires count { length seen.now ≡ length candidates.now }
    requires terms { All (CandidateIsOf (length words.now)) candidates.now }
    requires words { All (AreWithin circuit.old.vars) words.now }
    requires seen { AreWithin circuit.old.vars seen.now }
    requires room { HasRoom (length candidates.now) circuit.old }
    ensures sources { IfOk result (λ v. v.items ≡ sources_of words.now circuit.old.vars candidates.now seen.now) }
    ensures count { IfOk result (λ v. length v.items ≡ length candidates.now) }
    ensures variables { OnOk result (circuit.new.vars ≡ circuit.old.vars + length candidates.now) }
    ensures clauses { circuit.new.clauses ≡ circuit.old.clauses }
    ensures within { IfOk result (λ v. AreSourcesWithin circuit.new.vars v.items) }
{
    let mut sources = Vec::with_capacity(alloc, candidates.len())?;
    for place in 0..candidates.len() {
        let candidate = candidates[place];
        sources.push(Source {
            event: candidate.event,
            seen: seen[place],
            taken: circuit.add_variable(),
            value: words[candidate.value.place()],
        })?;
    }
    Ok(sources)
}

/// Adds the clause: the load takes the value at the start, or that of some write.
fn add_some(
    alloc: Global,
    circuit: &mut Circuit,
    start: Lit,
    sources: &[Source],
) -> Result<(), AllocError>
    requires start { var_of start ≤ circuit.old.vars }
    requires sources { AreSourcesWithin circuit.old.vars sources.now }
    requires room { length circuit.old.clauses + 1 < LIMIT }
    ensures formula { OnOk result (circuit.new ≡ with_clauses circuit.old ((start ∷ map (λ s. s.taken) sources.now) ∷ [])) }
    ensures vars { OnOk result (circuit.new.vars ≡ circuit.old.vars) }
    ensures count { OnOk result (length circuit.new.clauses ≤ length circuit.old.clauses + 1) }
{
    let mut clause = Vec::with_capacity(alloc, sources.len() + 1)?;
    clause.push(start)?;
    for source in sources {
        clause.push(source.taken)?;
    }
    add_clause(alloc, circuit, clause.as_slice())
}

/// Adds clauses: if the load takes the value at the start, it sees no write.
fn add_none(
    alloc: Global,
    circuit: &mut Circuit,
    start: Lit,
    sources: &[Source],
) -> Result<(), AllocError>
    requires start { var_of start ≤ circuit.old.vars }
    requires sources { AreSourcesWithin circuit.old.vars sources.now }
    requires room { length circuit.old.clauses + length sources.now < LIMIT }
    ensures formula { OnOk result (circuit.new ≡ with_clauses circuit.old (none_clauses start sources.now)) }
    ensures vars { OnOk result (circuit.new.vars ≡ circuit.old.vars) }
    ensures count { OnOk result (length circuit.new.clauses ≤ length circuit.old.clauses + length sources.now) }
{
    for source in sources {
        add_clause(alloc, circuit, &[start.opposite(), source.seen.opposite()])?;
    }
    Ok(())
}

/// Adds clauses: if a conjunct is true and a load takes a value, its word equals that. More
/// generally, two words are equal if two literals are true.
pub fn add_value(
    alloc: Global,
    circuit: &mut Circuit,
    holds: Lit,
    taken: Lit,
    takes: &Word,
    value: &Word,
) -> Result<(), AllocError>
    requires holds { var_of holds ≤ circuit.old.vars }
    requires taken { var_of taken ≤ circuit.old.vars }
    requires takes { AreWithin circuit.old.vars takes.now }
    requires value { AreWithin circuit.old.vars value.now }
    requires room { length circuit.old.clauses + 64 < LIMIT }
    ensures formula { OnOk result (circuit.new ≡ with_clauses circuit.old (value_clauses holds taken takes.now value.now)) }
    ensures vars { OnOk result (circuit.new.vars ≡ circuit.old.vars) }
    ensures count { OnOk result (length circuit.new.clauses ≤ length circuit.old.clauses + 64) }
{
    let (no, other) = (holds.opposite(), taken.opposite());
    for place in 0..32 {
        let (a, b) = (takes[place], value[place]);
        add_clause(alloc, circuit, &[no, other, a.opposite(), b])?;
        add_clause(alloc, circuit, &[no, other, a, b.opposite()])?;
    }
    Ok(())
}

/// Adds clauses: if the load takes a write, it sees it, and sees no later one.
fn add_last(
    alloc: Global,
    circuit: &mut Circuit,
    layout: &Layout,
    sources: &[Source],
    source: &Source,
) -> Result<(), AllocError>
    requires orders { (first second : ℕ) → var_of (before_literal layout.now first second) ≤ circuit.old.vars }
    requires sources { AreSourcesWithin circuit.old.vars sources.now }
    requires source { IsSourceWithin circuit.old.vars source.now }
    requires room { length circuit.old.clauses + length sources.now + 1 < LIMIT }
    ensures formula { OnOk result (circuit.new ≡ with_clauses circuit.old (last_clauses (before_literal layout.now) sources.now source.now)) }
    ensures vars { OnOk result (circuit.new.vars ≡ circuit.old.vars) }
    ensures count { OnOk result (length circuit.new.clauses ≤ length circuit.old.clauses + length sources.now + 1) }
{
    add_clause(alloc, circuit, &[source.taken.opposite(), source.seen])?;
    for other in sources {
        add_later(alloc, circuit, layout, source, other)?;
    }
    Ok(())
}

/// Adds the clause: if the load takes a write and sees another, the other comes before it.
fn add_later(
    alloc: Global,
    circuit: &mut Circuit,
    layout: &Layout,
    source: &Source,
    other: &Source,
) -> Result<(), AllocError>
    requires orders { (first second : ℕ) → var_of (before_literal layout.now first second) ≤ circuit.old.vars }
    requires source { IsSourceWithin circuit.old.vars source.now }
    requires other { IsSourceWithin circuit.old.vars other.now }
    requires room { length circuit.old.clauses + 1 < LIMIT }
    ensures formula { OnOk result (circuit.new ≡ with_clauses circuit.old (last_clause (before_literal layout.now) source.now other.now)) }
    ensures vars { OnOk result (circuit.new.vars ≡ circuit.old.vars) }
    ensures count { OnOk result (length circuit.new.clauses ≤ length circuit.old.clauses + 1) }
{
    if other.event == source.event {
        return Ok(());
    }
    let before = layout.before(other.event, source.event);
    add_clause(
        alloc,
        circuit,
        &[source.taken.opposite(), other.seen.opposite(), before],
    )
}

/// Adds both kinds of clauses for each write.
fn add_sources(
    alloc: Global,
    circuit: &mut Circuit,
    layout: &Layout,
    holds: Lit,
    takes: &Word,
    sources: &[Source],
) -> Result<(), AllocError>
    requires orders { (first second : ℕ) → var_of (before_literal layout.now first second) ≤ circuit.old.vars }
    requires holds { var_of holds ≤ circuit.old.vars }
    requires takes { AreWithin circuit.old.vars takes.now }
    requires sources { AreSourcesWithin circuit.old.vars sources.now }
    requires room { length circuit.old.clauses + length sources.now * (length sources.now + 65) < LIMIT }
    ensures formula { OnOk result (circuit.new ≡ with_clauses circuit.old (flat_map
        (λ s. last_clauses (before_literal layout.now) sources.now s ++ value_clauses holds s.taken takes.now s.value) sources.now)) }
    ensures vars { OnOk result (circuit.new.vars ≡ circuit.old.vars) }
    ensures count { OnOk result (length circuit.new.clauses ≤ length circuit.old.clauses + length sources.now * (length sources.now + 65)) }
{
    for source in sources {
        add_last(alloc, circuit, layout, sources, source)?;
        add_value(alloc, circuit, holds, source.taken, takes, &source.value)?;
    }
    Ok(())
}
