//! The states of a mutex's cells after all ranks.
ghost use Rattle.std.specs.Prelude.{◌≡◌, suc, ◌≤◌, ◌<◌, ◌+◌, ◌*◌, List, length, IfOk, OnOk};
ghost use Rattle.std.specs.List.{All};
ghost use Rattle.cnf_core.specs.Clauses.{var_of};
ghost use Rattle.bit_gates.specs.Folded.{IsLarger};
ghost use Rattle.bit_words.specs.Words.{AreWithin};
ghost use Rattle.mutex_states.specs.circuit_sizes.Small.{IsShort};
ghost use Rattle.mutex_states.specs.Sizes.{turn_size};
ghost use Rattle.mutex_states.specs.Steps.{Step, with_turns};
ghost use Rattle.mutex_clauses.specs.shapes.Termed.{termed_steps};
ghost use Rattle.mutex_clauses.specs.turns.Turns.{HasRoomFor, next_over, next_size, turn_over, turns_size};

use crate::shapes::TermedSteps;
use crate::turns::turn::Turn;
use crate::turns::variables::{new_literals, new_words};
use bit_gates::Circuit;
use bit_ops::Word;
use bit_terms::term_words;
use cnf_core::Lit;
use mutex_states::Ranks;
use std::alloc::{AllocError, Global};

/// What the regions of a mutex do, and in which order.
#[derive(Clone, Copy)]
pub struct Turns<'a> {
    /// What the regions do.
    pub termed: &'a TermedSteps,
    /// The ranks of the regions.
    pub ranks: &'a Ranks,
    /// The literal that all is in order.
    pub ordered: Lit,
    /// The word of each load.
    pub loads: &'a [Word],
    /// The literal of each conjunct.
    pub roots: &'a [Lit],
}

/// Adds the states after all ranks, from the words of the first state. Returns the last state.
pub fn add_turns(
    alloc: Global,
    circuit: &mut Circuit,
    turns: &Turns<'_>,
    first: Vec<Word>,
) -> Result<Vec<Word>, AllocError>
    requires count { turns.now.ranks.now.count ≡ length turns.now.termed.now.steps }
    requires there { turns.now.ranks.now.start + turns.now.ranks.now.count * turns.now.ranks.now.count ≤ suc circuit.old.vars }
    requires ordered { var_of turns.now.ordered ≤ circuit.old.vars }
    requires loads { All (AreWithin circuit.old.vars) turns.now.loads.now }
    requires roots { AreWithin circuit.old.vars turns.now.roots.now }
    requires first { All (AreWithin circuit.old.vars) first.items }
    requires short { All IsShort first.items }
    requires room { HasRoomFor turns_size (length first.items) turns.now.termed.now circuit.old }
    ensures words { IfOk result (λ last. (list : List Step) → turns.now.termed.now ≡ termed_steps (length first.items) list → last.items
        ≡ (with_turns (length first.items) list turns.now.loads.now turns.now.roots.now turns.now.ordered turns.now.ranks.now.start
        (record { formula = circuit.old; words = first.items })).words) }
    ensures formula { OnOk result ((list : List Step) → turns.now.termed.now ≡ termed_steps (length first.items) list → circuit.new
        ≡ (with_turns (length first.items) list turns.now.loads.now turns.now.roots.now turns.now.ordered turns.now.ranks.now.start
        (record { formula = circuit.old; words = first.items })).formula) }
    ensures count { IfOk result (λ last. length last.items ≡ length first.items) }
    ensures within { IfOk result (λ last. All (AreWithin circuit.new.vars) last.items) }
    ensures larger { OnOk result ((list : List Step) → turns.now.termed.now ≡ termed_steps (length first.items) list
        → IsLarger (turns_size (length first.items) list) circuit.old circuit.new) }
{
    let termed = turns.termed;
    let count = termed.steps.len() as u32;
    let mut words = first;
    for rank in 0..count {
        words = turns.next(alloc, circuit, rank, words.as_slice())?;
    }
    Ok(words)
}

impl Turns<'_> {
    /// Adds a rank, and the state after it. Returns the state.
    fn next(
        &self,
        alloc: Global,
        circuit: &mut Circuit,
        rank: u32,
        before: &[Word],
    ) -> Result<Vec<Word>, AllocError>
        requires rank { rank < self.now.ranks.now.count }
        requires count { self.now.ranks.now.count ≡ length self.now.termed.now.steps }
        requires there { self.now.ranks.now.start + self.now.ranks.now.count * self.now.ranks.now.count ≤ suc circuit.old.vars }
        requires ordered { var_of self.now.ordered ≤ circuit.old.vars }
        requires loads { All (AreWithin circuit.old.vars) self.now.loads.now }
        requires roots { AreWithin circuit.old.vars self.now.roots.now }
        requires before { All (AreWithin circuit.old.vars) before.now }
        requires short { All IsShort before.now }
        requires room { HasRoomFor next_size (length before.now) self.now.termed.now circuit.old }
        ensures words { IfOk result (λ after. after.items
            ≡ (next_over (length before.now) self.now.termed.now self.now.loads.now self.now.roots.now self.now.ordered
            self.now.ranks.now.start (record { formula = circuit.old; words = before.now }) rank).words) }
        ensures formula { OnOk result (circuit.new
            ≡ (next_over (length before.now) self.now.termed.now self.now.loads.now self.now.roots.now self.now.ordered
            self.now.ranks.now.start (record { formula = circuit.old; words = before.now }) rank).formula) }
        ensures count { IfOk result (λ after. length after.items ≡ length before.now) }
        ensures within { IfOk result (λ after. All (AreWithin circuit.new.vars) after.items) }
        ensures larger { OnOk result ((list : List Step) → self.now.termed.now ≡ termed_steps (length before.now) list
            → IsLarger (next_size (length before.now) list) circuit.old circuit.new) }
    {
        let ranked = self.ranks.rank(alloc, circuit, rank)?;
        let after = self.turn(alloc, circuit, ranked.as_slice(), before)?;
        Ok(after)
    }

    /// Adds the state after a rank, from the literals of the rank. Returns the state.
    fn turn(
        &self,
        alloc: Global,
        circuit: &mut Circuit,
        ranked: &[Lit],
        before: &[Word],
    ) -> Result<Vec<Word>, AllocError>
        requires ordered { var_of self.now.ordered ≤ circuit.old.vars }
        requires loads { All (AreWithin circuit.old.vars) self.now.loads.now }
        requires roots { AreWithin circuit.old.vars self.now.roots.now }
        requires ranked { AreWithin circuit.old.vars ranked.now }
        requires before { All (AreWithin circuit.old.vars) before.now }
        requires short { All IsShort before.now }
        requires room { HasRoomFor turn_size (length before.now) self.now.termed.now circuit.old }
        ensures words { IfOk result (λ after. after.items
            ≡ (turn_over (length before.now) self.now.termed.now self.now.loads.now self.now.roots.now self.now.ordered ranked.now
            (record { formula = circuit.old; words = before.now })).words) }
        ensures formula { OnOk result (circuit.new
            ≡ (turn_over (length before.now) self.now.termed.now self.now.loads.now self.now.roots.now self.now.ordered ranked.now
            (record { formula = circuit.old; words = before.now })).formula) }
        ensures count { IfOk result (λ after. length after.items ≡ length before.now) }
        ensures within { IfOk result (λ after. All (AreWithin circuit.new.vars) after.items) }
        ensures larger { OnOk result ((list : List Step) → self.now.termed.now ≡ termed_steps (length before.now) list
            → IsLarger (turn_size (length before.now) list) circuit.old circuit.new) }
    {
        let termed = self.termed;
        let shapes = termed.shapes.as_slice();
        let words = term_words(alloc, circuit, &termed.terms, before)?;
        let shaped = new_literals(alloc, circuit, shapes.len())?;
        let after = new_words(alloc, circuit, before.len())?;
        let turn = Turn {
            ordered: self.ordered,
            loads: self.loads,
            roots: self.roots,
            ranked,
            shaped: shaped.as_slice(),
            words: words.as_slice(),
            after: after.as_slice(),
        };
        turn.add_clauses(alloc, circuit, termed)?;
        Ok(after)
    }
}
