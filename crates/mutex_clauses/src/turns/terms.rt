//! Clauses by which words have the values of terms.
ghost use Rattle.std.specs.Prelude.{◌≡◌, ◌<◌, ◌≤◌, ◌+◌, get_or, false, length, OnOk};
ghost use Rattle.std.specs.List.{All, flat_map};
ghost use Rattle.cnf_core.specs.Clauses.{var_of};
ghost use Rattle.cnf_core.specs.declared.cnf.TheConstants.{LIMIT};
ghost use Rattle.bit_gates.specs.Folded.{constant};
ghost use Rattle.bit_words.specs.Words.{AreWithin};
ghost use Rattle.bit_order.specs.Clauses.{with_clause};
ghost use Rattle.bit_terms.specs.Terms.{word_at};
ghost use Rattle.bit_blast.specs.Reads.{value_clauses, with_clauses};
ghost use Rattle.mutex_clauses.specs.turns.Terms.{cell_clauses, known_clauses, load_clauses, none_clauses, shape_clauses, some_clause, test_clauses, word_clauses};

use crate::shapes::{LoadTerm, TestTerm};
use bit_blast::add_value;
use bit_gates::{Circuit, constant};
use bit_ops::Word;
use bit_order::add_clause;
use bit_terms::word_at;
use cnf_core::Lit;
use std::alloc::{AllocError, Global};
use sym_terms::Id;

/// Two literals, and the words of all terms. Where both literals are true, other words have the
/// values of terms.
#[derive(Clone, Copy)]
pub(crate) struct Both<'a> {
    /// The first literal.
    pub(crate) first: Lit,
    /// The second literal.
    pub(crate) second: Lit,
    /// The words of the terms.
    pub(crate) terms: &'a [Word],
}

/// The literal at a place, or false past the last.
pub(crate) fn literal_at(literals: &[Lit], place: usize) -> Lit
    ensures { result ≡ get_or literals.now place (constant false) }
{
    literals.get(place).copied().unwrap_or(constant(false))
}

impl Both<'_> {
    /// Adds clauses: the word at a place has the value of a term. Adds none if there is no such word.
    fn add_word(
        &self,
        alloc: Global,
        circuit: &mut Circuit,
        words: &[Word],
        place: usize,
        term: Id,
    ) -> Result<(), AllocError>
        requires first { var_of self.now.first ≤ circuit.old.vars }
        requires second { var_of self.now.second ≤ circuit.old.vars }
        requires terms { All (AreWithin circuit.old.vars) self.now.terms.now }
        requires words { All (AreWithin circuit.old.vars) words.now }
        requires room { length circuit.old.clauses
            + length (word_clauses self.now.first self.now.second self.now.terms.now words.now place term) < LIMIT }
        ensures formula { OnOk result (circuit.new ≡ with_clauses circuit.old
            (word_clauses self.now.first self.now.second self.now.terms.now words.now place term)) }
        ensures vars { OnOk result (circuit.new.vars ≡ circuit.old.vars) }
    {
        match words.get(place) {
            Some(word) => self.add_term(alloc, circuit, word, term),
            None => Ok(()),
        }
    }

    /// Adds clauses: a word has the value of a term.
    fn add_term(
        &self,
        alloc: Global,
        circuit: &mut Circuit,
        word: &Word,
        term: Id,
    ) -> Result<(), AllocError>
        requires first { var_of self.now.first ≤ circuit.old.vars }
        requires second { var_of self.now.second ≤ circuit.old.vars }
        requires terms { All (AreWithin circuit.old.vars) self.now.terms.now }
        requires word { AreWithin circuit.old.vars word.now }
        requires room { length circuit.old.clauses
            + length (value_clauses self.now.first self.now.second word.now (word_at self.now.terms.now term)) < LIMIT }
        ensures formula { OnOk result (circuit.new ≡ with_clauses circuit.old
            (value_clauses self.now.first self.now.second word.now (word_at self.now.terms.now term))) }
        ensures vars { OnOk result (circuit.new.vars ≡ circuit.old.vars) }
    {
        let _one = circuit.vars();
        let value = word_at(self.terms, term.place());
        add_value(alloc, circuit, self.first, self.second, word, &value)
    }

    /// The same, if there is a term.
    fn add_known(
        &self,
        alloc: Global,
        circuit: &mut Circuit,
        words: &[Word],
        place: usize,
        term: Option<Id>,
    ) -> Result<(), AllocError>
        requires first { var_of self.now.first ≤ circuit.old.vars }
        requires second { var_of self.now.second ≤ circuit.old.vars }
        requires terms { All (AreWithin circuit.old.vars) self.now.terms.now }
        requires words { All (AreWithin circuit.old.vars) words.now }
        requires room { length circuit.old.clauses
            + length (known_clauses self.now.first self.now.second self.now.terms.now words.now place term) < LIMIT }
        ensures formula { OnOk result (circuit.new ≡ with_clauses circuit.old
            (known_clauses self.now.first self.now.second self.now.terms.now words.now place term)) }
        ensures vars { OnOk result (circuit.new.vars ≡ circuit.old.vars) }
    {
        match term {
            Some(term) => self.add_word(alloc, circuit, words, place, term),
            None => Ok(()),
        }
    }

    /// Adds clauses: the words of a state have the values of a shape's terms.
    pub(crate) fn add_shape(
        &self,
        alloc: Global,
        circuit: &mut Circuit,
        after: &[Word],
        shape: &[Id],
    ) -> Result<(), AllocError>
        requires first { var_of self.now.first ≤ circuit.old.vars }
        requires second { var_of self.now.second ≤ circuit.old.vars }
        requires terms { All (AreWithin circuit.old.vars) self.now.terms.now }
        requires after { All (AreWithin circuit.old.vars) after.now }
        requires room { length circuit.old.clauses
            + length (shape_clauses self.now.first self.now.second self.now.terms.now after.now shape.now) < LIMIT }
        ensures formula { OnOk result (circuit.new ≡ with_clauses circuit.old
            (shape_clauses self.now.first self.now.second self.now.terms.now after.now shape.now)) }
        ensures vars { OnOk result (circuit.new.vars ≡ circuit.old.vars) }
    {
        for (cell, term) in shape.iter().enumerate() {
            self.add_word(alloc, circuit, after, cell, *term)?;
        }
        Ok(())
    }

    /// The same where only some cells have a term.
    pub(crate) fn add_cells(
        &self,
        alloc: Global,
        circuit: &mut Circuit,
        after: &[Word],
        cells: &[Option<Id>],
    ) -> Result<(), AllocError>
        requires first { var_of self.now.first ≤ circuit.old.vars }
        requires second { var_of self.now.second ≤ circuit.old.vars }
        requires terms { All (AreWithin circuit.old.vars) self.now.terms.now }
        requires after { All (AreWithin circuit.old.vars) after.now }
        requires room { length circuit.old.clauses
            + length (cell_clauses self.now.first self.now.second self.now.terms.now after.now cells.now) < LIMIT }
        ensures formula { OnOk result (circuit.new ≡ with_clauses circuit.old
            (cell_clauses self.now.first self.now.second self.now.terms.now after.now cells.now)) }
        ensures vars { OnOk result (circuit.new.vars ≡ circuit.old.vars) }
    {
        for (cell, term) in cells.iter().enumerate() {
            self.add_known(alloc, circuit, after, cell, *term)?;
        }
        Ok(())
    }

    /// Adds clauses: loads have the values of their terms.
    pub(crate) fn add_loads(
        &self,
        alloc: Global,
        circuit: &mut Circuit,
        words: &[Word],
        loads: &[LoadTerm],
    ) -> Result<(), AllocError>
        requires first { var_of self.now.first ≤ circuit.old.vars }
        requires second { var_of self.now.second ≤ circuit.old.vars }
        requires terms { All (AreWithin circuit.old.vars) self.now.terms.now }
        requires words { All (AreWithin circuit.old.vars) words.now }
        requires room { length circuit.old.clauses
            + length (load_clauses self.now.first self.now.second self.now.terms.now words.now loads.now) < LIMIT }
        ensures formula { OnOk result (circuit.new ≡ with_clauses circuit.old
            (load_clauses self.now.first self.now.second self.now.terms.now words.now loads.now)) }
        ensures vars { OnOk result (circuit.new.vars ≡ circuit.old.vars) }
    {
        for load in loads {
            self.add_known(alloc, circuit, words, load.load as usize, load.term)?;
        }
        Ok(())
    }

    /// Adds clauses: tests come out as wanted, if their conjuncts hold.
    pub(crate) fn add_tests(
        &self,
        alloc: Global,
        circuit: &mut Circuit,
        roots: &[Lit],
        tests: &[TestTerm],
    ) -> Result<(), AllocError>
        requires first { var_of self.now.first ≤ circuit.old.vars }
        requires second { var_of self.now.second ≤ circuit.old.vars }
        requires terms { All (AreWithin circuit.old.vars) self.now.terms.now }
        requires roots { AreWithin circuit.old.vars roots.now }
        requires room { length circuit.old.clauses
            + length (flat_map (test_clauses self.now.first self.now.second self.now.terms.now roots.now) tests.now) < LIMIT }
        ensures formula { OnOk result (circuit.new ≡ with_clauses circuit.old
            (flat_map (test_clauses self.now.first self.now.second self.now.terms.now roots.now) tests.now)) }
        ensures vars { OnOk result (circuit.new.vars ≡ circuit.old.vars) }
    {
        for test in tests {
            self.add_test(alloc, circuit, roots, *test)?;
        }
        Ok(())
    }

    /// Adds clauses: a test comes out as wanted, if its conjunct holds.
    fn add_test(
        &self,
        alloc: Global,
        circuit: &mut Circuit,
        roots: &[Lit],
        test: TestTerm,
    ) -> Result<(), AllocError>
        requires first { var_of self.now.first ≤ circuit.old.vars }
        requires second { var_of self.now.second ≤ circuit.old.vars }
        requires terms { All (AreWithin circuit.old.vars) self.now.terms.now }
        requires roots { AreWithin circuit.old.vars roots.now }
        requires room { length circuit.old.clauses
            + length (test_clauses self.now.first self.now.second self.now.terms.now roots.now test) < LIMIT }
        ensures formula { OnOk result (circuit.new ≡ with_clauses circuit.old
            (test_clauses self.now.first self.now.second self.now.terms.now roots.now test)) }
        ensures vars { OnOk result (circuit.new.vars ≡ circuit.old.vars) }
    {
        let _one = circuit.vars();
        let root = literal_at(roots, test.conjunct);
        let word = word_at(self.terms, test.term.place());
        if test.wanted {
            self.add_some(alloc, circuit, root, &word)
        } else {
            self.add_none(alloc, circuit, root, &word)
        }
    }

    /// Adds the clause: if a literal is true, some bit of a word is.
    fn add_some(
        &self,
        alloc: Global,
        circuit: &mut Circuit,
        root: Lit,
        word: &Word,
    ) -> Result<(), AllocError>
        requires first { var_of self.now.first ≤ circuit.old.vars }
        requires second { var_of self.now.second ≤ circuit.old.vars }
        requires root { var_of root ≤ circuit.old.vars }
        requires word { AreWithin circuit.old.vars word.now }
        requires room { length circuit.old.clauses + 1 < LIMIT }
        ensures formula { OnOk result (circuit.new ≡ with_clause circuit.old
            (some_clause self.now.first self.now.second self.now.terms.now root word.now)) }
    {
        let mut clause = Vec::with_capacity(alloc, 35)?;
        clause.push(self.first.opposite())?;
        clause.push(self.second.opposite())?;
        clause.push(root.opposite())?;
        clause.extend_from_slice(word)?;
        add_clause(alloc, circuit, clause.as_slice())
    }

    /// Adds clauses: if a literal is true, no bit of a word is.
    fn add_none(
        &self,
        alloc: Global,
        circuit: &mut Circuit,
        root: Lit,
        word: &Word,
    ) -> Result<(), AllocError>
        requires first { var_of self.now.first ≤ circuit.old.vars }
        requires second { var_of self.now.second ≤ circuit.old.vars }
        requires root { var_of root ≤ circuit.old.vars }
        requires word { AreWithin circuit.old.vars word.now }
        requires room { length circuit.old.clauses + length word.now < LIMIT }
        ensures formula { OnOk result (circuit.new ≡ with_clauses circuit.old
            (none_clauses self.now.first self.now.second self.now.terms.now root word.now)) }
        ensures vars { OnOk result (circuit.new.vars ≡ circuit.old.vars) }
    {
        let (first, second) = (self.first.opposite(), self.second.opposite());
        let other = root.opposite();
        for bit in word {
            add_clause(alloc, circuit, &[first, second, other, bit.opposite()])?;
        }
        Ok(())
    }
}
