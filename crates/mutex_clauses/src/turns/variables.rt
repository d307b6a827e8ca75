//! New variables: literals, and words of 32.
ghost use Rattle.std.specs.Prelude.{◌≡◌, ℕ, suc, ◌<◌, ◌+◌, ◌-◌, ◌*◌, ◌^◌, length, IfOk, OnOk};
ghost use Rattle.std.specs.List.{All};
ghost use Rattle.cnf_core.specs.declared.cnf.TheConstants.{LIMIT};
ghost use Rattle.bit_words.specs.Words.{AreWithin};
ghost use Rattle.bit_order.specs.Layouts.{word_from};
ghost use Rattle.mutex_states.specs.Steps.{after_from, shaped_from};

use bit_gates::{Circuit, constant};
use bit_ops::Word;
use cnf_core::Lit;
use std::alloc::{AllocError, Global};

/// Adds this many variables, and gives their literals.
pub(crate) fn new_literals(
    alloc: Global,
    circuit: &mut Circuit,
    count: usize,
) -> Result<Vec<Lit>, AllocError>
    requires room { circuit.old.vars + count < LIMIT }
    ensures literals { IfOk result (λ v. v.items ≡ shaped_from circuit.old.vars count) }
    ensures vars { OnOk result (circuit.new.vars ≡ circuit.old.vars + count) }
    ensures clauses { circuit.new.clauses ≡ circuit.old.clauses }
    ensures within { IfOk result (λ v. AreWithin circuit.new.vars v.items) }
{
    let mut literals = Vec::with_capacity(alloc, count)?;
    for _ in 0..count {
        literals.push(circuit.add_variable())?;
    }
    Ok(literals)
}

/// Adds the variables of this many words, and gives the words.
pub(crate) fn new_words(
    alloc: Global,
    circuit: &mut Circuit,
    count: usize,
) -> Result<Vec<Word>, AllocError>
    requires room { circuit.old.vars + 32 * count < LIMIT }
    ensures words { IfOk result (λ v. v.items ≡ after_from circuit.old.vars count) }
    ensures vars { OnOk result (circuit.new.vars ≡ circuit.old.vars + 32 * count) }
    ensures clauses { circuit.new.clauses ≡ circuit.old.clauses }
    ensures within { IfOk result (λ v. All (AreWithin circuit.new.vars) v.items) }
{
    let mut words = Vec::with_capacity(alloc, count)?;
    for _ in 0..count {
        words.push(new_word(circuit))?;
    }
    Ok(words)
}

/// Adds the variables of a word.
fn new_word(circuit: &mut Circuit) -> Word
    requires room { circuit.old.vars + 32 < LIMIT }
    ensures word { result ≡ word_from (suc circuit.old.vars) 32 }
    ensures vars { circuit.new.vars ≡ circuit.old.vars + 32 }
    ensures clauses { circuit.new.clauses ≡ circuit.old.clauses }
    ensures within { AreWithin circuit.new.vars result }
{
    let mut word = [constant(false); 32];
    for place in 0..32 {
        word[31 - place] = circuit.add_variable();
    }
    word
}
