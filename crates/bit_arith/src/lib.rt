//! Sums, differences and products of words of literals.
#![tactic(auto)]

ghost use Rattle.std.specs.Prelude.{◌≡◌, ◌≤◌, ◌*◌, IfOk, OnOk, length};
ghost use Rattle.cnf_core.specs.Clauses.{var_of};
ghost use Rattle.bit_gates.specs.Folded.{HasRoom, IsLarger};
ghost use Rattle.bit_words.specs.Words.{AreWithin};
ghost use Rattle.bit_arith.specs.Laws.{ArithMean};
ghost use Rattle.bit_arith.specs.Sums.{plus_word, minus_word, with_row, with_product, times_word};

use bit_gates::Circuit;
use bit_words::{add_words, gate_by, invert};
use cnf_core::{Gate, Lit};
use std::alloc::AllocError;

/// Sums, differences and products are right modulo 2 to the width, and at 32 bits as for `int`.
pub fn arith_means()
    ensures { ArithMean }
{}

/// The sum of two words.
pub fn plus<const W: usize>(
    circuit: &mut Circuit,
    a: &[Lit; W],
    b: &[Lit; W],
) -> Result<[Lit; W], AllocError>
    requires first { AreWithin circuit.old.vars a.now }
    requires second { AreWithin circuit.old.vars b.now }
    requires room { HasRoom (17 * W) circuit.old }
    ensures word { IfOk result (λ out. out ≡ (plus_word circuit.old a.now b.now).word) }
    ensures formula { OnOk result (circuit.new ≡ (plus_word circuit.old a.now b.now).state) }
    ensures within { IfOk result (λ out. AreWithin circuit.new.vars out) }
    ensures larger { OnOk result (IsLarger (17 * W) circuit.old circuit.new) }
{
    let mut sum = *a;
    let carry = circuit.constant(false);
    add_words(circuit, &mut sum, b, carry)?;
    Ok(sum)
}

/// The difference of two words.
pub fn minus<const W: usize>(
    circuit: &mut Circuit,
    a: &[Lit; W],
    b: &[Lit; W],
) -> Result<[Lit; W], AllocError>
    requires first { AreWithin circuit.old.vars a.now }
    requires second { AreWithin circuit.old.vars b.now }
    requires room { HasRoom (17 * W) circuit.old }
    ensures word { IfOk result (λ out. out ≡ (minus_word circuit.old a.now b.now).word) }
    ensures formula { OnOk result (circuit.new ≡ (minus_word circuit.old a.now b.now).state) }
    ensures within { IfOk result (λ out. AreWithin circuit.new.vars out) }
    ensures larger { OnOk result (IsLarger (17 * W) circuit.old circuit.new) }
{
    let mut opposite = *b;
    invert(&mut opposite);
    let mut difference = *a;
    let carry = circuit.constant(true);
    add_words(circuit, &mut difference, &opposite, carry)?;
    Ok(difference)
}

/// Adds one row of a product.
fn add_row<const W: usize>(
    circuit: &mut Circuit,
    word: &mut [Lit],
    a: &[Lit; W],
    bit: Lit,
) -> Result<(), AllocError>
    requires short { length word.old ≤ W }
    requires word { AreWithin circuit.old.vars word.old }
    requires factor { AreWithin circuit.old.vars a.now }
    requires bit { var_of bit ≤ circuit.old.vars }
    requires room { HasRoom (21 * length word.old) circuit.old }
    ensures word { OnOk result (word.new ≡ (with_row circuit.old word.old a.now bit).word) }
    ensures formula { OnOk result (circuit.new ≡ (with_row circuit.old word.old a.now bit).state) }
    ensures within { OnOk result (AreWithin circuit.new.vars word.new) }
    ensures length { length word.new ≡ length word.old }
    ensures larger { OnOk result (IsLarger (21 * length word.old) circuit.old circuit.new) }
{
    let len = word.len();
    let mut row = *a;
    gate_by(circuit, Gate::And, &mut row[..len], bit)?;
    let carry = circuit.constant(false);
    add_words(circuit, word, &row[..len], carry)?;
    Ok(())
}

/// Adds a product, row by row, each row one place above the one before it.
fn add_product<const W: usize>(
    circuit: &mut Circuit,
    word: &mut [Lit],
    a: &[Lit; W],
    b: &[Lit],
) -> Result<(), AllocError>
    requires short { length word.old ≤ W }
    requires lengths { length b.now ≤ length word.old }
    requires word { AreWithin circuit.old.vars word.old }
    requires first { AreWithin circuit.old.vars a.now }
    requires second { AreWithin circuit.old.vars b.now }
    requires room { HasRoom (21 * (W * length b.now)) circuit.old }
    ensures word { OnOk result (word.new ≡ (with_product circuit.old word.old a.now b.now).word) }
    ensures formula { OnOk result (circuit.new ≡ (with_product circuit.old word.old a.now b.now).state) }
    ensures within { OnOk result (AreWithin circuit.new.vars word.new) }
    ensures length { length word.new ≡ length word.old }
    ensures larger { OnOk result (IsLarger (21 * (W * length b.now)) circuit.old circuit.new) }
{
    for place in 0..b.len() {
        add_row(circuit, &mut word[place..], a, b[place])?;
    }
    Ok(())
}

/// The product of two words.
pub fn times<const W: usize>(
    circuit: &mut Circuit,
    a: &[Lit; W],
    b: &[Lit; W],
) -> Result<[Lit; W], AllocError>
    requires first { AreWithin circuit.old.vars a.now }
    requires second { AreWithin circuit.old.vars b.now }
    requires room { HasRoom (21 * (W * W)) circuit.old }
    ensures word { IfOk result (λ out. out ≡ (times_word circuit.old a.now b.now).word) }
    ensures formula { OnOk result (circuit.new ≡ (times_word circuit.old a.now b.now).state) }
    ensures within { IfOk result (λ out. AreWithin circuit.new.vars out) }
    ensures larger { OnOk result (IsLarger (21 * (W * W)) circuit.old circuit.new) }
{
    let mut product = [circuit.constant(false); W];
    add_product(circuit, &mut product, a, b)?;
    Ok(product)
}
