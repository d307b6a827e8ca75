//! Quotients and remainders of words of literals, by a restoring divider.
#![tactic(auto)]

ghost use Rattle.std.specs.Prelude.{◌≡◌, ◌≤◌, ◌*◌, IfOk, OnOk, length};
ghost use Rattle.cnf_core.specs.Clauses.{var_of};
ghost use Rattle.bit_gates.specs.Folded.{HasRoom, IsLarger};
ghost use Rattle.bit_words.specs.Words.{AreWithin};
ghost use Rattle.bit_divide.specs.Laws.{DivisionMeans};
ghost use Rattle.bit_divide.specs.Quotients.{divided_place, divided, division};

use bit_gates::Circuit;
use bit_shift::shift_in;
use bit_words::{add_words, choose_words, invert};
use cnf_core::Lit;
use std::alloc::AllocError;

/// The division is right for a divisor above 0 and at most half of 2 to the power of its width.
pub fn division_means()
    ensures { DivisionMeans }
{}

/// One step: shifts in a bit, subtracts the divisor if it fits, and returns the quotient's bit.
fn divide_place<const W: usize>(
    circuit: &mut Circuit,
    remainder: &mut [Lit; W],
    bit: Lit,
    opposite: &[Lit; W],
) -> Result<Lit, AllocError>
    requires remainder { AreWithin circuit.old.vars remainder.old }
    requires bit { var_of bit ≤ circuit.old.vars }
    requires opposite { AreWithin circuit.old.vars opposite.now }
    requires room { HasRoom (26 * W) circuit.old }
    ensures remainder { OnOk result (remainder.new ≡ (divided_place circuit.old remainder.old bit opposite.now).word) }
    ensures quotient { IfOk result (λ l. l ≡ (divided_place circuit.old remainder.old bit opposite.now).state.literal) }
    ensures formula { OnOk result (circuit.new ≡ (divided_place circuit.old remainder.old bit opposite.now).state.formula) }
    ensures within { OnOk result (AreWithin circuit.new.vars remainder.new) }
    ensures quotient_within { IfOk result (λ l. var_of l ≤ circuit.new.vars) }
    ensures larger { OnOk result (IsLarger (26 * W) circuit.old circuit.new) }
{
    shift_in(remainder, bit);
    let mut difference = *remainder;
    let carry = circuit.constant(true);
    let enough = add_words(circuit, &mut difference, opposite, carry)?;
    choose_words(circuit, enough, &mut difference, remainder)?;
    *remainder = difference;
    Ok(enough)
}

/// The steps from the highest bit of the dividend down; each bit is replaced by the quotient's.
fn divide_places<const W: usize>(
    circuit: &mut Circuit,
    word: &mut [Lit],
    remainder: &mut [Lit; W],
    opposite: &[Lit; W],
) -> Result<(), AllocError>
    requires word { AreWithin circuit.old.vars word.old }
    requires remainder { AreWithin circuit.old.vars remainder.old }
    requires opposite { AreWithin circuit.old.vars opposite.now }
    requires room { HasRoom (26 * (W * length word.old)) circuit.old }
    ensures quotient { OnOk result (word.new ≡ (divided circuit.old remainder.old opposite.now word.old).quotient) }
    ensures remainder { OnOk result (remainder.new ≡ (divided circuit.old remainder.old opposite.now word.old).remainder) }
    ensures formula { OnOk result (circuit.new ≡ (divided circuit.old remainder.old opposite.now word.old).formula) }
    ensures word_within { OnOk result (AreWithin circuit.new.vars word.new) }
    ensures remainder_within { OnOk result (AreWithin circuit.new.vars remainder.new) }
    ensures length { length word.new ≡ length word.old }
    ensures larger { OnOk result (IsLarger (26 * (W * length word.old)) circuit.old circuit.new) }
{
    for place in (0..word.len()).rev() {
        word[place] = divide_place(circuit, remainder, word[place], opposite)?;
    }
    Ok(())
}

/// The quotient and the remainder, which are unspecified if the divisor is 0.
pub fn divide<const W: usize>(
    circuit: &mut Circuit,
    a: &[Lit; W],
    divisor: &[Lit; W],
) -> Result<([Lit; W], [Lit; W]), AllocError>
    requires first { AreWithin circuit.old.vars a.now }
    requires second { AreWithin circuit.old.vars divisor.now }
    requires room { HasRoom (26 * (W * W)) circuit.old }
    ensures quotient { IfOk result (λ p. p.0 ≡ (division circuit.old a.now divisor.now).quotient) }
    ensures remainder { IfOk result (λ p. p.1 ≡ (division circuit.old a.now divisor.now).remainder) }
    ensures formula { OnOk result (circuit.new ≡ (division circuit.old a.now divisor.now).formula) }
    ensures quotient_within { IfOk result (λ p. AreWithin circuit.new.vars p.0) }
    ensures remainder_within { IfOk result (λ p. AreWithin circuit.new.vars p.1) }
    ensures larger { OnOk result (IsLarger (26 * (W * W)) circuit.old circuit.new) }
{
    let mut opposite = *divisor;
    invert(&mut opposite);
    let mut quotient = *a;
    let mut remainder = [circuit.constant(false); W];
    divide_places(circuit, &mut quotient, &mut remainder, &opposite)?;
    Ok((quotient, remainder))
}
