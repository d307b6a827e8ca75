//! Signed words of literals, in two's complement: quotients, remainders and comparisons.
#![tactic(auto)]

ghost use Rattle.std.specs.Prelude.{◌≡◌, ◌<◌, ◌≤◌, ◌+◌, ◌*◌, IfOk, OnOk, length};
ghost use Rattle.cnf_core.specs.Clauses.{var_of};
ghost use Rattle.bit_gates.specs.Folded.{HasRoom, IsLarger};
ghost use Rattle.bit_words.specs.Words.{AreWithin};
ghost use Rattle.bit_divide.specs.bit_shift.Shifts.{top};
ghost use Rattle.bit_signed.specs.Laws.{SignedMean};
ghost use Rattle.bit_signed.specs.Signed.{negated_where, magnitudes_divided, quotient_word, remainder_word, with_sign_inverted, compared_signed};

use bit_divide::divide;
use bit_gates::Circuit;
use bit_words::{add_words, compare, gate_by};
use cnf_core::{Gate, Lit};
use std::alloc::AllocError;

/// At 32 bits, quotients, remainders and comparisons are those of `int`.
pub fn signed_means()
    ensures { SignedMean }
{}

/// The highest literal: whether the number is negative.
pub fn sign<const W: usize>(a: &[Lit; W]) -> Lit
    requires { 0 < W }
    ensures { result ≡ top a.now }
{
    a[W - 1]
}

/// Negates the number in place if the literal is true.
fn negate_where<const W: usize>(
    circuit: &mut Circuit,
    word: &mut [Lit; W],
    sign: Lit,
) -> Result<(), AllocError>
    requires word { AreWithin circuit.old.vars word.old }
    requires sign { var_of sign ≤ circuit.old.vars }
    requires room { HasRoom (21 * W) circuit.old }
    ensures word { OnOk result (word.new ≡ (negated_where circuit.old word.old sign).word) }
    ensures formula { OnOk result (circuit.new ≡ (negated_where circuit.old word.old sign).state) }
    ensures within { OnOk result (AreWithin circuit.new.vars word.new) }
    ensures larger { OnOk result (IsLarger (21 * W) circuit.old circuit.new) }
{
    gate_by(circuit, Gate::Xor, word, sign)?;
    let zeros = [circuit.constant(false); W];
    add_words(circuit, word, &zeros, sign)?;
    Ok(())
}

/// The quotient and the remainder of the magnitudes.
fn divide_magnitudes<const W: usize>(
    circuit: &mut Circuit,
    a: &[Lit; W],
    divisor: &[Lit; W],
) -> Result<([Lit; W], [Lit; W]), AllocError>
    requires some { 0 < W }
    requires first { AreWithin circuit.old.vars a.now }
    requires second { AreWithin circuit.old.vars divisor.now }
    requires room { HasRoom (26 * (W * W) + 42 * W) circuit.old }
    ensures quotient { IfOk result (λ p. p.0 ≡ (magnitudes_divided circuit.old a.now divisor.now).quotient) }
    ensures remainder { IfOk result (λ p. p.1 ≡ (magnitudes_divided circuit.old a.now divisor.now).remainder) }
    ensures formula { OnOk result (circuit.new ≡ (magnitudes_divided circuit.old a.now divisor.now).formula) }
    ensures quotient_within { IfOk result (λ p. AreWithin circuit.new.vars p.0) }
    ensures remainder_within { IfOk result (λ p. AreWithin circuit.new.vars p.1) }
    ensures larger { OnOk result (IsLarger (26 * (W * W) + 42 * W) circuit.old circuit.new) }
{
    let mut above = *a;
    negate_where(circuit, &mut above, sign(a))?;
    let mut below = *divisor;
    negate_where(circuit, &mut below, sign(divisor))?;
    divide(circuit, &above, &below)
}

/// The quotient, rounded towards zero; unspecified if the divisor is 0.
pub fn quotient<const W: usize>(
    circuit: &mut Circuit,
    a: &[Lit; W],
    divisor: &[Lit; W],
) -> Result<[Lit; W], AllocError>
    requires some { 0 < W }
    requires first { AreWithin circuit.old.vars a.now }
    requires second { AreWithin circuit.old.vars divisor.now }
    requires room { HasRoom (26 * (W * W) + 63 * W + 4) circuit.old }
    ensures word { IfOk result (λ out. out ≡ (quotient_word circuit.old a.now divisor.now).word) }
    ensures formula { OnOk result (circuit.new ≡ (quotient_word circuit.old a.now divisor.now).state) }
    ensures within { IfOk result (λ out. AreWithin circuit.new.vars out) }
    ensures larger { OnOk result (IsLarger (26 * (W * W) + 63 * W + 4) circuit.old circuit.new) }
{
    let (mut quotient, _) = divide_magnitudes(circuit, a, divisor)?;
    let differ = circuit.xor(sign(a), sign(divisor))?;
    negate_where(circuit, &mut quotient, differ)?;
    Ok(quotient)
}

/// The remainder, with the dividend's sign; unspecified if the divisor is 0.
pub fn remainder<const W: usize>(
    circuit: &mut Circuit,
    a: &[Lit; W],
    divisor: &[Lit; W],
) -> Result<[Lit; W], AllocError>
    requires some { 0 < W }
    requires first { AreWithin circuit.old.vars a.now }
    requires second { AreWithin circuit.old.vars divisor.now }
    requires room { HasRoom (26 * (W * W) + 63 * W) circuit.old }
    ensures word { IfOk result (λ out. out ≡ (remainder_word circuit.old a.now divisor.now).word) }
    ensures formula { OnOk result (circuit.new ≡ (remainder_word circuit.old a.now divisor.now).state) }
    ensures within { IfOk result (λ out. AreWithin circuit.new.vars out) }
    ensures larger { OnOk result (IsLarger (26 * (W * W) + 63 * W) circuit.old circuit.new) }
{
    let (_, mut remainder) = divide_magnitudes(circuit, a, divisor)?;
    negate_where(circuit, &mut remainder, sign(a))?;
    Ok(remainder)
}

/// Inverts the sign bit: words in this form compare, unsigned, like their signed numbers.
fn bias<const W: usize>(word: &mut [Lit; W])
    requires { 0 < W }
    ensures { word.new ≡ with_sign_inverted word.old }
{
    word[W - 1] = word[W - 1].opposite();
}

/// Whether the first number is smaller; `low` if they are equal.
#[tactic(auto, using(crate::proofs::Moves::biased_within, crate::proofs::Moves::biased_length))]
pub fn compare_signed<const W: usize>(
    circuit: &mut Circuit,
    low: Lit,
    a: &[Lit; W],
    b: &[Lit; W],
) -> Result<Lit, AllocError>
    requires some { 0 < W }
    requires low { var_of low ≤ circuit.old.vars }
    requires first { AreWithin circuit.old.vars a.now }
    requires second { AreWithin circuit.old.vars b.now }
    requires room { HasRoom (12 * W) circuit.old }
    ensures literal { IfOk result (λ l. l ≡ (compared_signed circuit.old low a.now b.now).literal) }
    ensures formula { OnOk result (circuit.new ≡ (compared_signed circuit.old low a.now b.now).formula) }
    ensures within { IfOk result (λ l. var_of l ≤ circuit.new.vars) }
    ensures larger { OnOk result (IsLarger (12 * W) circuit.old circuit.new) }
{
    let (mut first, mut second) = (*a, *b);
    bias(&mut first);
    bias(&mut second);
    compare(circuit, low, &first, &second)
}
