//! Circuits over words: lists of literals, the lowest bit first.
#![tactic(auto)]

ghost use Rattle.std.specs.Prelude.{◌≡◌, ◌≤◌, ◌*◌, IfOk, OnOk, length, replicate, false};
ghost use Rattle.cnf_core.specs.Clauses.{var_of};
ghost use Rattle.bit_gates.specs.Folded.{HasRoom, IsLarger, constant, kept};
ghost use Rattle.bit_words.specs.Laws.{WordsMean};
ghost use Rattle.bit_words.specs.Words.{
  AreWithin,
  gated_words,
  chosen_words,
  added_place,
  word_sum,
  compared_place,
  less_literal,
  any_of,
  inverted_word,
};

use bit_gates::Circuit;
use cnf_core::{Gate, Lit};
use std::alloc::AllocError;

/// The result of each circuit has the right value in every model of the clauses.
pub fn words_mean()
    ensures { WordsMean }
{}

/// Applies a gate at each place to the word and another.
pub fn gate_words(
    circuit: &mut Circuit,
    gate_of: Gate,
    word: &mut [Lit],
    other: &[Lit],
) -> Result<(), AllocError>
    requires lengths { length other.now ≡ length word.old }
    requires first { AreWithin circuit.old.vars word.old }
    requires second { AreWithin circuit.old.vars other.now }
    requires room { HasRoom (4 * length word.old) circuit.old }
    ensures word { OnOk result (word.new ≡ (gated_words gate_of circuit.old word.old other.now).word) }
    ensures formula { OnOk result (circuit.new ≡ (gated_words gate_of circuit.old word.old other.now).state) }
    ensures within { OnOk result (AreWithin circuit.new.vars word.new) }
    ensures length { length word.new ≡ length word.old }
    ensures larger { OnOk result (IsLarger (4 * length word.old) circuit.old circuit.new) }
{
    for place in 0..word.len() {
        word[place] = circuit.gate(gate_of, word[place], other[place])?;
    }
    Ok(())
}

/// Applies a gate at each place to the word and one literal.
pub fn gate_by(
    circuit: &mut Circuit,
    gate_of: Gate,
    word: &mut [Lit],
    by: Lit,
) -> Result<(), AllocError>
    requires by { var_of by ≤ circuit.old.vars }
    requires word { AreWithin circuit.old.vars word.old }
    requires room { HasRoom (4 * length word.old) circuit.old }
    ensures word { OnOk result (word.new ≡ (gated_words gate_of circuit.old word.old (replicate (length word.old) by)).word) }
    ensures formula { OnOk result (circuit.new ≡ (gated_words gate_of circuit.old word.old (replicate (length word.old) by)).state) }
    ensures within { OnOk result (AreWithin circuit.new.vars word.new) }
    ensures length { length word.new ≡ length word.old }
    ensures larger { OnOk result (IsLarger (4 * length word.old) circuit.old circuit.new) }
{
    for place in 0..word.len() {
        word[place] = circuit.gate(gate_of, word[place], by)?;
    }
    Ok(())
}

/// Keeps the word if the condition is true, and else replaces it by the other.
pub fn choose_words(
    circuit: &mut Circuit,
    condition: Lit,
    word: &mut [Lit],
    other: &[Lit],
) -> Result<(), AllocError>
    requires condition { var_of condition ≤ circuit.old.vars }
    requires lengths { length other.now ≡ length word.old }
    requires first { AreWithin circuit.old.vars word.old }
    requires second { AreWithin circuit.old.vars other.now }
    requires room { HasRoom (9 * length word.old) circuit.old }
    ensures word { OnOk result (word.new ≡ (chosen_words condition circuit.old word.old other.now).word) }
    ensures formula { OnOk result (circuit.new ≡ (chosen_words condition circuit.old word.old other.now).state) }
    ensures within { OnOk result (AreWithin circuit.new.vars word.new) }
    ensures length { length word.new ≡ length word.old }
    ensures larger { OnOk result (IsLarger (9 * length word.old) circuit.old circuit.new) }
{
    for place in 0..word.len() {
        word[place] = circuit.choose(condition, word[place], other[place])?;
    }
    Ok(())
}

/// One place of an adder: returns the literals of the sum and of the carry.
fn add_place(circuit: &mut Circuit, a: Lit, b: Lit, carry: Lit) -> Result<(Lit, Lit), AllocError>
    requires first { var_of a ≤ circuit.old.vars }
    requires second { var_of b ≤ circuit.old.vars }
    requires carry { var_of carry ≤ circuit.old.vars }
    requires room { HasRoom 17 circuit.old }
    ensures sum { IfOk result (λ p. p.0 ≡ (added_place (kept circuit.old carry) a b).literal) }
    ensures carry { IfOk result (λ p. p.1 ≡ (added_place (kept circuit.old carry) a b).state.literal) }
    ensures formula { OnOk result (circuit.new ≡ (added_place (kept circuit.old carry) a b).state.formula) }
    ensures sum_within { IfOk result (λ p. var_of p.0 ≤ circuit.new.vars) }
    ensures carry_within { IfOk result (λ p. var_of p.1 ≤ circuit.new.vars) }
    ensures larger { OnOk result (IsLarger 17 circuit.old circuit.new) }
{
    let half = circuit.xor(a, b)?;
    let sum = circuit.xor(half, carry)?;
    let two = circuit.and(a, b)?;
    let one = circuit.and(half, carry)?;
    Ok((sum, circuit.or(two, one)?))
}

/// Adds another word and a carry to the word, and returns the carry out of the top place.
pub fn add_words(
    circuit: &mut Circuit,
    word: &mut [Lit],
    other: &[Lit],
    carry: Lit,
) -> Result<Lit, AllocError>
    requires lengths { length other.now ≡ length word.old }
    requires first { AreWithin circuit.old.vars word.old }
    requires second { AreWithin circuit.old.vars other.now }
    requires carry { var_of carry ≤ circuit.old.vars }
    requires room { HasRoom (17 * length word.old) circuit.old }
    ensures word { OnOk result (word.new ≡ (word_sum circuit.old word.old other.now carry).word) }
    ensures carry { IfOk result (λ l. l ≡ (word_sum circuit.old word.old other.now carry).state.literal) }
    ensures formula { OnOk result (circuit.new ≡ (word_sum circuit.old word.old other.now carry).state.formula) }
    ensures within { OnOk result (AreWithin circuit.new.vars word.new) }
    ensures carry_within { IfOk result (λ l. var_of l ≤ circuit.new.vars) }
    ensures length { length word.new ≡ length word.old }
    ensures larger { OnOk result (IsLarger (17 * length word.old) circuit.old circuit.new) }
{
    let mut carry = carry;
    for place in 0..word.len() {
        let (sum, next) = add_place(circuit, word[place], other[place], carry)?;
        word[place] = sum;
        carry = next;
    }
    Ok(carry)
}

/// Whether one of the literals is true.
pub fn any(circuit: &mut Circuit, word: &[Lit]) -> Result<Lit, AllocError>
    requires word { AreWithin circuit.old.vars word.now }
    requires room { HasRoom (3 * length word.now) circuit.old }
    ensures literal { IfOk result (λ l. l ≡ (any_of (kept circuit.old (constant false)) word.now).literal) }
    ensures formula { OnOk result (circuit.new ≡ (any_of (kept circuit.old (constant false)) word.now).formula) }
    ensures within { IfOk result (λ l. var_of l ≤ circuit.new.vars) }
    ensures larger { OnOk result (IsLarger (3 * length word.now) circuit.old circuit.new) }
{
    let mut known = circuit.constant(false);
    for lit in word {
        known = circuit.or(known, *lit)?;
    }
    Ok(known)
}

/// Negates each literal of the word.
pub fn invert(word: &mut [Lit])
    ensures { word.new ≡ inverted_word word.old }
{
    for place in 0..word.len() {
        word[place] = word[place].opposite();
    }
}

/// Whether the first number is smaller up to this place, given the answer for the places below.
fn compare_place(circuit: &mut Circuit, low: Lit, a: Lit, b: Lit) -> Result<Lit, AllocError>
    requires low { var_of low ≤ circuit.old.vars }
    requires first { var_of a ≤ circuit.old.vars }
    requires second { var_of b ≤ circuit.old.vars }
    requires room { HasRoom 12 circuit.old }
    ensures literal { IfOk result (λ l. l ≡ (compared_place (kept circuit.old low) a b).literal) }
    ensures formula { OnOk result (circuit.new ≡ (compared_place (kept circuit.old low) a b).formula) }
    ensures within { IfOk result (λ l. var_of l ≤ circuit.new.vars) }
    ensures larger { OnOk result (IsLarger 12 circuit.old circuit.new) }
{
    let above = circuit.and(a.opposite(), b)?;
    let not_below = circuit.or(a.opposite(), b)?;
    let kept = circuit.and(low, not_below)?;
    circuit.or(above, kept)
}

/// Whether the first number is smaller; `low` if they are equal.
pub fn compare(circuit: &mut Circuit, low: Lit, a: &[Lit], b: &[Lit]) -> Result<Lit, AllocError>
    requires lengths { length b.now ≡ length a.now }
    requires low { var_of low ≤ circuit.old.vars }
    requires first { AreWithin circuit.old.vars a.now }
    requires second { AreWithin circuit.old.vars b.now }
    requires room { HasRoom (12 * length a.now) circuit.old }
    ensures literal { IfOk result (λ l. l ≡ (less_literal (kept circuit.old low) a.now b.now).literal) }
    ensures formula { OnOk result (circuit.new ≡ (less_literal (kept circuit.old low) a.now b.now).formula) }
    ensures within { IfOk result (λ l. var_of l ≤ circuit.new.vars) }
    ensures larger { OnOk result (IsLarger (12 * length a.now) circuit.old circuit.new) }
{
    let mut low = low;
    for place in 0..a.len() {
        low = compare_place(circuit, low, a[place], b[place])?;
    }
    Ok(low)
}
