//! The circuits of the operators of `int`, over words of 32 literals, the lowest bit first.
#![tactic(auto)]

ghost use Rattle.std.specs.Prelude.{◌≡◌, ◌≤◌, ◌*◌, ◌∷◌, IfOk, OnOk, length, take};
ghost use Rattle.cnf_core.specs.Clauses.{var_of};
ghost use Rattle.bit_gates.specs.Folded.{HasRoom, IsLarger, kept};
ghost use Rattle.bit_words.specs.Words.{AreWithin, gated_words};
ghost use Rattle.bit_arith.specs.Sums.{minus_word, zeros};
ghost use Rattle.bit_shift.specs.Shifts.{shifted};
ghost use Rattle.bit_ops.specs.Laws.{OpsMean};
ghost use Rattle.bit_ops.specs.Ops.{differ, kept_where, where_some, where_near, unary_word, binary_word};
ghost use Rattle.bit_ops.specs.Sizes.{unary_size, binary_size};

use bit_arith::{minus, plus, times};
use bit_gates::Circuit;
use bit_shift::{Direction, shift};
use bit_signed::{compare_signed, quotient, remainder, sign};
use bit_words::{any, gate_by, gate_words, invert};
use cnf_core::{Gate, Lit};
use int_ops::{BinOp, UnOp};
use std::alloc::AllocError;

/// A word, the lowest bit first.
pub type Word = [Lit; 32];

/// The result of a circuit has the operator's value in every model, and circuits add only gates.
pub fn ops_mean()
    ensures { OpsMean }
{}

/// The word 1 if the literal is true, else 0.
fn truth(circuit: &Circuit, lit: Lit) -> Word
    requires { var_of lit ≤ circuit.now.vars }
    ensures word { result ≡ lit ∷ zeros 31 }
    ensures within { AreWithin circuit.now.vars result }
{
    let mut word = [circuit.constant(false); 32];
    word[0] = lit;
    word
}

/// Keeps the word if the literal is true, else makes it 0.
fn keep_where(circuit: &mut Circuit, word: &mut Word, lit: Lit) -> Result<(), AllocError>
    requires word { AreWithin circuit.old.vars word.old }
    requires lit { var_of lit ≤ circuit.old.vars }
    requires room { HasRoom 128 circuit.old }
    ensures word { OnOk result (word.new ≡ (kept_where word.old (kept circuit.old lit)).word) }
    ensures formula { OnOk result (circuit.new ≡ (kept_where word.old (kept circuit.old lit)).state) }
    ensures within { OnOk result (AreWithin circuit.new.vars word.new) }
    ensures larger { OnOk result (IsLarger 128 circuit.old circuit.new) }
{
    gate_by(circuit, Gate::And, word, lit)
}

/// Whether the words differ.
fn differ(circuit: &mut Circuit, a: &Word, b: &Word) -> Result<Lit, AllocError>
    requires first { AreWithin circuit.old.vars a.now }
    requires second { AreWithin circuit.old.vars b.now }
    requires room { HasRoom 224 circuit.old }
    ensures literal { IfOk result (λ l. l ≡ (differ circuit.old a.now b.now).literal) }
    ensures formula { OnOk result (circuit.new ≡ (differ circuit.old a.now b.now).formula) }
    ensures within { IfOk result (λ l. var_of l ≤ circuit.new.vars) }
    ensures larger { OnOk result (IsLarger 224 circuit.old circuit.new) }
{
    let mut apart = *a;
    gate_words(circuit, Gate::Xor, &mut apart, b)?;
    any(circuit, &apart)
}

/// Applies a gate at each place.
fn gates(circuit: &mut Circuit, gate: Gate, a: &Word, b: &Word) -> Result<Word, AllocError>
    requires first { AreWithin circuit.old.vars a.now }
    requires second { AreWithin circuit.old.vars b.now }
    requires room { HasRoom 128 circuit.old }
    ensures word { IfOk result (λ out. out ≡ (gated_words gate circuit.old a.now b.now).word) }
    ensures formula { OnOk result (circuit.new ≡ (gated_words gate circuit.old a.now b.now).state) }
    ensures within { IfOk result (λ out. AreWithin circuit.new.vars out) }
    ensures larger { OnOk result (IsLarger 128 circuit.old circuit.new) }
{
    let mut word = *a;
    gate_words(circuit, gate, &mut word, b)?;
    Ok(word)
}

/// The word, or 0 if the divisor is 0.
fn where_some(circuit: &mut Circuit, word: Word, divisor: &Word) -> Result<Word, AllocError>
    requires word { AreWithin circuit.old.vars word }
    requires divisor { AreWithin circuit.old.vars divisor.now }
    requires room { HasRoom 224 circuit.old }
    ensures word { IfOk result (λ out. out ≡ (where_some (record { state = circuit.old; word = word }) divisor.now).word) }
    ensures formula { OnOk result (circuit.new ≡ (where_some (record { state = circuit.old; word = word }) divisor.now).state) }
    ensures within { IfOk result (λ out. AreWithin circuit.new.vars out) }
    ensures larger { OnOk result (IsLarger 224 circuit.old circuit.new) }
{
    let mut word = word;
    let some = any(circuit, divisor)?;
    keep_where(circuit, &mut word, some)?;
    Ok(word)
}

/// The shifted word, or 0 if the distance is 32 or more.
fn shift_near(
    circuit: &mut Circuit,
    to: Direction,
    bit: Lit,
    a: &Word,
    distance: &[Lit],
) -> Result<Word, AllocError>
    requires wide { length distance.now ≡ 32 }
    requires bit { var_of bit ≤ circuit.old.vars }
    requires first { AreWithin circuit.old.vars a.now }
    requires second { AreWithin circuit.old.vars distance.now }
    requires room { HasRoom 1664 circuit.old }
    ensures word { IfOk result (λ out. out ≡ (where_near (shifted to bit 1 circuit.old a.now (take 5 distance.now)) distance.now).word) }
    ensures formula { OnOk result (circuit.new ≡ (where_near (shifted to bit 1 circuit.old a.now (take 5 distance.now)) distance.now).state) }
    ensures within { IfOk result (λ out. AreWithin circuit.new.vars out) }
    ensures larger { OnOk result (IsLarger 1664 circuit.old circuit.new) }
{
    let mut word = shift(circuit, to, bit, a, &distance[..5])?;
    let far = any(circuit, &distance[5..])?;
    keep_where(circuit, &mut word, far.opposite())?;
    Ok(word)
}

/// The negated number.
fn negate<const W: usize>(circuit: &mut Circuit, a: &[Lit; W]) -> Result<[Lit; W], AllocError>
    requires operand { AreWithin circuit.old.vars a.now }
    requires room { HasRoom (17 * W) circuit.old }
    ensures word { IfOk result (λ out. out ≡ (minus_word circuit.old (zeros W) a.now).word) }
    ensures formula { OnOk result (circuit.new ≡ (minus_word circuit.old (zeros W) a.now).state) }
    ensures within { IfOk result (λ out. AreWithin circuit.new.vars out) }
    ensures larger { OnOk result (IsLarger (17 * W) circuit.old circuit.new) }
{
    let zeros = [circuit.constant(false); W];
    minus(circuit, &zeros, a)
}

/// The circuit of a unary operator.
pub fn unary(circuit: &mut Circuit, op: UnOp, a: &Word) -> Result<Word, AllocError>
    requires operand { AreWithin circuit.old.vars a.now }
    requires room { HasRoom (unary_size op) circuit.old }
    ensures word { IfOk result (λ out. out ≡ (unary_word op circuit.old a.now).word) }
    ensures formula { OnOk result (circuit.new ≡ (unary_word op circuit.old a.now).state) }
    ensures within { IfOk result (λ out. AreWithin circuit.new.vars out) }
    ensures larger { OnOk result (IsLarger (unary_size op) circuit.old circuit.new) }
{
    match op {
        UnOp::Neg => negate(circuit, a),
        UnOp::Not => {
            let some = any(circuit, a)?;
            Ok(truth(circuit, some.opposite()))
        }
        UnOp::Inv => {
            let mut word = *a;
            invert(&mut word);
            Ok(word)
        }
    }
}

/// The circuit of a binary operator.
pub fn binary(circuit: &mut Circuit, op: BinOp, a: &Word, b: &Word) -> Result<Word, AllocError>
    requires first { AreWithin circuit.old.vars a.now }
    requires second { AreWithin circuit.old.vars b.now }
    requires room { HasRoom (binary_size op) circuit.old }
    ensures word { IfOk result (λ out. out ≡ (binary_word op circuit.old a.now b.now).word) }
    ensures formula { OnOk result (circuit.new ≡ (binary_word op circuit.old a.now b.now).state) }
    ensures within { IfOk result (λ out. AreWithin circuit.new.vars out) }
    ensures larger { OnOk result (IsLarger (binary_size op) circuit.old circuit.new) }
{
    let (no, yes) = (circuit.constant(false), circuit.constant(true));
    match op {
        BinOp::Add => plus(circuit, a, b),
        BinOp::Sub => minus(circuit, a, b),
        BinOp::Mul => times(circuit, a, b),
        BinOp::And => gates(circuit, Gate::And, a, b),
        BinOp::Or => gates(circuit, Gate::Or, a, b),
        BinOp::Xor => gates(circuit, Gate::Xor, a, b),
        BinOp::Eq => {
            let apart = differ(circuit, a, b)?;
            Ok(truth(circuit, apart.opposite()))
        }
        BinOp::Ne => {
            let apart = differ(circuit, a, b)?;
            Ok(truth(circuit, apart))
        }
        BinOp::Lt => {
            let less = compare_signed(circuit, no, a, b)?;
            Ok(truth(circuit, less))
        }
        BinOp::Le => {
            let less = compare_signed(circuit, yes, a, b)?;
            Ok(truth(circuit, less))
        }
        BinOp::Gt => {
            let less = compare_signed(circuit, no, b, a)?;
            Ok(truth(circuit, less))
        }
        BinOp::Ge => {
            let less = compare_signed(circuit, yes, b, a)?;
            Ok(truth(circuit, less))
        }
        BinOp::Div => {
            let word = quotient(circuit, a, b)?;
            where_some(circuit, word, b)
        }
        BinOp::Rem => {
            let word = remainder(circuit, a, b)?;
            where_some(circuit, word, b)
        }
        BinOp::Shl => shift_near(circuit, Direction::Up, no, a, b),
        BinOp::Shr => shift_near(circuit, Direction::Down, sign(a), a, b),
    }
}
