//! Tries the circuit of each operator: the values that its clauses leave to the new variables must satisfy the clauses and give the
//! result the operator's value.
//!
//! The operands are all pairs of some boundary words, and pairs from a generator. The clauses of
//! each definition determine its variable, in order, so nothing is searched.
#![tactic(auto)]

ghost use Rattle.std.specs.Prelude.{◌<◌, ◌≤◌, ◌+◌};
ghost use Rattle.bit_ops.specs.bit_words.Words.{AreWithin};

mod orders;

use anyhow::{Result, bail};
use bit_blast::extend_values;
use bit_gates::Circuit;
use bit_ops::{Word, binary, unary};
use cnf_core::{Assignment, Cnf, Lit, satisfies};
use int_ops::{BinOp, UnOp, arith};
use rand_core::{Rng, SeedableRng};
use rand_xoshiro::SplitMix64;
use std::alloc::Global;

const EDGES: [i32; 20] = [
    0,
    1,
    -1,
    2,
    -2,
    7,
    -7,
    30,
    31,
    32,
    33,
    63,
    65_535,
    65_536,
    -65_536,
    2_147_483_646,
    2_147_483_647,
    -2_147_483_647,
    -2_147_483_648,
    1_000_000_007,
];

/// How many pairs of words the generator gives.
const DRAWN: u32 = 100;

/// An operator, over one value or two.
#[derive(Clone, Copy)]
enum Op {
    Unary(UnOp),
    Binary(BinOp),
}

/// An operator's clauses, and the word of its result.
#[derive(Drop)]
struct Operation {
    clauses: Cnf,
    result: Word,
}

/// The literals of 32 variables in a row.
fn fresh(first: u32, vars: u32) -> Word
    requires some { 0 < first }
    requires there { first + 31 ≤ vars }
    requires few { vars < 1000 }
    ensures { AreWithin vars result }
{
    let mut word = [Lit::new(first, false); 32];
    for place in 0..32usize {
        word[place] = Lit::new(first + place as u32, false);
    }
    word
}

impl Op {
    /// The circuit over the variables 2 to 33 and 34 to 65. Variable 1 is the constant true.
    fn circuit(self, alloc: Global) -> Result<Operation> {
        let mut circuit = Circuit::new(alloc, 65)?;
        let (a, b) = (fresh(2, 65), fresh(34, 65));
        let result = match self {
            Op::Unary(op) => unary(&mut circuit, op, &a)?,
            Op::Binary(op) => binary(&mut circuit, op, &a, &b)?,
        };
        Ok(Operation {
            clauses: circuit.into_clauses(),
            result,
        })
    }

    /// The value that must come.
    fn value(self, a: i32, b: i32) -> i32 {
        match self {
            Op::Unary(op) => arith::unary(op, a),
            Op::Binary(op) => arith::binary(op, a, b),
        }
    }

    fn name(self, alloc: Global) -> Result<String> {
        Ok(match self {
            Op::Unary(op) => format!(in alloc; "{op:?}")?,
            Op::Binary(op) => format!(in alloc; "{op:?}")?,
        })
    }
}

/// The literal's value.
fn is_true(values: &[bool], lit: Lit) -> bool {
    match values.get(lit.var() as usize - 1) {
        Some(value) => *value != lit.negative(),
        None => false,
    }
}

/// Adds the bits of a value, the lowest first.
fn push_bits(values: &mut Vec<bool>, value: i32) -> Result<()> {
    for place in 0..32u32 {
        values.push(value >> place & 1 == 1)?;
    }
    Ok(())
}

/// The value of a word.
fn value_of(values: &[bool], word: &Word) -> i32 {
    let mut bits = 0u32;
    for lit in word.iter().rev() {
        bits = bits << 1 | u32::from(is_true(values, *lit));
    }
    i32::from_be_bytes(bits.to_be_bytes())
}

impl Operation {
    /// The result's value, if the clauses can be satisfied.
    fn come(&self, alloc: Global, a: i32, b: i32) -> Result<Option<i32>> {
        let mut values = Vec::new(alloc);
        values.push(true)?;
        push_bits(&mut values, a)?;
        push_bits(&mut values, b)?;
        extend_values(&self.clauses, &mut values)?;
        let value = value_of(&values, &self.result);
        let assignment = Assignment::new(values);
        if assignment.vars() < self.clauses.vars() as usize {
            bail!("a variable without a value");
        }
        Ok(if satisfies(&self.clauses, &assignment) {
            Some(value)
        } else {
            None
        })
    }
}

/// The operands that are tried.
fn operands(alloc: Global) -> Result<Vec<(i32, i32)>> {
    let mut pairs = Vec::new(alloc);
    for a in EDGES {
        for b in EDGES {
            pairs.push((a, b))?;
        }
    }
    let mut rng = SplitMix64::seed_from_u64(1);
    for _ in 0..DRAWN {
        let a = i32::from_be_bytes(rng.next_u32().to_be_bytes());
        let b = i32::from_be_bytes(rng.next_u32().to_be_bytes());
        pairs.push((a, b))?;
    }
    Ok(pairs)
}

/// Tries an operator, and prints which pairs fail and how many pass.
fn try_op(rt: &(impl Print + AllocGlobal), op: Op, pairs: &[(i32, i32)]) -> Result<()> {
    let operation = op.circuit(rt.alloc())?;
    let name = op.name(rt.alloc())?;
    let mut right = 0u32;
    for (a, b) in pairs {
        let (came, want) = (operation.come(rt.alloc(), *a, *b)?, op.value(*a, *b));
        if came == Some(want) {
            right = right.saturating_add(1);
        } else {
            println!(rt; "{name} {a} {b}: {came:?}, must be {want}")?;
        }
    }
    println!(rt; "{name}: {right} ok")?;
    Ok(())
}

fn run(rt: &(impl Print + AllocGlobal)) -> Result<()> {
    let pairs = operands(rt.alloc())?;
    for op in [UnOp::Neg, UnOp::Not, UnOp::Inv] {
        try_op(rt, Op::Unary(op), &pairs)?;
    }
    for op in [
        BinOp::Add,
        BinOp::Sub,
        BinOp::Mul,
        BinOp::And,
        BinOp::Or,
        BinOp::Xor,
        BinOp::Eq,
        BinOp::Ne,
        BinOp::Lt,
        BinOp::Le,
        BinOp::Gt,
        BinOp::Ge,
        BinOp::Div,
        BinOp::Rem,
        BinOp::Shl,
        BinOp::Shr,
    ] {
        try_op(rt, Op::Binary(op), &pairs)?;
    }
    Ok(())
}

fn main(rt: HostRuntime) -> Result<()> {
    run(&rt)?;
    orders::run(&rt)
}
