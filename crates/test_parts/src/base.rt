//! Arithmetic, names and the generator of seeded runs.
use anyhow::{Result, bail};
use int_ops::arith::{binary, unary};
use int_ops::{BinOp, UnOp};
use rand_core::{Rng, SeedableRng};
use rand_xoshiro::SplitMix64;
use std::alloc::{AllocError, Global};
use std::mem::drop;
use tc_base::ThreadName;
use test_table::given::Given;

/// The binary operators, by their signs.
static BINARY: [(&str, BinOp); 16] = [
    ("+", BinOp::Add),
    ("-", BinOp::Sub),
    ("*", BinOp::Mul),
    ("/", BinOp::Div),
    ("%", BinOp::Rem),
    ("&", BinOp::And),
    ("|", BinOp::Or),
    ("^", BinOp::Xor),
    ("<<", BinOp::Shl),
    (">>", BinOp::Shr),
    ("==", BinOp::Eq),
    ("!=", BinOp::Ne),
    ("<", BinOp::Lt),
    ("<=", BinOp::Le),
    (">", BinOp::Gt),
    (">=", BinOp::Ge),
];

/// The unary operator with this sign.
pub(crate) fn unary_of(sign: &str) -> Option<UnOp> {
    match sign {
        "-" => Some(UnOp::Neg),
        "!" => Some(UnOp::Not),
        "~" => Some(UnOp::Inv),
        _ => None,
    }
}

/// The binary operator with this sign.
pub(crate) fn binary_of(sign: &str) -> Result<BinOp> {
    for row in BINARY.iter() {
        if row.0 == sign {
            return Ok(row.1);
        }
    }
    bail!("no operator over two values")
}

/// The value of an operator over numbers.
pub(crate) fn arith(alloc: Global, given: &mut Given) -> Result<String> {
    let first = given.word();
    let value = match unary_of(first) {
        Some(op) => unary(op, given.number()),
        None => {
            let op = binary_of(given.word())?;
            binary(op, first.parse()?, given.number())
        }
    };
    Ok(format!(in alloc; "{value}")?)
}

/// The name that these numbers of children give.
fn name_of(alloc: Global, children: &str) -> Result<ThreadName> {
    let mut name = ThreadName::main(alloc);
    for word in children.split_whitespace() {
        let child = word.parse::<u32>()?;
        if child == 0 {
            bail!("children are numbered from 1");
        }
        name = name.child(child)?;
    }
    Ok(name)
}

/// The text of a copy of a name, and the numbers of its children.
pub(crate) fn name(alloc: Global, given: &mut Given) -> Result<String> {
    let name = name_of(alloc, given.rest())?;
    let copy = name.clone()?;
    drop(name);
    let text = name_text(alloc, &copy);
    Ok(text?)
}

fn name_text(alloc: Global, name: &ThreadName) -> Result<String, AllocError> {
    let mut text = format!(in alloc; "{name}")?;
    for child in name.children() {
        write!(text, " {child}")?;
    }
    Ok(text)
}

/// The order of two names, and whether they are equal.
pub(crate) fn order(alloc: Global, given: &mut Given) -> Result<String> {
    let a = name_of(alloc, given.before(":"))?;
    let b = name_of(alloc, given.rest())?;
    let (order, is_equal) = (a.partial_cmp(&b), a == b);
    drop(a);
    drop(b);
    Ok(format!(in alloc; "{order:?} {is_equal}")?)
}

/// The first words of the generator.
pub(crate) fn seeded(alloc: Global, given: &mut Given) -> Result<String> {
    let words = words_text(alloc, given.number());
    Ok(words?)
}

/// The first words of the generator with a seed.
fn words_text(alloc: Global, seed: u64) -> Result<String, AllocError> {
    let mut rng = SplitMix64::seed_from_u64(seed);
    let mut words = format!(in alloc; "{:016x}", rng.next_u64())?;
    for _ in 1..5 {
        write!(words, " {:016x}", rng.next_u64())?;
    }
    Ok(words)
}
