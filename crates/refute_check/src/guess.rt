//! The numbers in a line.
ghost use Rattle.std.specs.Prelude.{◌≡◌, ◌<◌, IfOk, IsTrue, drop};
ghost use Rattle.refute_check.specs.helpers.Guess.{guessed, number_of, literal_of, clause_number_of, literals_in, clause_numbers_in};
ghost use Rattle.refute_check.specs.helpers.Guess.{add_of, delete_of, line_guess};
ghost use Rattle.refute_check.specs.Numbers.{are_numbers};

use crate::{Line, Numbers};
use cnf_core::{Clause, Lit, is_clause};
use std::alloc::{AllocError, Global};

/// The numbers in some bytes: one before the first space, and one after each space.
pub fn guessed(alloc: Global, bytes: &[u8]) -> Result<Vec<i64>, AllocError>
    ensures { IfOk result (λ numbers. numbers.items ≡ guessed bytes.now) }
{
    let mut numbers = Vec::with_capacity(alloc, bytes.len() / 2 + 1)?;
    let mut size = 0;
    let mut negative = false;
    for byte in bytes {
        match *byte {
            b' ' => {
                numbers.push(number_of(size, negative))?;
                size = 0;
                negative = false;
            }
            b'-' => negative = true,
            digit => size = (size * 10 + u64::from(digit % 16)) % 4_294_967_296,
        }
    }
    numbers.push(number_of(size, negative))?;
    Ok(numbers)
}

/// The number of this size and sign.
fn number_of(size: u64, negative: bool) -> i64
    requires { size < 4294967296 }
    ensures { result ≡ number_of size negative }
{
    if negative {
        -(size as i64)
    } else {
        size as i64
    }
}

/// The literals at the front of some numbers.
fn literals_in(alloc: Global, numbers: &[i64]) -> Result<Vec<Lit>, AllocError>
    ensures { IfOk result (λ literals. literals.items ≡ literals_in numbers.now) }
{
    let mut literals = Vec::with_capacity(alloc, numbers.len())?;
    for number in numbers {
        let Some(lit) = literal_of(*number) else {
            return Ok(literals);
        };
        literals.push(lit)?;
    }
    Ok(literals)
}

/// A number as a literal.
fn literal_of(number: i64) -> Option<Lit>
    ensures { result ≡ literal_of number }
{
    let size = number.unsigned_abs();
    if size == 0 || size >= 2_147_483_648 {
        return None;
    }
    Some(Lit::new(size as u32, number < 0))
}

/// A number as the number of a clause.
fn clause_number_of(number: i64) -> Option<u32>
    ensures { result ≡ clause_number_of number }
{
    if number <= 0 || number >= 4_294_967_296 {
        return None;
    }
    Some(number as u32)
}

/// The numbers of clauses at the front of some numbers.
fn clause_numbers_in(alloc: Global, numbers: &[i64]) -> Result<Vec<u32>, AllocError>
    ensures found { IfOk result (λ found. found.items ≡ clause_numbers_in numbers.now) }
    ensures positive { IfOk result (λ found. IsTrue (are_numbers found.items)) }
{
    let mut found = Vec::with_capacity(alloc, numbers.len())?;
    for number in numbers {
        let Some(number) = clause_number_of(*number) else {
            return Ok(found);
        };
        found.push(number)?;
    }
    Ok(found)
}

/// The numbers without the first ones.
fn rest(numbers: &[i64], count: usize) -> &[i64]
    ensures { result.now ≡ drop count numbers.now }
{
    if count <= numbers.len() {
        &numbers[count..]
    } else {
        &[]
    }
}

/// The line that some bytes may be; no other line has this text.
pub fn line_guess(alloc: Global, bytes: &[u8]) -> Result<Option<Line>, AllocError>
    ensures { IfOk result (λ line. line ≡ line_guess bytes.now) }
{
    let Some((letter, after)) = bytes.split_first() else {
        return Ok(None);
    };
    let numbers = guessed(alloc, after)?;
    match *letter {
        b'a' => add_of(alloc, rest(&numbers, 1)),
        b'd' => delete_of(alloc, rest(&numbers, 1)),
        _ => Ok(None),
    }
}

fn add_of(alloc: Global, numbers: &[i64]) -> Result<Option<Line>, AllocError>
    ensures { IfOk result (λ line. line ≡ add_of numbers.now) }
{
    let literals = literals_in(alloc, numbers)?;
    let hints = clause_numbers_in(alloc, rest(numbers, literals.len() + 1))?;
    if !is_clause(&literals) {
        return Ok(None);
    }
    Ok(Some(Line::Add(Clause::new(literals), Numbers::new(hints))))
}

fn delete_of(alloc: Global, numbers: &[i64]) -> Result<Option<Line>, AllocError>
    ensures { IfOk result (λ line. line ≡ delete_of numbers.now) }
{
    let found = clause_numbers_in(alloc, numbers)?;
    if found.is_empty() {
        return Ok(None);
    }
    Ok(Some(Line::Delete(Numbers::new(found))))
}
