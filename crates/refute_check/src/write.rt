//! The text of a refutation.
ghost use Rattle.std.specs.Prelude.{◌≡◌, ◌++◌, ◌<◌, ◌^◌, ℤ, pos, List, map, codes, IsTrue, OnOk, IfOk, nat_lt};
ghost use Rattle.std.specs.List.{list_all};
ghost use Rattle.std.specs.String.{string_bytes};
ghost use Rattle.std.specs.Fmt.{signed_decimal};
ghost use Rattle.cnf_core.specs.Clauses.{var_of};
ghost use Rattle.refute_check.specs.Laws.{IsWhole};
ghost use Rattle.refute_check.specs.Numbers.{are_numbers};
ghost use Rattle.refute_check.specs.Refutations.{is_line};
ghost use Rattle.refute_check.specs.Texts.{head_text, switches_text, numbers_text, line_text, ended, refutation_text, is_readable};

use crate::{Derivation, Head, Line};
use cnf_core::Lit;
use std::alloc::{AllocError, Global};
use std::fmt::Write;

/// The text of a refutation. No other text is read as this header and derivation.
pub fn write_refutation(
    alloc: Global,
    head: Head,
    derivation: &Derivation,
) -> Result<Vec<u8>, AllocError>
    ensures text { IfOk result (λ text. text.items ≡ refutation_text head derivation.now) }
    ensures whole { IfOk result (λ text. IsWhole head derivation.now) }
{
    let mut text = String::new(alloc);
    write_head(&mut text, head)?;
    text.push_str("\n")?;
    for line in derivation.lines() {
        write_ended(&mut text, line)?;
    }
    Ok(text.into_bytes())
}

/// Writes the header, without its line end.
pub fn write_head(text: &mut String, head: Head) -> Result<(), AllocError>
    ensures { OnOk result (string_bytes text.new ≡ string_bytes text.old ++ head_text head) }
{
    text.push_str("clap-refutation 2 ")?;
    text.push_str(head.model.name())?;
    write_switches(text, head.switches)
}

fn write_switches(text: &mut String, switches: Option<u8>) -> Result<(), AllocError>
    ensures { OnOk result (string_bytes text.new ≡ string_bytes text.old ++ switches_text switches) }
{
    match switches {
        Some(switches) => write!(text, " switches {switches}"),
        None => Ok(()),
    }
}

fn write_ended(text: &mut String, line: &Line) -> Result<(), AllocError>
    ensures text { OnOk result (string_bytes text.new ≡ string_bytes text.old ++ ended (line_text line.now)) }
    ensures readable { OnOk result (IsTrue (is_line line.now) → IsTrue (is_readable line.now)) }
{
    write_line(text, line)?;
    text.push_str("\n")
}

/// Writes a line, without its line end.
#[tactic(auto, using(crate::proofs::Written::added_is_readable, crate::proofs::Written::deleted_is_readable))]
pub fn write_line(text: &mut String, line: &Line) -> Result<(), AllocError>
    ensures text { OnOk result (string_bytes text.new ≡ string_bytes text.old ++ line_text line.now) }
    ensures readable { OnOk result (IsTrue (is_line line.now) → IsTrue (is_readable line.now)) }
{
    match line {
        Line::Add(clause, hints) => {
            text.push_str("a")?;
            write_literals(text, clause.literals())?;
            text.push_str(" 0")?;
            write_numbers(text, hints.as_slice())
        }
        Line::Delete(numbers) => {
            text.push_str("d")?;
            write_numbers(text, numbers.as_slice())
        }
    }
}

fn write_literals(text: &mut String, literals: &[Lit]) -> Result<(), AllocError>
    ensures text { OnOk result (string_bytes text.new ≡ string_bytes text.old ++ numbers_text literals.now) }
    ensures small { OnOk result (IsTrue (list_all (λ l. nat_lt (var_of l) 2147483648) literals.now)) }
{
    for lit in literals {
        write_literal(text, *lit)?;
    }
    Ok(())
}

/// Writes the variable, with a minus sign if it is negated.
fn write_literal(text: &mut String, lit: Lit) -> Result<(), AllocError>
    ensures text { OnOk result (string_bytes text.new ≡ string_bytes text.old ++ (codes " " ++ signed_decimal lit)) }
    ensures small { var_of lit < 2 ^ 31 }
{
    let sign = if lit.negative() { "-" } else { "" };
    let var = lit.var();
    write!(text, " {sign}{var}")
}

/// Writes the numbers, and the 0 that ends them.
fn write_numbers(text: &mut String, numbers: &[u32]) -> Result<(), AllocError>
    requires { IsTrue (are_numbers numbers.now) }
    ensures text { OnOk result (string_bytes text.new ≡ string_bytes text.old ++ (numbers_text (map pos numbers.now) ++ codes " 0")) }
    ensures small { OnOk result (IsTrue (list_all (λ n. nat_lt n 4294967296) numbers.now)) }
{
    for number in numbers {
        write!(text, " {number}")?;
    }
    text.push_str(" 0")
}
