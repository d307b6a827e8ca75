//! The text of clauses.
ghost use Rattle.std.specs.Prelude.{◌≡◌, ◌++◌, IfOk, OnOk};
ghost use Rattle.std.specs.String.{string_bytes};
ghost use Rattle.dimacs_text.specs.Texts.{clause_line, cnf_text, header};

use cnf_core::{Cnf, Lit};
use std::alloc::{AllocError, Global};
use std::fmt::Write;

/// The DIMACS text of clauses.
pub fn write_cnf(alloc: Global, cnf: &Cnf) -> Result<Vec<u8>, AllocError>
    ensures { IfOk result (λ text. text.items ≡ cnf_text cnf.now) }
{
    let mut text = header_text(alloc, cnf)?;
    for place in 0..cnf.len() {
        write_clause(&mut text, cnf.clause(place))?;
    }
    Ok(text.into_bytes())
}

fn header_text(alloc: Global, cnf: &Cnf) -> Result<String, AllocError>
    ensures { IfOk result (λ text. string_bytes text ≡ header cnf.now) }
{
    let (vars, clauses) = (cnf.vars(), cnf.len());
    format!(in alloc; "p cnf {vars} {clauses}\n")
}

fn write_clause(text: &mut String, clause: &[Lit]) -> Result<(), AllocError>
    ensures { OnOk result (string_bytes text.new ≡ string_bytes text.old ++ clause_line clause.now) }
{
    for lit in clause {
        let number = lit.number();
        write!(text, "{number} ")?;
    }
    text.push_str("0\n")
}
