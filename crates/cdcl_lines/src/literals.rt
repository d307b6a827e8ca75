//! Conversion between a search's literals and those of formulas.
ghost use Rattle.std.specs.Prelude.{◌≡◌, ℕ, ◌+◌, ◌*◌, ◌^◌, ◌<◌, All, IfOk, IsTrue};
ghost use Rattle.cnf_core.specs.Clauses.{is_clause, is_within, var_of};
ghost use Rattle.cdcl_literals.specs.Literals.{variable_of};
ghost use Rattle.cdcl_lines.specs.Literals.{literal_of, code_of, clause_of, Rise};

use cdcl_literals::{Literal, Variable};
use cnf_core::Lit;
use std::alloc::{AllocError, Global};

/// The search's literal for one of a formula, whose variables count from 1.
pub fn to_literal(lit: Lit) -> Literal
    ensures code { result ≡ code_of lit }
    ensures back { literal_of result ≡ lit }
    ensures variable { variable_of result + 1 ≡ var_of lit }
{
    Literal::new(Variable::new(lit.var() - 1), lit.negative())
}

/// The formula's literal for one of the search.
pub fn to_lit(literal: Literal) -> Lit
    requires { variable_of literal + 1 < 2 ^ 31 }
    ensures literal { result ≡ literal_of literal }
    ensures back { code_of result ≡ literal }
{
    Lit::new(literal.variable().index() as u32 + 1, literal.is_negative())
}

/// The search's literals for those of a clause.
pub fn to_literals(alloc: Global, clause: &[Lit]) -> Result<Vec<Literal>, AllocError>
    ensures clause { IfOk result (λ literals. clause_of literals.items ≡ clause.now) }
    ensures rise { IsTrue (is_clause clause.now) → IfOk result (λ literals. Rise literals.items) }
    ensures within { (vars : ℕ) → IsTrue (is_within vars clause.now) → IfOk result (λ literals. All (λ l. l < 2 * vars) literals.items) }
{
    let mut literals = Vec::with_capacity(alloc, clause.len())?;
    for lit in clause {
        literals.push(to_literal(*lit))?;
    }
    Ok(literals)
}
