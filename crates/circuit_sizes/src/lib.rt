//! How many variables and clauses the circuits of operators and terms add, by their definitions.
//!
//! The law is the contract of a function with an empty body.
#![tactic(auto)]

ghost use Rattle.std.specs.Prelude.{List, ℤ};
ghost use Rattle.std.specs.List.{All};
ghost use Rattle.sym_terms.specs.declared.node.Node.{Node};
ghost use Rattle.cnf_core.specs.Clauses.{Formula};
ghost use Rattle.circuit_sizes.specs.Small.{IsShort, TermsAreSmall};

/// The words of terms have at most 32 literals, and their circuits are as small as the sizes of the
/// operators say, if the words of the loads are that short.
pub fn terms_are_small()
    ensures { (nodes : List Node) (symbols : List (List ℤ)) (f : Formula) → All IsShort symbols → TermsAreSmall nodes symbols f }
{}
