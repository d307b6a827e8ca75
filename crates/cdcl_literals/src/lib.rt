//! The literals, variables and clause numbers of a search, each a type of its own.
#![tactic(auto)]

mod clause;
mod literal;
mod variable;

pub use clause::ClauseId;
pub use literal::Literal;
pub use variable::Variable;
