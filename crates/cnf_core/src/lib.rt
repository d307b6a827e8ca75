//! Clauses over numbered variables, assignments that satisfy them, and gates as clauses.
#![tactic(auto)]

mod assignment;
mod clause;
mod cnf;
mod gates;
mod lit;

pub use assignment::{Assignment, satisfies};
pub use clause::{Clause, is_clause, is_within};
pub use cnf::{Cnf, LIMIT};
pub use gates::{Gate, block_decides, block_keeps};
pub use lit::Lit;
