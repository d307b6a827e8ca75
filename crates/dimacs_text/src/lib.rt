//! Clauses as DIMACS text, and the answers of solvers.
#![tactic(auto)]

mod falsified;
mod fault;
mod laws;
mod literals;
mod pieces;
mod read;
mod said;
mod words;
mod write;

pub use falsified::first_false;
pub use fault::AnswerFault;
pub use laws::texts_have_one_reading;
pub use literals::{Literals, assignment};
pub use read::read_answer;
pub use write::write_cnf;
