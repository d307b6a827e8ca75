//! Refutations of logs as commands judge them: the clauses that they are about, the verdicts on
//! them, and why others aren't judged.
#![tactic(auto)]

mod verdict;

pub use verdict::{Verdict, closed_line, line_of, open_line, refused_line};
