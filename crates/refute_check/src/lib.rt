//! Refutations: their definition, their text, and a checker that takes them line by line.
#![tactic(auto)]

mod blocks;
mod checker;
mod fault;
mod given;
mod guess;
mod head;
mod head_guess;
mod hints;
mod kept;
mod line;
mod read;
mod refutation;
mod text;
mod verdict;
mod whole;
mod write;

pub use checker::Checker;
pub use fault::RefutationFault;
use given::{Given, Left};
pub use head::Head;
use kept::Kept;
pub use line::{Derivation, LINES, Line, Numbers};
pub use refutation::read_refutation;
pub use text::{RefutationText, Taken, cuts_agree};
pub use verdict::{CheckFault, Checked};
pub use whole::{
    broken_is_no_text, check, closed_means_unsatisfiable, read_is_text, reads_agree,
    text_has_one_value, text_is_read,
};
pub use write::write_refutation;
