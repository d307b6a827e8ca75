//! The literals and words of a draft of clauses: of the order of steps, of the conjuncts and of the
//! terms.
mod literals;

pub use literals::Literals;
