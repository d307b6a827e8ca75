//! Numbers as digits, without leading zeros.
#![tactic(auto)]

mod numbers;

pub use numbers::{number_at, number_of};
