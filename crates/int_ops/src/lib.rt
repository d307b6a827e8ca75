//! The operators of `int`, what each of them computes, and updates of a cell.
#![tactic(auto)]

pub mod arith;
mod update;

pub use arith::{BinOp, UnOp};
pub use update::{Update, updated};
