//! Flat code: what a program is lowered to, and what that means.
#![tactic(auto)]

mod cell;
mod code;
mod display;
mod expr;
mod instr;
mod list;
mod source;

pub use cell::Cell;
pub use code::{Code, Func};
pub use expr::{Expr, Exprs, Node, names_slots, value};
pub use instr::{Instr, Instrs};
pub use list::listing;
pub use source::{FuncName, Lines};
