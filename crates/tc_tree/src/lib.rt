//! Programs as trees, and the tokens that spell them.
//!
//! A tree keeps the parentheses of its program, so its tokens are a function of it.
#![tactic(auto)]

mod expression;
mod program;
mod statement;
mod word;

pub use expression::{Expression, Name, Node, Number, Operator};
pub use program::{Body, Global, Initial, Local, Program, Thread, Tree};
pub use statement::{Action, Barrier, Block, Branch, Statement, Target, UpdateKind};
pub use word::{Word, words_of};
