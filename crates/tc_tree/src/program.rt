//! Programs.

use crate::expression::{Name, Number};
use crate::statement::Block;

/// The initial value of a global variable.
#[derive(Clone, Copy, Debug, PartialEq, Eq)]
pub enum Initial {
    /// Nothing is written, which means 0.
    Zero,
    /// `= n`
    Plain(Number),
    /// `= -n`
    Negated(Number),
}

/// A global declaration.
#[derive(Clone, Copy, Debug, PartialEq, Eq)]
pub enum Global {
    /// `int x;` or `int x = n;`
    Int(Name, Initial),
    /// `int a[n];`
    Array(Name, Number),
    /// `mutex m;`
    Mutex(Name),
    /// `cond c;`
    Condition(Name),
}

/// A declaration in a body.
#[derive(Clone, Copy, Debug, PartialEq, Eq)]
pub enum Local {
    /// `int r;`
    Int(Name),
    /// `tid h;`
    Handle(Name),
}

/// What a thread does.
#[derive(Debug, Drop)]
pub struct Body {
    /// The declarations, in order.
    pub locals: Vec<Local>,
    /// The statements, and the place of the closing brace.
    pub block: Block,
}

/// A thread.
#[derive(Debug, Drop)]
pub struct Thread {
    /// Its name.
    pub name: Name,
    /// Its parameters, in order.
    pub parameters: Vec<Name>,
    /// What it does.
    pub body: Body,
}

/// A program.
#[derive(Debug, Drop)]
pub struct Program {
    /// The global declarations, in order.
    pub globals: Vec<Global>,
    /// The threads, in order.
    pub threads: Vec<Thread>,
    /// What main does.
    pub main: Body,
}

/// A program and the text that its names are in.
#[derive(Debug, Drop)]
pub struct Tree<'a> {
    /// The text.
    pub text: &'a [u8],
    /// The program.
    pub program: Program,
}
