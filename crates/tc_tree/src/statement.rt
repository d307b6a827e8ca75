//! Statements.

use crate::expression::{Expression, Name};
use int_ops::Update;
use tc_lexer::Place;

/// What a statement with one name does.
#[derive(Clone, Copy, Debug, PartialEq, Eq)]
pub enum Action {
    /// `join(h);`
    Join,
    /// `lock(m);`
    Lock,
    /// `unlock(m);`
    Unlock,
    /// `signal(c);`
    Signal,
    /// `broadcast(c);`
    Broadcast,
}

/// A statement that orders stores.
#[derive(Clone, Copy, Debug, PartialEq, Eq)]
pub enum Barrier {
    /// `fence();`
    Fence,
    /// `stbar();`
    Stores,
}

/// The kinds of updates.
#[derive(Clone, Copy, Debug, PartialEq, Eq)]
pub enum UpdateKind {
    /// `swap`
    Swap,
    /// `cas`
    Cas,
    /// `add`
    Add,
}

/// What is updated.
#[derive(Clone, Copy, Debug, PartialEq, Eq)]
pub enum Target {
    /// A global variable.
    Cell,
    /// An element of an array.
    Element,
}

/// A statement. Its place is that of its first token.
#[derive(Debug, Drop)]
#[cycle(tree)]
pub enum Statement {
    /// `x = e;`
    Assign(Name, Expression),
    /// `a[i] = e;`
    Store(Name, Expression, Expression),
    /// `h = create f(e, ..);`
    Create(Name, Name, Vec<Expression>),
    /// `r = swap(x, e);`, `r = cas(x, e, f);` or `r = add(x, e);`, with a global `x` or an array and
    /// its index.
    Modify(Name, Name, Option<Expression>, Update<Expression>),
    /// `lock(m);` and the like.
    Act(Place, Action, Name),
    /// `wait(c, m);`
    Wait(Place, Name, Name),
    /// `fence();` or `stbar();`
    Order(Place, Barrier),
    /// `assert(e);`
    Assert(Place, Expression),
    /// `while (e) { .. }`
    While(Branch),
    /// `if (e) { .. }`, then each `else if (e) { .. }`, and at the end `else { .. }`.
    If(Branch, Vec<Branch>, Option<Block>),
}

/// Statements between braces.
#[derive(Debug, Drop)]
#[cycle(tree)]
pub struct Block {
    /// The statements.
    pub statements: Vec<Statement>,
    /// The place of the closing brace.
    pub end: Place,
}

/// A condition, and what is done if it holds.
#[derive(Debug, Drop)]
#[cycle(tree)]
pub struct Branch {
    /// The place of the `if` or `while`.
    pub place: Place,
    /// The condition.
    pub condition: Expression,
    /// What is done if the condition isn't 0.
    pub body: Block,
}
