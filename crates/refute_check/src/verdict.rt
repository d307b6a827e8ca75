//! The answers of a checker.

/// What a derivation without a fault proves.
#[derive(Clone, Copy, Debug, PartialEq, Eq)]
pub enum Checked {
    /// An empty clause was added: no assignment satisfies the formula.
    Closed,
    /// No empty clause was added: the derivation proves nothing about the formula.
    Open,
}

/// The first fault of a derivation, with the number of its line; the header is line 1.
#[derive(Clone, Copy, Debug, PartialEq, Eq)]
pub enum CheckFault {
    /// A literal's variable isn't one of the formula's.
    NoVariable(u32),
    /// A number isn't that of a kept clause.
    NoClause(u32),
    /// A hint's clause has two literals that aren't false, or is a conflict before the last hint.
    Hint(u32),
    /// The hints end without a conflict.
    NoConflict(u32),
    /// Memory ran out.
    Memory,
}
