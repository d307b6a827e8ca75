//! Updates: what an exchange stores to a cell, given what it loads from it.
ghost use Rattle.std.specs.Prelude.{◌≡◌};
ghost use Rattle.int_ops.specs.Updates.{updated};

use crate::arith::add;

/// What an exchange stores, over values or over what stands for them.
#[derive(Clone, Copy, Debug, PartialEq, Eq, Drop)]
pub enum Update<T> {
    /// The value.
    Swap(T),
    /// The second value if the cell has the first one, else what the cell has.
    Cas(T, T),
    /// The sum of what the cell has and the value.
    Add(T),
}

/// The value that an update stores, if `old` is in the cell.
pub fn updated(update: Update<i32>, old: i32) -> i32
    ensures { result ≡ updated update old }
{
    match update {
        Update::Swap(value) => value,
        Update::Cas(expected, value) => { if old == expected { value } else { old } }
        Update::Add(value) => add(old, value),
    }
}
