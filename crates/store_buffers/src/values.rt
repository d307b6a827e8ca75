//! The values of one cell on their way to memory.
ghost use Rattle.std.specs.Prelude.{◌≡◌, ◌∷◌, [], ◌++◌, drop, slice_get, IfOk, OnOk, OnErr, None, not};
ghost use Rattle.std.specs.List.{last_or};
ghost use Rattle.list_laws.specs.Lists.{is_nil};

use std::alloc::{AllocError, Global};
use std::collections::VecDeque;
use std::marker::Model;

/// Values, oldest first.
#[derive(Debug, Drop)]
pub(crate) struct Values {
    values: VecDeque<i32>,
}

impl Model for Values {
    ghost use Rattle.std.specs.Prelude.{List, ℤ};

    ghost Value = { List ℤ };

    ghost view = { λ a. a.values.items };
}

impl Values {
    /// One value.
    pub(crate) fn of_one(alloc: Global, value: i32) -> Result<Values, AllocError>
        ensures { IfOk result (λ values. values ≡ value ∷ []) }
    {
        let mut values = VecDeque::new(alloc);
        values.push_back(value)?;
        Ok(Values { values })
    }

    /// Adds a value at the end.
    pub(crate) fn push(&mut self, value: i32) -> Result<(), AllocError>
        ensures ok { OnOk result (self.new ≡ self.old ++ value ∷ []) }
        ensures err { OnErr result (self.new ≡ self.old) }
    {
        self.values.push_back(value)?;
        Ok(())
    }

    /// Takes out the oldest value.
    pub(crate) fn pop(&mut self) -> Option<i32>
        ensures first { result ≡ slice_get self.old 0 }
        ensures rest { self.new ≡ drop 1 self.old }
    {
        self.values.pop_front()
    }

    /// The newest value.
    pub(crate) fn last(&self) -> Option<i32>
        ensures { result ≡ last_or None self.now }
    {
        self.values.back().copied()
    }

    /// Whether there is more than one.
    pub(crate) fn has_more(&self) -> bool
        ensures { result ≡ not (is_nil (drop 1 self.now)) }
    {
        self.values.len() > 1
    }
}
