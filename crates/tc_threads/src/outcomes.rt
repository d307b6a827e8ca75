//! The outcomes of branches.
ghost use Rattle.std.specs.Prelude.{◌≡◌, ◌==◌, length, [], ◌∷◌, ◌++◌, OnOk, OnErr};

use std::alloc::{AllocError, Global};
use std::marker::Model;

/// The outcomes of a thread's branches, in order.
#[derive(Debug, Drop)]
pub struct Outcomes {
    outcomes: Vec<bool>,
}

impl Model for Outcomes {
    ghost use Rattle.std.specs.Prelude.{List, Bool};

    ghost Value = { List Bool };

    ghost view = { λ a. a.outcomes.items };
}

impl Outcomes {
    /// The empty list.
    pub fn new(alloc: Global) -> Outcomes
        ensures { result ≡ [] }
    {
        Outcomes {
            outcomes: Vec::new(alloc),
        }
    }

    /// Appends an outcome.
    pub fn push(&mut self, outcome: bool) -> Result<(), AllocError>
        ensures ok { OnOk result (self.new ≡ self.old ++ outcome ∷ []) }
        ensures err { OnErr result (self.new ≡ self.old) }
    {
        self.outcomes.push(outcome)?;
        Ok(())
    }

    /// The outcomes as a slice.
    pub fn as_slice(&self) -> &[bool]
        ensures { result.now ≡ self.now }
    {
        self.outcomes.as_slice()
    }

    /// The number of outcomes.
    pub fn len(&self) -> usize
        ensures { result ≡ length self.now }
    {
        self.outcomes.len()
    }

    /// Whether there is no outcome.
    pub fn is_empty(&self) -> bool
        ensures { result ≡ (length self.now == 0) }
    {
        self.outcomes.is_empty()
    }
}
