//! Plans: which calls of a shelf or a sink fail.
ghost use Rattle.std.specs.Prelude.{◌≡◌, ◌++◌, ◌∷◌, [], OnOk, OnErr};
ghost use Rattle.test_shelves.specs.Plan.{no_plan, with_call, told_at};

use std::alloc::{AllocError, Global};
use std::marker::Model;

/// A call that fails.
#[derive(Clone, Copy, Debug, PartialEq, Eq)]
pub struct Fail {
    /// The number of the call, from 1.
    pub call: u64,
    /// After how many bytes it fails: taken by a fetch, or written by a put.
    pub after: usize,
}

/// The number of calls so far, and the calls that fail.
#[derive(Drop)]
pub struct Plan {
    calls: u64,
    fails: Vec<Fail>,
}

impl Model for Plan {
    ghost use Rattle.test_shelves.specs.Plan.{PlainPlan};

    ghost Value = { PlainPlan };

    ghost view = { λ p. record { calls = p.calls; fails = p.fails.items } };
}

impl Plan {
    pub fn new(alloc: Global) -> Self
        ensures { result ≡ no_plan }
    {
        Plan {
            calls: 0,
            fails: Vec::new(alloc),
        }
    }

    /// Adds a call that fails; of two entries for one call, the first counts.
    pub fn add(&mut self, fail: Fail) -> Result<(), AllocError>
        ensures ok { OnOk result (self.new ≡ record self.old { fails = self.old.fails ++ fail ∷ [] }) }
        ensures err { OnErr result (self.new ≡ self.old) }
    {
        self.fails.push(fail)?;
        Ok(())
    }

    /// Counts a call, and returns after how many bytes it fails, if it fails.
    pub fn call(&mut self) -> Option<usize>
        ensures counted { self.new ≡ with_call self.old }
        ensures told { result ≡ told_at self.new }
    {
        self.calls = self.calls.saturating_add(1);
        let call = self.calls;
        self.fails
            .iter()
            .find(|fail| fail.call == call)
            .map(|fail| fail.after)
    }
}
