//! Sets of waiting threads.
ghost use Rattle.std.specs.Prelude.{◌≡◌, ◌==◌, not, IfOk, OnOk, OnErr};
ghost use Rattle.std.specs.FinSet as set;

use std::alloc::{AllocError, Global};
use std::collections::BTreeSet;
use std::marker::Model;
use tc_base::ThreadName;

/// The threads that wait on a condition.
#[derive(Debug, Drop)]
pub struct WaitSet {
    names: BTreeSet<ThreadName>,
}

impl Model for WaitSet {
    ghost use Rattle.std.specs.FinSet as set;
    ghost use Rattle.std.specs.Ordering.{nat_cmp};
    ghost use Rattle.std.specs.Cmp.Lexicographic.{slice_cmp};
    ghost use Rattle.tc_base.specs.helpers.Codes.{coded_name};

    ghost Value = { set.FinSet (slice_cmp nat_cmp) };

    ghost coded = { set.code coded_name };

    ghost view = { λ a. set.from_list a.names.keys };
}

impl WaitSet {
    /// The empty set.
    pub fn new(alloc: Global) -> WaitSet
        ensures { result ≡ set.empty }
    {
        WaitSet {
            names: BTreeSet::new(alloc),
        }
    }

    /// Whether a thread is in the set.
    pub fn contains(&self, name: &ThreadName) -> bool
        ensures { result ≡ set.contains self.now name.now }
    {
        self.names.contains(name)
    }

    /// Whether the set is empty.
    pub fn is_empty(&self) -> bool
        ensures { result ≡ (set.len self.now == 0) }
    {
        self.names.is_empty()
    }

    /// Adds a thread, and returns whether it is new.
    pub fn insert(&mut self, name: ThreadName) -> Result<bool, AllocError>
        ensures added { IfOk result (λ added. added ≡ not (set.contains self.old name)) }
        ensures ok { OnOk result (self.new ≡ set.insert self.old name) }
        ensures err { OnErr result (self.new ≡ self.old) }
    {
        Ok(self.names.insert(name)?)
    }

    /// Removes a thread, if it is there.
    pub fn remove(&mut self, name: &ThreadName)
        ensures { self.new ≡ set.remove self.old name.now }
    {
        self.names.remove(name);
    }

    /// Removes all threads.
    pub fn clear(&mut self)
        ensures { self.new ≡ set.empty }
    {
        self.names.clear();
    }
}
