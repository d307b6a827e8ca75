//! The walks of threads.
ghost use Rattle.std.specs.Prelude.{◌≡◌, bytes_eq, is_none};
ghost use Rattle.tc_base.specs.Names.{child};

use crate::{Blocked, Event, Link, Region, Sleep};
use std::marker::Model;
use tc_base::{Failing, ThreadName};

/// The walk of one thread along its path.
#[derive(Debug, Drop)]
pub struct Walk {
    pub(crate) name: ThreadName,
    pub(crate) function: usize,
    pub(crate) outcomes: Vec<bool>,
    pub(crate) places: Vec<usize>,
    pub(crate) events: Vec<Event>,
    pub(crate) regions: Vec<Region>,
    pub(crate) sleeps: Vec<Sleep>,
    pub(crate) creates: Vec<Link>,
    pub(crate) joins: Vec<Link>,
    pub(crate) blocked: Option<Blocked>,
}

impl Model for Walk {
    ghost use Rattle.path_walk.specs.Paths.{Walk as PlainWalk};

    ghost Value = { PlainWalk };

    ghost view = { λ w. record {
      name = w.name;
      function = w.function;
      outcomes = w.outcomes.items;
      places = w.places.items;
      events = w.events.items;
      regions = w.regions.items;
      sleeps = w.sleeps.items;
      creates = w.creates.items;
      joins = w.joins.items;
      blocked = w.blocked;
    } };
}

impl Walk {
    /// The thread's name.
    pub fn name(&self) -> &ThreadName
        ensures { result.now ≡ self.now.name }
    {
        &self.name
    }

    /// Whether this is the walk of the parent's child of that number.
    pub fn is_child_of(&self, parent: &Walk, number: u32) -> bool
        ensures { result ≡ bytes_eq self.now.name (child parent.now.name number) }
    {
        self.name.is_child_of(&parent.name, number)
    }

    /// The number of its function.
    pub fn function(&self) -> usize
        ensures { result ≡ self.now.function }
    {
        self.function
    }

    /// The outcomes of its branches, in order.
    pub fn outcomes(&self) -> &[bool]
        ensures { result.now ≡ self.now.outcomes }
    {
        self.outcomes.as_slice()
    }

    /// For each step, the index of its instruction in the function.
    pub fn places(&self) -> &[usize]
        ensures { result.now ≡ self.now.places }
    {
        self.places.as_slice()
    }

    /// Its events, in order.
    pub fn events(&self) -> &[Event]
        ensures { result.now ≡ self.now.events }
    {
        self.events.as_slice()
    }

    /// For each step that acquires a mutex, the steps between which the thread holds it.
    pub fn regions(&self) -> &[Region]
        ensures { result.now ≡ self.now.regions }
    {
        self.regions.as_slice()
    }

    /// Its waits, in order.
    pub fn sleeps(&self) -> &[Sleep]
        ensures { result.now ≡ self.now.sleeps }
    {
        self.sleeps.as_slice()
    }

    /// Its creates, in order: the one at index k creates child k + 1.
    pub fn creates(&self) -> &[Link]
        ensures { result.now ≡ self.now.creates }
    {
        self.creates.as_slice()
    }

    /// Its joins, in order, each with the child that it waits for.
    pub fn joins(&self) -> &[Link]
        ensures { result.now ≡ self.now.joins }
    {
        self.joins.as_slice()
    }

    /// Whether it has exited, in the log of a deadlock that fits.
    pub(crate) fn has_exited(&self) -> bool
        ensures { result ≡ is_none self.now.blocked }
    {
        self.blocked.is_none()
    }

    /// What blocks it in the log of a deadlock, unless it has exited; none in the log of a failure.
    pub fn blocked(&self) -> Option<Blocked>
        ensures { result ≡ self.now.blocked }
    {
        self.blocked
    }
}

/// The walks of all threads of a log, in the order of their names.
#[derive(Debug, Drop)]
pub struct Paths {
    pub(crate) failing: Failing,
    pub(crate) threads: Vec<Walk>,
    pub(crate) events: usize,
    pub(crate) operators: u64,
    pub(crate) dead: bool,
}

impl Model for Paths {
    ghost use Rattle.path_walk.specs.Paths.{Paths as PlainPaths};

    ghost Value = { PlainPaths };

    ghost view = { λ p. record {
      failing = p.failing;
      threads = p.threads.items;
      events = p.events;
      operators = p.operators;
      dead = p.dead;
    } };
}

impl Paths {
    /// The index of the thread that failed, or a deadlock.
    pub fn failing(&self) -> Failing
        ensures { result ≡ self.now.failing }
    {
        self.failing
    }

    /// The threads, in the order of their names.
    pub fn threads(&self) -> &[Walk]
        ensures { result.now ≡ self.now.threads }
    {
        self.threads.as_slice()
    }

    /// The total number of events.
    pub fn events(&self) -> usize
        ensures { result ≡ self.now.events }
    {
        self.events
    }

    /// The number of operators in the instructions of all steps, counted for each step, saturating.
    pub fn operators(&self) -> u64
        ensures { result ≡ self.now.operators }
    {
        self.operators
    }

    /// Whether the paths alone rule out every run: a step locks a mutex that its thread holds, a
    /// test of a mutex or thread variable has the wrong outcome, or all threads have exited in the
    /// log of a deadlock.
    pub fn dead(&self) -> bool
        ensures { result ≡ self.now.dead }
    {
        self.dead
    }
}
