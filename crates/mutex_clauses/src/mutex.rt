//! A mutex with its regions and the cells that it guards, and what its regions do.
ghost use Rattle.std.specs.Prelude.{◌≡◌, map, IfOk};
ghost use Rattle.mutex_clauses.specs.helpers.Starts as spec;

use crate::shapes::TermedSteps;
use crate::steps::Step;
use bit_ops::Word;
use bit_terms::constant_word;
use mutex_regions::{Spot, Variable};
use order_events::{Events, Placed};
use path_walk::Region;
use read_write::value_at_start;
use std::alloc::{AllocError, Global};
use sym_exec::Cell;
use tc_code::Code;

/// A mutex.
#[derive(Drop)]
pub(crate) struct Mutex {
    /// Its number.
    pub(crate) number: u32,
    /// Its regions.
    pub(crate) regions: Vec<Placed<Region>>,
    /// The variables that it guards.
    pub(crate) variables: Vec<Variable>,
    /// Their cells.
    pub(crate) spots: Vec<Spot>,
}

/// The steps of a mutex's regions.
#[derive(Clone, Copy)]
pub(crate) struct Steps<'a> {
    /// The mutex.
    pub(crate) mutex: &'a Mutex,
    /// What each region does.
    pub(crate) all: &'a [Step],
    /// The same with terms, and the shapes.
    pub(crate) termed: &'a TermedSteps,
}

impl Mutex {
    /// The events that begin the regions.
    pub(crate) fn begins(&self, alloc: Global, events: &Events) -> Result<Vec<u32>, AllocError>
        ensures { IfOk result (λ begins. begins.items ≡ map (spec.begin_in events.now) self.now.regions.items) }
    {
        let mut begins = Vec::new(alloc);
        for region in &self.regions {
            begins.push(begin(events, region))?;
        }
        Ok(begins)
    }

    /// The words of the cells' values at the start.
    pub(crate) fn start_words(&self, alloc: Global, code: &Code) -> Result<Vec<Word>, AllocError>
        ensures { IfOk result (λ words. words.items ≡ map (spec.start_word code.now) self.now.spots.items) }
    {
        let mut words = Vec::new(alloc);
        for spot in &self.spots {
            words.push(start_word(code, spot))?;
        }
        Ok(words)
    }
}

/// The event that begins a region.
fn begin(events: &Events, region: &Placed<Region>) -> u32
    ensures { result ≡ spec.begin_in events.now region.now }
{
    events.number(region.thread, region.it.from)
}

/// The word of a cell's value at the start.
fn start_word(code: &Code, spot: &Spot) -> Word
    ensures { result ≡ spec.start_word code.now spot.now }
{
    constant_word(start_value(code, spot))
}

/// The value of a cell at the start.
fn start_value(code: &Code, spot: &Spot) -> i32
    ensures { result ≡ spec.start_value code.now spot.now }
{
    let variable = &spot.variable;
    if variable.is_array {
        0
    } else {
        value_at_start(code, Cell::Fixed(variable.first))
    }
}
