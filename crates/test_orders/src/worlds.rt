//! Worlds, and whether they are lawful.
ghost use Rattle.std.specs.Prelude.{◌≤◌, length, vec_len, IfOk};

use crate::given::system;
use anyhow::{Context, Result, bail};
use bit_ranks::ranks;
use clap_system::System;
use order_formula::World;
use path_walk::{Paths, Walk};
use std::alloc::{AllocError, Global};
use std::mem::drop;
use test_table::given::Given;

/// A world in words.
#[derive(Clone, Copy)]
struct Words<'a> {
    order: &'a str,
    loads: &'a str,
    enders: &'a str,
}

/// Whether a world is lawful.
pub(crate) fn judged(alloc: Global, given: &mut Given) -> Result<String> {
    let model = given.before(" : ");
    let words = Words {
        order: given.before(" : "),
        loads: given.before(" : "),
        enders: given.before(" : "),
    };
    let system = system(alloc, model, given)?;
    let lawful = is_lawful(alloc, &system, words);
    drop(system);
    let answer = if lawful? { "lawful" } else { "unlawful" };
    Ok(String::from_str(alloc, answer)?)
}

fn is_lawful(alloc: Global, system: &System, words: Words) -> Result<bool> {
    let world = world(alloc, system, words)?;
    let lawful = system.holds(alloc, &world);
    drop(world);
    Ok(lawful?)
}

/// The world of words.
fn world(alloc: Global, system: &System, words: Words) -> Result<World> {
    let names = Names::of(alloc, &system.execution().paths)?;
    let places = names.places(alloc, words.order)?;
    let loads = numbers_of(alloc, words.loads)?;
    if loads.len() != system.execution().symbolic.loads() as usize {
        bail!("not the loads of the log");
    }
    let enders = names.enders(alloc, words.enders)?;
    Ok(world_of(alloc, &places, loads, enders)?)
}

fn numbers_of(alloc: Global, words: &str) -> Result<Vec<i32>> {
    let mut numbers = Vec::new(alloc);
    for word in words.split_whitespace() {
        numbers.push(word.parse::<i32>()?)?;
    }
    Ok(numbers)
}

/// The world in which the events have these places.
fn world_of(
    alloc: Global,
    places: &[u8],
    loads: Vec<i32>,
    enders: Vec<Option<u32>>,
) -> Result<World, AllocError>
    requires { length places.now ≤ 256 }
{
    Ok(World::new(ranks(alloc, places)?, loads, enders))
}

/// The events of a log by name.
#[derive(Drop)]
struct Names {
    names: Vec<String>,
}

impl Names {
    fn of(alloc: Global, paths: &Paths) -> Result<Names, AllocError> {
        let mut names = Names {
            names: Vec::new(alloc),
        };
        for thread in paths.threads() {
            names.add(alloc, thread)?;
        }
        Ok(names)
    }

    fn add(&mut self, alloc: Global, thread: &Walk) -> Result<(), AllocError> {
        for event in thread.events() {
            let name = format!(in alloc; "{}@{}", thread.name(), event.step)?;
            self.names.push(name)?;
        }
        Ok(())
    }

    /// The number of the event with this name.
    fn number(&self, name: &str) -> Result<usize> {
        self.names
            .iter()
            .position(|other| other.as_str() == name)
            .context("no such event")
    }

    /// The place of each event in an order of all events.
    fn places(&self, alloc: Global, order: &str) -> Result<Vec<u8>>
        ensures { IfOk result (λ places. vec_len places ≤ 256) }
    {
        let mut places = vec![in alloc; 255u8; self.names.len()]?;
        let mut count = 0u8;
        for word in order.split_whitespace() {
            let place = places.get_mut(self.number(word)?).context("no such event")?;
            *place = count;
            count = count.checked_add(1).context("too many events")?;
        }
        if places.len() != count as usize {
            bail!("not the events of the log");
        }
        Ok(places)
    }

    /// The event that ends each sleep.
    fn enders(&self, alloc: Global, words: &str) -> Result<Vec<Option<u32>>> {
        let mut enders = Vec::new(alloc);
        for word in words.split_whitespace() {
            enders.push(self.ender(word)?)?;
        }
        Ok(enders)
    }

    fn ender(&self, word: &str) -> Result<Option<u32>> {
        if word == "-" {
            return Ok(None);
        }
        Ok(Some(u32::try_from(self.number(word)?)?))
    }
}
