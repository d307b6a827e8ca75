//! The moves of a lawful world.
ghost use Rattle.std.specs.Prelude.{◌≡◌, ◌<◌, ◌≤◌, ◌+◌, ◌^◌, ◌++◌, ◌∷◌, [], fold, length, IfOk, OnOk};
ghost use Rattle.std.specs.List.{range_with_len};
ghost use Rattle.std.specs.Option.{IfSome, option_map_or};
ghost use Rattle.path_walk.specs.tc_limits.declared.limits.TheConstants.{EVENTS};
ghost use Rattle.order_formula.specs.Truth.{Serves};
ghost use Rattle.store_buffers.specs.Pending.{form_of};
ghost use Rattle.order_cells.specs.lawful_order.Events.{all_events, all_sleeps};
ghost use Rattle.order_cells.specs.lawful_order.Memory as memory;
ghost use Rattle.world_plan.specs.Plan as plan;
ghost use Rattle.world_moves.specs.Moves as spec;
ghost use Rattle.world_moves.specs.Needs.{AreTellable, IsNumbered, IsTellable};

use crate::events::{cell_number, cell_of, event_at, is_store, last_place, woken_by};
use crate::made::Made;
use order_events::{Events, Placed, Sleeps};
use order_formula::World;
use path_execution::Execution;
use path_walk::{Event, EventKind, Paths};
use std::alloc::{AllocError, Global};
use store_buffers::MemoryModel;
use sym_terms::Values;
use tc_base::{Failing, Move, ThreadName};

/// The moves of a world under a memory model: each event of the world takes its turn, up to the
/// failing one if there is one, and then each thread goes to the end of its path.
pub fn moves_of<M: MemoryModel>(
    alloc: Global,
    execution: &Execution,
    world: &World,
) -> Result<Vec<Move>, AllocError>
    requires events { length (all_events execution.now.paths) ≤ EVENTS }
    requires tellable { AreTellable M.BUFFERED execution.now world.now }
    ensures { IfOk result (λ moves. moves.items ≡ spec.moves_of M.BUFFERED M.bound execution.now world.now) }
{
    let paths = &execution.paths;
    let sleeps = Sleeps::of(alloc, paths)?;
    let told = Told {
        execution,
        world,
        sleeps: &sleeps,
    };
    let mut made = told.events_made::<M>(alloc)?;
    add_passing(&mut made, paths)?;
    if let Failing::Thread(thread) = paths.failing() {
        add_rest(&mut made, paths, thread)?;
    }
    Ok(made.into_moves())
}

/// Appends the remaining steps of the threads that don't fail.
fn add_passing(made: &mut Made, paths: &Paths) -> Result<(), AllocError>
    requires { length made.old.steps ≡ length paths.now.threads }
    ensures made { OnOk result (made.new ≡ fold (spec.with_passing paths.now) made.old (range_with_len 0 (length paths.now.threads))) }
    ensures threads { OnOk result (length made.new.steps ≡ length paths.now.threads) }
{
    for thread in 0..paths.threads().len() {
        add_if_passing(made, paths, thread)?;
    }
    Ok(())
}

/// Appends the remaining steps of a thread, unless it is the failing one.
fn add_if_passing(made: &mut Made, paths: &Paths, thread: usize) -> Result<(), AllocError>
    requires { length made.old.steps ≡ length paths.now.threads }
    ensures made { OnOk result (made.new ≡ spec.with_passing paths.now made.old thread) }
    ensures threads { OnOk result (length made.new.steps ≡ length paths.now.threads) }
{
    if is_failing(paths, thread) {
        return Ok(());
    }
    add_rest(made, paths, thread)
}

/// Whether a thread is the failing one.
fn is_failing(paths: &Paths, thread: usize) -> bool
    ensures { result ≡ plan.is_failing paths.now thread }
{
    match paths.failing() {
        Failing::Thread(failing) => failing == thread,
        Failing::Deadlock => false,
    }
}

/// Appends the remaining steps of a thread.
fn add_rest(made: &mut Made, paths: &Paths, thread: usize) -> Result<(), AllocError>
    requires { length made.old.steps ≡ length paths.now.threads }
    ensures made { OnOk result (made.new ≡ spec.with_rest paths.now made.old thread) }
    ensures threads { OnOk result (length made.new.steps ≡ length paths.now.threads) }
{
    if let Some(walk) = paths.threads().get(thread) {
        made.run_to(thread, walk.name(), walk.places().len())?;
        made.reach(thread, walk.places().len());
    }
    Ok(())
}

/// The form in which stores to a cell drain.
fn form<M: MemoryModel>(cell: u32) -> Option<u32>
    ensures { result ≡ form_of M.bound cell }
{
    if M::bound(false, false) {
        None
    } else {
        Some(cell)
    }
}

/// A world, with everything that determines its moves.
#[derive(Clone, Copy, Debug)]
struct Told<'a> {
    execution: &'a Execution,
    world: &'a World,
    sleeps: &'a Sleeps,
}

impl Told<'_> {
    /// The moves for the events before the failing one.
    fn events_made<M: MemoryModel>(&self, alloc: Global) -> Result<Made, AllocError>
        requires sleeps { self.now.sleeps.now ≡ all_sleeps self.now.execution.now.paths }
        requires events { length (all_events self.now.execution.now.paths) ≤ EVENTS }
        requires tellable { AreTellable M.BUFFERED self.now.execution.now self.now.world.now }
        ensures made { IfOk result (λ made. made ≡ spec.made_to M.BUFFERED M.bound self.now.execution.now self.now.world.now
            (spec.last_place self.now.execution.now.paths self.now.world.now)) }
        ensures threads { IfOk result (λ made. length made.steps ≡ length self.now.execution.now.paths.threads) }
    {
        let events = Events::of(alloc, &self.execution.paths)?;
        let mut values = Values::new(alloc, &self.execution.terms, self.world.loads())?;
        let mut made = Made::nothing(alloc, self.execution.paths.threads().len())?;
        for position in 0..last_place(&events, self.world) {
            self.add_at::<M>(&mut made, &events, position, &mut values)?;
        }
        Ok(made)
    }

    /// Appends the moves for the event at a position, if there is one.
    fn add_at<M: MemoryModel>(
        &self,
        made: &mut Made,
        events: &Events,
        position: usize,
        values: &mut Values,
    ) -> Result<(), AllocError>
        requires sleeps { self.now.sleeps.now ≡ all_sleeps self.now.execution.now.paths }
        requires events { events.now ≡ all_events self.now.execution.now.paths }
        requires threads { length made.old.steps ≡ length self.now.execution.now.paths.threads }
        requires tellable { AreTellable M.BUFFERED self.now.execution.now self.now.world.now }
        requires before { position < spec.last_place self.now.execution.now.paths self.now.world.now }
        requires table { Serves self.now.execution.now.terms self.now.world.now values.old }
        ensures made { OnOk result (made.new ≡ option_map_or (spec.with_number M.BUFFERED M.bound self.now.execution.now self.now.world.now made.old)
            (spec.event_here self.now.execution.now.paths self.now.world.now position) made.old) }
        ensures threads { OnOk result (length made.new.steps ≡ length self.now.execution.now.paths.threads) }
        ensures table { OnOk result (Serves self.now.execution.now.terms self.now.world.now values.new) }
    {
        match event_at(events, self.world, position) {
            Some((number, placed)) => self.add_event::<M>(made, number, placed, values),
            None => Ok(()),
        }
    }

    /// Appends the moves for an event whose turn it is.
    fn add_event<M: MemoryModel>(
        &self,
        made: &mut Made,
        number: u32,
        placed: &Placed<Event>,
        values: &mut Values,
    ) -> Result<(), AllocError>
        requires sleeps { self.now.sleeps.now ≡ all_sleeps self.now.execution.now.paths }
        requires threads { length made.old.steps ≡ length self.now.execution.now.paths.threads }
        requires tellable { IsTellable M.BUFFERED self.now.execution.now self.now.world.now placed.now.thread placed.now.it }
        requires table { Serves self.now.execution.now.terms self.now.world.now values.old }
        ensures made { OnOk result (made.new ≡ spec.with_number M.BUFFERED M.bound self.now.execution.now self.now.world.now made.old
            (number, placed.now)) }
        ensures threads { OnOk result (length made.new.steps ≡ length self.now.execution.now.paths.threads) }
        ensures table { Serves self.now.execution.now.terms self.now.world.now values.new }
    {
        let Some(walk) = self.execution.paths.threads().get(placed.thread) else {
            return Ok(());
        };
        if M::BUFFERED && is_store(placed.it.kind) {
            self.add_store::<M>(made, placed, walk.name(), values)
        } else {
            self.add_step(made, number, placed, walk.name())
        }
    }

    /// Appends a store in a buffer: its thread's steps up to and including it, and its drain.
    fn add_store<M: MemoryModel>(
        &self,
        made: &mut Made,
        placed: &Placed<Event>,
        name: &ThreadName,
        values: &mut Values,
    ) -> Result<(), AllocError>
        requires thread { placed.now.thread < length made.old.steps }
        requires next { placed.now.it.step + 1 < 2 ^ 64 }
        requires cell { IfSome (memory.cell_of self.now.execution.now.symbolic placed.now.thread placed.now.it.step)
            (IsNumbered self.now.execution.now.terms self.now.world.now) }
        requires table { Serves self.now.execution.now.terms self.now.world.now values.old }
        ensures made { OnOk result (made.new ≡ spec.with_moves made.old placed.now.thread (placed.now.it.step + 1)
            (spec.runs_to made.old placed.now.thread name.now (placed.now.it.step + 1)
            ++ spec.drains_of M.BUFFERED M.bound self.now.execution.now self.now.world.now placed.now.thread name.now placed.now.it.step)) }
        ensures table { Serves self.now.execution.now.terms self.now.world.now values.new }
    {
        let step = placed.it.step;
        made.run_to(placed.thread, name, step + 1)?;
        if let Some(cell) = cell_of(&self.execution.symbolic, placed.thread, step) {
            let number = cell_number(&self.execution.terms, cell, self.world, values);
            made.push(Move::Drain(name.clone()?, form::<M>(number)))?;
        }
        made.reach(placed.thread, step + 1);
        Ok(())
    }

    /// Appends any other event: its thread's steps up to it, and its own.
    fn add_step(
        &self,
        made: &mut Made,
        number: u32,
        placed: &Placed<Event>,
        name: &ThreadName,
    ) -> Result<(), AllocError>
        requires sleeps { self.now.sleeps.now ≡ all_sleeps self.now.execution.now.paths }
        requires thread { placed.now.thread < length made.old.steps }
        requires next { placed.now.it.step + 1 < 2 ^ 64 }
        ensures { OnOk result (made.new ≡ spec.with_moves made.old placed.now.thread (placed.now.it.step + 1)
            (spec.runs_to made.old placed.now.thread name.now placed.now.it.step
            ++ spec.own_move self.now.execution.now.paths self.now.world.now number name.now placed.now.it.kind ∷ [])) }
    {
        let step = placed.it.step;
        made.run_to(placed.thread, name, step)?;
        made.push(self.own_move(number, name, placed.it.kind)?)?;
        made.reach(placed.thread, step + 1);
        Ok(())
    }

    /// The move of the event `number`, which wakes the thread whose sleep it ends, if any.
    fn own_move(&self, number: u32, name: &ThreadName, kind: EventKind) -> Result<Move, AllocError>
        requires { self.now.sleeps.now ≡ all_sleeps self.now.execution.now.paths }
        ensures { IfOk result (λ own. own ≡ spec.own_move self.now.execution.now.paths self.now.world.now number name.now kind) }
    {
        if let EventKind::Signal(_) = kind {
            if let Some(waiter) = woken_by(&self.execution.paths, self.sleeps, self.world, number) {
                return Ok(Move::Wake(name.clone()?, waiter.clone()?));
            }
        }
        Ok(Move::Run(name.clone()?))
    }
}
