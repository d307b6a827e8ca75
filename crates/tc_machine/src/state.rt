//! States of the machine.
ghost use Rattle.std.specs.Prelude.{◌≡◌, ◌+◌, ◌-◌, ◌<◌, ◌^◌, ℕ, true, false, length, replicate, slice_set};
ghost use Rattle.std.specs.Prelude.{IfOk, IfSome, OnOk, OnErr, MatchResult, option_map, Option, Some, None, IsSome, IsSomeAnd};
ghost use Rattle.std.specs.FinMap as map;
ghost use Rattle.std.specs.FinSet as set;
ghost use Rattle.std.specs.List.{All};
ghost use Rattle.tc_code.specs.declared.instr.Instr.TheVariants as flat;
ghost use Rattle.tc_code.specs.Step.{opening, perform, state_after_step, loaded, state_after_store, state_after_drain, step_in_place, with_thread, state_after_wake, waiting_on};
ghost use Rattle.tc_code.specs.Step as plain;
ghost use Rattle.tc_threads.specs.CanDo.{CanAdvance, HasRoom, is_branch};
ghost use Rattle.tc_machine.specs.Exits.{has_exited, all_have_exited};
ghost use Rattle.tc_machine.specs.helpers.CanDo.{AsksIn, CanPerform};
ghost use Rattle.tc_machine.specs.Why.{why_let, why_taken};

use crate::why::Why;
use int_ops::updated;
use std::alloc::{AllocError, Global};
use std::collections::btree_map;
use std::marker::Model;
use store_buffers::MemoryModel;
use tc_base::{Request, ThreadName};
use tc_code::{Code, Instr};
use tc_threads::{Effect, Outcomes, Thread, ThreadNames, Threads, WaitSet};

/// A state of the machine.
#[derive(Drop)]
#[derive_where(Debug)]
pub struct State<M: MemoryModel> {
    memory: Vec<i32>,
    owners: Vec<Option<ThreadName>>,
    waiters: Vec<WaitSet>,
    threads: Threads<M>,
    failed: Option<ThreadName>,
}

impl<M: MemoryModel> Model for State<M> {
    ghost use Rattle.tc_base.specs.States as spec;
    ghost use Rattle.tc_base.specs.helpers.Codes.{coded_state};

    ghost Value = { spec.State M.Buffer };

    ghost coded = { coded_state M.Buffer.code };

    ghost view = { λ s. record {
      memory = s.memory.items;
      owners = s.owners.items;
      waiters = s.waiters.items;
      threads = s.threads;
      failed = s.failed;
    } };
}

/// The initial state of a run: main alone, at its first instruction.
pub fn start<M: MemoryModel>(alloc: Global, code: &Code) -> Result<State<M>, AllocError>
    ensures { IfOk result (λ s. s ≡ opening M.ops code.now) }
{
    let memory = code.memory().to_vec(alloc)?;
    let owners = no_owners(alloc, code.mutexes())?;
    let waiters = no_waiters(alloc, code.conditions())?;
    let main = Thread::at_start(alloc, code, code.functions().len() - 1, Vec::new(alloc))?;
    Ok(State {
        memory,
        owners,
        waiters,
        threads: Threads::of_main(alloc, main)?,
        failed: None,
    })
}

/// The owners of `count` mutexes, all free.
fn no_owners(alloc: Global, count: u32) -> Result<Vec<Option<ThreadName>>, AllocError>
    ensures { IfOk result (λ owners. owners.items ≡ replicate count None) }
{
    let mut owners = Vec::new(alloc);
    for _k in 0..count {
        owners.push(None)?;
    }
    Ok(owners)
}

/// The wait sets of `count` conditions, all empty.
fn no_waiters(alloc: Global, count: u32) -> Result<Vec<WaitSet>, AllocError>
    ensures { IfOk result (λ waiters. waiters.items ≡ replicate count set.empty) }
{
    let mut waiters = Vec::new(alloc);
    for _k in 0..count {
        waiters.push(WaitSet::new(alloc))?;
    }
    Ok(waiters)
}

impl<M: MemoryModel> State<M> {
    /// The thread that failed, if any.
    pub fn failed(&self) -> Option<&ThreadName>
        ensures { option_map (λ n. n.now) result ≡ self.now.failed }
    {
        self.failed.as_ref()
    }

    /// The names of the threads, in order.
    pub fn threads(&self) -> &ThreadNames
        ensures { result.now ≡ map.keys self.now.threads }
    {
        self.threads.names()
    }

    /// The number of steps of a thread, a failing one included.
    pub fn steps_of(&self, name: &ThreadName) -> Option<u32>
        ensures { result ≡ option_map (λ t. t.local.steps) (map.get self.now.threads name.now) }
    {
        Some(self.thread(name)?.local().steps())
    }

    /// The outcomes of a thread's branches.
    pub fn outcomes_of(&self, name: &ThreadName) -> Option<&Outcomes>
        ensures { option_map (λ o. o.now) result
            ≡ option_map (λ t. t.local.outcomes) (map.get self.now.threads name.now) }
    {
        Some(self.thread(name)?.local().outcomes())
    }

    /// Whether every thread has exited.
    pub fn all_have_exited(&self) -> bool
        ensures { result ≡ all_have_exited self.now }
    {
        let names = self.threads().as_slice();
        names.iter().all(|name| self.has_exited(name))
    }

    /// Whether a thread exists and has exited.
    fn has_exited(&self, name: &ThreadName) -> bool
        ensures { result ≡ has_exited self.now name.now }
    {
        match self.thread(name) {
            Some(thread) => thread.local().has_exited(),
            None => false,
        }
    }

    /// The indices of a thread's function and of its next instruction there.
    pub fn place_of(&self, name: &ThreadName) -> Option<(usize, usize)>
        ensures { result
            ≡ option_map (λ t. (t.local.function, t.local.instruction)) (map.get self.now.threads name.now) }
    {
        Some(self.thread(name)?.local().place())
    }

    /// The threads with their names, in order.
    pub fn entries(&self) -> btree_map::Iter<'_, ThreadName, Thread<M>>
        ensures rest { result ≡ map.entries self.now.threads }
        ensures found { All (λ e. map.get self.now.threads e.0 ≡ Some e.1) result }
    {
        self.threads.iter()
    }

    pub(crate) fn thread(&self, name: &ThreadName) -> Option<&Thread<M>>
        ensures { option_map (λ t. t.now) result ≡ map.get self.now.threads name.now }
    {
        self.threads.get(name)
    }

    /// The threads that wait on a condition.
    pub(crate) fn waiting_on(&self, condition: u32) -> &WaitSet
        requires { condition < length self.now.waiters }
        ensures { result.now ≡ waiting_on self.now condition }
    {
        &self.waiters[condition as usize]
    }

    /// Whether mutexes, waiters and children allow a request, or why not.
    pub(crate) fn lets(&self, name: &ThreadName, request: Request) -> Result<(), Why>
        requires { AsksIn self.now request }
        ensures { MatchResult result
            (λ _. why_let self.now name.now request ≡ None)
            (λ w. why_let self.now name.now request ≡ Some w) }
    {
        match request {
            Request::Acquire(mutex) => self.check_free(mutex),
            Request::EndWait(condition, mutex) => {
                if self.waiters[condition as usize].contains(name) {
                    return Err(Why::NotWoken);
                }
                self.check_free(mutex)
            }
            Request::WakeOne(condition) => {
                if self.waiters[condition as usize].is_empty() {
                    Ok(())
                } else {
                    Err(Why::WaiterNeeded)
                }
            }
            Request::Await(number) => {
                if self.threads.child_has_exited(name, number) {
                    Ok(())
                } else {
                    Err(Why::NotEnded)
                }
            }
            _ => Ok(()),
        }
    }

    /// Whether a mutex is free, or why not.
    fn check_free(&self, mutex: u32) -> Result<(), Why>
        requires { mutex < length self.now.owners }
        ensures { MatchResult result
            (λ _. why_taken self.now mutex ≡ None)
            (λ w. why_taken self.now mutex ≡ Some w) }
    {
        match self.owners[mutex as usize] {
            None => Ok(()),
            Some(_) => Err(Why::Held),
        }
    }

    /// Does a thread's instruction, whose request may be met.
    pub(crate) fn perform(
        &mut self,
        alloc: Global,
        code: &Code,
        name: &ThreadName,
        instr: &Instr,
        request: Request,
    ) -> Result<(), AllocError>
        requires { IsSomeAnd (map.get self.old.threads name.now)
            (CanPerform code.now self.old name.now instr.now request) }
        ensures ok { OnOk result (IfSome (map.get self.old.threads name.now)
            (λ t. self.new ≡ perform M.ops code.now self.old name.now t instr.now request)) }
        ensures err { OnErr result (self.new ≡ self.old) }
    {
        match request {
            Request::Silent
            | Request::WakeOne(_)
            | Request::Await(_)
            | Request::OrderStores
            | Request::Finish => self.threads.advance(name, instr, Effect::Takes(0))?,
            Request::Read(cell) => {
                let taken = self.loaded(name, cell);
                self.threads.advance(name, instr, Effect::Takes(taken))?;
            }
            Request::Write(cell, value) => self.store(name, instr, cell, value)?,
            Request::Bar => self.threads.advance(name, instr, Effect::Bars)?,
            Request::Exchange(cell, update) => {
                let taken = self.memory[cell as usize];
                self.threads.advance(name, instr, Effect::Takes(taken))?;
                self.memory[cell as usize] = updated(update, taken);
            }
            Request::Acquire(mutex) | Request::EndWait(_, mutex) => self.take(name, instr, mutex)?,
            Request::Release(mutex) => {
                self.threads.advance(name, instr, Effect::Takes(0))?;
                self.owners[mutex as usize] = None;
            }
            Request::BeginWait(condition, mutex) => self.sleep(name, instr, condition, mutex)?,
            Request::WakeAll(condition) => {
                self.threads.advance(name, instr, Effect::Takes(0))?;
                self.waiters[condition as usize].clear();
            }
            Request::Start(function) => self.create(alloc, code, name, instr, function)?,
            Request::Fail => self.fail(name)?,
        }
        Ok(())
    }

    /// What a thread's load returns: its newest pending store to the cell, else the value in
    /// memory.
    fn loaded(&self, name: &ThreadName, cell: u32) -> i32
        requires { cell < length self.now.memory }
        ensures { IfSome (map.get self.now.threads name.now) (λ t. result ≡ loaded M.ops self.now t cell) }
    {
        let own = match self.threads.get(name) {
            Some(thread) => thread.forward(cell),
            None => None,
        };
        own.unwrap_or(self.memory[cell as usize])
    }

    /// Puts a thread's store into its buffer, or into memory if the model has no buffers.
    fn store(
        &mut self,
        name: &ThreadName,
        instr: &Instr,
        cell: u32,
        value: i32,
    ) -> Result<(), AllocError>
        requires can { CanAdvance self.old.threads name.now instr.now }
        requires there { cell < length self.old.memory }
        requires no_branch { is_branch instr.now ≡ false }
        ensures ok { OnOk result (IfSome (map.get self.old.threads name.now)
            (λ t. self.new ≡ state_after_store M.ops self.old name.now t instr.now cell value)) }
        ensures err { OnErr result (self.new ≡ self.old) }
    {
        if M::BUFFERED {
            return self
                .threads
                .advance(name, instr, Effect::Issues(cell, value));
        }
        self.threads.advance(name, instr, Effect::Takes(0))?;
        self.memory[cell as usize] = value;
        Ok(())
    }

    /// Makes a thread fail at its place.
    fn fail(&mut self, name: &ThreadName) -> Result<(), AllocError>
        requires { IfSome (map.get self.old.threads name.now) (λ t. HasRoom t.local) }
        ensures ok { OnOk result (IfSome (map.get self.old.threads name.now)
            (λ t. self.new ≡ record (with_thread self.old name.now (record t { local = step_in_place t.local })) { failed = Some name.now })) }
        ensures err { OnErr result (self.new ≡ self.old) }
    {
        let failed = name.clone()?;
        self.threads.stop(name);
        self.failed = Some(failed);
        Ok(())
    }

    /// Acquires a mutex for a thread.
    fn take(&mut self, name: &ThreadName, instr: &Instr, mutex: u32) -> Result<(), AllocError>
        requires can { CanAdvance self.old.threads name.now instr.now }
        requires there { mutex < length self.old.owners }
        ensures ok { OnOk result (IfSome (map.get self.old.threads name.now)
            (λ t. self.new ≡ record (state_after_step M.ops self.old name.now t instr.now) { owners = slice_set self.old.owners mutex (Some name.now) })) }
        ensures err { OnErr result (self.new ≡ self.old) }
    {
        let owner = name.clone()?;
        self.threads.advance(name, instr, Effect::Takes(0))?;
        self.owners[mutex as usize] = Some(owner);
        Ok(())
    }

    /// Releases a thread's mutex and makes the thread wait on a condition.
    fn sleep(
        &mut self,
        name: &ThreadName,
        instr: &Instr,
        condition: u32,
        mutex: u32,
    ) -> Result<(), AllocError>
        requires can { CanAdvance self.old.threads name.now instr.now }
        requires condition { condition < length self.old.waiters }
        requires mutex { mutex < length self.old.owners }
        requires no_branch { is_branch instr.now ≡ false }
        ensures ok { OnOk result (IfSome (map.get self.old.threads name.now)
            (λ t. self.new ≡ record (state_after_step M.ops self.old name.now t instr.now) {
              owners = slice_set self.old.owners mutex None;
              waiters = slice_set self.old.waiters condition (set.insert (waiting_on self.old condition) name.now);
            })) }
        ensures err { OnErr result (self.new ≡ self.old) }
    {
        let waiter = name.clone()?;
        self.waiters[condition as usize].insert(waiter)?;
        self.threads.advance(name, instr, Effect::Takes(0))?;
        self.owners[mutex as usize] = None;
        Ok(())
    }

    /// Creates a child of a thread, which runs the function.
    fn create(
        &mut self,
        alloc: Global,
        code: &Code,
        name: &ThreadName,
        instr: &Instr,
        function: u32,
    ) -> Result<(), AllocError>
        requires { IsSomeAnd (map.get self.old.threads name.now)
            (CanPerform code.now self.old name.now instr.now (Request.Start function)) }
        ensures ok { OnOk result (IfSome (map.get self.old.threads name.now)
            (λ t. self.new ≡ perform M.ops code.now self.old name.now t instr.now (Request.Start function))) }
        ensures err { OnErr result (self.new ≡ self.old) }
    {
        let Some(thread) = self.threads.get(name) else {
            unreachable!()
        };
        let parent = thread.local();
        let arguments = parent.arguments(alloc, instr)?;
        let child = name.child(parent.children() + 1)?;
        let thread = Thread::at_start(alloc, code, function as usize, arguments)?;
        self.threads.create(name, instr, child, thread)
    }

    /// Does a thread's signal, which wakes a thread that waits on the condition.
    pub(crate) fn wake(
        &mut self,
        name: &ThreadName,
        waiter: &ThreadName,
        instr: &Instr,
        condition: u32,
    ) -> Result<(), AllocError>
        requires can { CanAdvance self.old.threads name.now instr.now }
        requires there { condition < length self.old.waiters }
        requires signals { instr.now ≡ flat.Signal condition }
        ensures ok { OnOk result (IfSome (map.get self.old.threads name.now)
            (λ t. self.new ≡ state_after_wake M.ops self.old name.now waiter.now t condition)) }
        ensures err { OnErr result (self.new ≡ self.old) }
    {
        self.threads.advance(name, instr, Effect::Takes(0))?;
        self.waiters[condition as usize].remove(waiter);
        Ok(())
    }

    /// Moves a buffered store of a thread to memory.
    pub(crate) fn drain(&mut self, name: &ThreadName, form: Option<u32>)
        requires can { IsSomeAnd (map.get self.old.threads name.now) (λ t. M.ops.may_drain t.buffer form ≡ true) }
        requires within { IfSome (map.get self.old.threads name.now)
            (λ t. (M.ops.drain t.buffer form).entry.cell < length self.old.memory) }
        ensures { IfSome (map.get self.old.threads name.now) (λ t. self.new ≡ state_after_drain M.ops self.old name.now t form) }
    {
        let (cell, value) = self.threads.drain(name, form);
        self.memory[cell as usize] = value;
    }
}
