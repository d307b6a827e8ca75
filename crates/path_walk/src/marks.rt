//! A thread's mutexes and thread variables, as its own steps leave them.
ghost use Rattle.std.specs.Prelude.{◌≡◌, ◌+◌, ◌<◌, ◌^◌, IfOk, slice_set};
ghost use Rattle.tc_base.specs.declared.handle.Handle.{Handle};
ghost use Rattle.tc_code.specs.Step as step;
ghost use Rattle.path_walk.specs.Marks.{marks_at_start, has_mutex, handle_in, marks_after_instr};
ghost use Rattle.path_walk.specs.Events.{asks, kind_with, excludes, last_sleep, blocked_at};

use crate::{Blocked, EventKind, Sleep};
use std::alloc::{AllocError, Global};
use std::marker::Model;
use tc_base::Handle;
use tc_code::{Code, Instr};

/// A thread's mutexes and thread variables, as its own steps leave them.
#[derive(Drop)]
pub struct Marks {
    held: Vec<bool>,
    handles: Vec<Handle>,
    children: u32,
    bars: usize,
}

impl Model for Marks {
    ghost use Rattle.path_walk.specs.Marks as spec;

    ghost Value = { spec.Marks };

    ghost view = { λ t. record {
      held = t.held.items;
      handles = t.handles.items;
      children = t.children;
      bars = t.bars;
    } };
}

impl Marks {
    /// The marks at the start of a function.
    pub fn at_start(alloc: Global, code: &Code, function: usize) -> Result<Marks, AllocError>
        ensures { IfOk result (λ t. t ≡ marks_at_start code.now function) }
    {
        let handles = match code.functions().get(function) {
            Some(func) => func.handles,
            None => 0,
        };
        Ok(Marks {
            held: vec![in alloc; false; code.mutexes() as usize]?,
            handles: vec![in alloc; Handle::Unset; handles as usize]?,
            children: 0,
            bars: 0,
        })
    }

    /// The number of bars that the thread has put between its stores.
    pub fn bars(&self) -> usize
        ensures { result ≡ self.now.bars }
    {
        self.bars
    }

    /// The event kind of a step that fails or doesn't, if it is an event.
    pub fn kind(&self, instr: &Instr, fails: bool) -> Option<EventKind>
        requires { self.now.children + 1 < 2 ^ 32 }
        ensures { result ≡ kind_with self.now instr.now fails }
    {
        if fails {
            return Some(EventKind::Fail);
        }
        self.asks(instr)
    }

    fn asks(&self, instr: &Instr) -> Option<EventKind>
        requires { self.now.children + 1 < 2 ^ 32 }
        ensures { result ≡ asks self.now instr.now }
    {
        match instr {
            Instr::Load { .. } => Some(EventKind::Load),
            Instr::Store { .. } => Some(EventKind::Store),
            Instr::Modify { .. } => Some(EventKind::Exchange),
            Instr::Lock { mutex } => Some(EventKind::Lock(*mutex)),
            Instr::Unlock { mutex } => Some(EventKind::Unlock(*mutex)),
            Instr::Sleep { condition, mutex } => Some(EventKind::Sleep {
                condition: *condition,
                mutex: *mutex,
            }),
            Instr::Wake { condition, mutex } => Some(EventKind::Wake {
                condition: *condition,
                mutex: *mutex,
            }),
            Instr::Signal { condition } => Some(EventKind::Signal(*condition)),
            Instr::Broadcast { condition } => Some(EventKind::Broadcast(*condition)),
            Instr::Create { .. } => Some(EventKind::Create(self.children + 1)),
            Instr::Join { handle } => Some(EventKind::Join(child_number(self.handle(*handle)))),
            Instr::Fence => Some(EventKind::Fence),
            Instr::Exit => Some(EventKind::Exit),
            _ => None,
        }
    }

    /// Whether the path alone rules out a step that fails or doesn't.
    pub fn excludes(&self, instr: &Instr, fails: bool) -> bool
        ensures { result ≡ excludes self.now instr.now fails }
    {
        match instr {
            Instr::Lock { mutex } => self.has_mutex(*mutex),
            Instr::Holds { mutex } => self.has_mutex(*mutex) == fails,
            Instr::Ready { handle } => can_be_joined(self.handle(*handle)) == fails,
            _ => false,
        }
    }

    /// What blocks a thread at an instruction, given its sleeps, if the instruction can block.
    pub fn blocked(&self, instr: &Instr, sleeps: &[Sleep]) -> Option<Blocked>
        ensures { result ≡ blocked_at self.now sleeps.now instr.now }
    {
        match instr {
            Instr::Lock { mutex } => Some(Blocked::Lock { mutex: *mutex }),
            Instr::Wake { condition, mutex } => Some(Blocked::Wake {
                condition: *condition,
                mutex: *mutex,
                sleep: last_sleep(sleeps),
            }),
            Instr::Join { handle } => Some(Blocked::Join {
                child: child_number(self.handle(*handle)),
            }),
            _ => None,
        }
    }

    /// Does a step.
    pub fn apply(&mut self, instr: &Instr)
        requires children { self.old.children + 1 < 2 ^ 32 }
        requires bars { self.old.bars + 1 < 2 ^ 64 }
        ensures { self.new ≡ marks_after_instr self.old instr.now }
    {
        match instr {
            Instr::Lock { mutex } | Instr::Wake { mutex, .. } => self.hold(*mutex, true),
            Instr::Unlock { mutex } | Instr::Sleep { mutex, .. } => self.hold(*mutex, false),
            Instr::Create { handle, .. } => self.create(*handle),
            Instr::Join { handle } => self.join(*handle),
            Instr::Stbar => self.bars += 1,
            _ => {}
        }
    }

    fn has_mutex(&self, mutex: u32) -> bool
        ensures { result ≡ has_mutex self.now mutex }
    {
        match self.held.get(mutex as usize) {
            Some(held) => *held,
            None => false,
        }
    }

    fn handle(&self, handle: u32) -> Handle
        ensures { result ≡ handle_in self.now handle }
    {
        match self.handles.get(handle as usize) {
            Some(handle) => *handle,
            None => Handle::Unset,
        }
    }

    /// Acquires or releases a mutex.
    fn hold(&mut self, mutex: u32, holds: bool)
        ensures { self.new ≡ record self.old { held = slice_set self.old.held mutex holds } }
    {
        let mutex = mutex as usize;
        if mutex < self.held.len() {
            self.held[mutex] = holds;
        }
    }

    fn set(&mut self, handle: u32, value: Handle)
        ensures { self.new ≡ record self.old { handles = slice_set self.old.handles handle value } }
    {
        let handle = handle as usize;
        if handle < self.handles.len() {
            self.handles[handle] = value;
        }
    }

    /// Puts a new child into a thread variable.
    fn create(&mut self, handle: u32)
        requires { self.old.children + 1 < 2 ^ 32 }
        ensures { self.new ≡ record self.old {
          handles = slice_set self.old.handles handle (Handle.Child (self.old.children + 1));
          children = self.old.children + 1;
        } }
    {
        self.children += 1;
        let child = Handle::Child(self.children);
        self.set(handle, child);
    }

    /// Marks the child of a thread variable as joined.
    fn join(&mut self, handle: u32)
        ensures { self.new ≡ record self.old {
          handles = slice_set self.old.handles handle (Handle.Joined (step.child_number (handle_in self.old handle)));
        } }
    {
        let joined = Handle::Joined(child_number(self.handle(handle)));
        self.set(handle, joined);
    }
}

/// The step of the last sleep, and 0 if there is none.
fn last_sleep(sleeps: &[Sleep]) -> usize
    ensures { result ≡ last_sleep sleeps.now }
{
    match sleeps.last() {
        Some(sleep) => sleep.step,
        None => 0,
    }
}

/// The number of a child that hasn't been joined, else 0, which no child has.
fn child_number(handle: Handle) -> u32
    ensures { result ≡ step.child_number handle }
{
    match handle {
        Handle::Child(number) => number,
        _ => 0,
    }
}

/// Whether a handle is a child that hasn't been joined.
fn can_be_joined(handle: Handle) -> bool
    ensures { result ≡ step.can_be_joined handle }
{
    matches!(handle, Handle::Child(_))
}
