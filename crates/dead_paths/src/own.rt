//! A thread's mutexes and thread variables, as its own steps leave them.
ghost use Rattle.std.specs.Prelude.{◌≡◌, IfOk, slice_set, slice_index_or, false};
ghost use Rattle.path_walk.specs.Events.{excludes};
ghost use Rattle.path_walk.specs.Marks.{Marks, marks_after_instr};
ghost use Rattle.dead_paths.specs.helpers.Own.{nothing_own, own_of};

use std::alloc::{AllocError, Global};
use std::marker::Model;
use tc_code::{Code, Instr};

/// Which mutexes a thread holds, and which of its thread variables have a child that can be joined.
#[derive(Drop)]
pub(crate) struct Own {
    held: Vec<bool>,
    joinable: Vec<bool>,
}

impl Model for Own {
    ghost use Rattle.dead_paths.specs.helpers.Own.{Own as PlainOwn};

    ghost Value = { PlainOwn };

    ghost view = { λ o. record { held = o.held.items; joinable = o.joinable.items } };
}

impl Own {
    /// The state at the start of a function.
    pub(crate) fn at_start(alloc: Global, code: &Code, function: usize) -> Result<Own, AllocError>
        ensures { IfOk result (λ own. own ≡ nothing_own code.now function) }
    {
        let handles = match code.functions().get(function) {
            Some(func) => func.handles,
            None => 0,
        };
        Ok(Own {
            held: vec![in alloc; false; code.mutexes() as usize]?,
            joinable: vec![in alloc; false; handles as usize]?,
        })
    }

    /// Whether the path alone rules out a step that fails or doesn't.
    pub(crate) fn excludes(&self, instr: &Instr, fails: bool) -> bool
        ensures { (t : Marks) → self.now ≡ own_of t → result ≡ excludes t instr.now fails }
    {
        match instr {
            Instr::Lock { mutex } => is_set(&self.held, *mutex),
            Instr::Holds { mutex } => is_set(&self.held, *mutex) == fails,
            Instr::Ready { handle } => is_set(&self.joinable, *handle) == fails,
            _ => false,
        }
    }

    /// Does a step.
    pub(crate) fn apply(&mut self, instr: &Instr)
        ensures { (t : Marks) → self.old ≡ own_of t → self.new ≡ own_of (marks_after_instr t instr.now) }
    {
        match instr {
            Instr::Lock { mutex } | Instr::Wake { mutex, .. } => self.hold(*mutex, true),
            Instr::Unlock { mutex } | Instr::Sleep { mutex, .. } => self.hold(*mutex, false),
            Instr::Create { handle, .. } => self.join(*handle, true),
            Instr::Join { handle } => self.join(*handle, false),
            _ => {}
        }
    }

    /// Acquires or releases a mutex.
    fn hold(&mut self, mutex: u32, holds: bool)
        ensures { self.new ≡ record self.old { held = slice_set self.old.held mutex holds } }
    {
        let mutex = mutex as usize;
        if mutex < self.held.len() {
            self.held[mutex] = holds;
        }
    }

    /// Notes whether the child of a thread variable can be joined.
    fn join(&mut self, handle: u32, can: bool)
        ensures { self.new ≡ record self.old { joinable = slice_set self.old.joinable handle can } }
    {
        let handle = handle as usize;
        if handle < self.joinable.len() {
            self.joinable[handle] = can;
        }
    }
}

/// The mark at an index; false past the end.
fn is_set(marks: &[bool], place: u32) -> bool
    ensures { result ≡ slice_index_or marks.now place false }
{
    match marks.get(place as usize) {
        Some(mark) => *mark,
        None => false,
    }
}
