//! Memory and the stores that wait, after some deeds.
ghost use Rattle.std.specs.Prelude.{◌≡◌, [], IfOk, OnOk, OnErr, option_map, pos, slice_index_or, slice_set};
ghost use Rattle.std.specs.List.{filter};
ghost use Rattle.show_deeds.specs.Deeds.{plain_deed};
ghost use Rattle.show_deeds.specs.Seen as spec;
ghost use Rattle.show_deeds.specs.Seen.{is_other, seen_after, taken_by};
ghost use Rattle.show_deeds.specs.declared.deed.Deed.TheVariants as deed;

use crate::deed::{Deed, Step, Stored};
use int_ops::updated;
use std::alloc::{AllocError, Global};
use std::marker::Model;
use store_buffers::MemoryModel;
use tc_base::{Request, ThreadName};
use tc_code::Code;
use tc_threads::Thread;

/// Memory after some deeds, and the stores that wait in buffers, oldest first.
#[derive(Drop)]
pub struct Seen {
    memory: Vec<i32>,
    waiting: Vec<Stored>,
}

impl Model for Seen {
    ghost use Rattle.show_deeds.specs.Seen as spec;

    ghost Value = { spec.Seen };

    ghost view = { λ s. record { memory = s.memory.items; waiting = s.waiting.items } };
}

impl Seen {
    /// The state before any deed.
    pub fn at_start(alloc: Global, code: &Code) -> Result<Seen, AllocError>
        ensures { IfOk result (λ s. s ≡ spec.at_start code.now) }
    {
        Ok(Seen {
            memory: code.memory().to_vec(alloc)?,
            waiting: Vec::new(alloc),
        })
    }

    /// The value of each cell.
    pub fn memory(&self) -> &[i32]
        ensures { result.now ≡ self.now.memory }
    {
        self.memory.as_slice()
    }

    /// The stores that wait in buffers, oldest first.
    pub fn waiting(&self) -> &[Stored]
        ensures { result.now ≡ self.now.waiting }
    {
        self.waiting.as_slice()
    }

    /// The value that a thread's request takes, or 0 if it takes none.
    pub fn taken<M: MemoryModel>(&self, thread: &Thread<M>, asks: Request) -> i32
        ensures { result ≡ taken_by M.ops self.now.memory thread.now asks }
    {
        match asks {
            Request::Read(cell) => match thread.forward(cell) {
                Some(value) => value,
                None => self.in_memory(cell),
            },
            Request::Exchange(cell, _) => self.in_memory(cell),
            _ => 0,
        }
    }

    /// The value of a cell in memory.
    fn in_memory(&self, cell: u32) -> i32
        ensures { result ≡ slice_index_or self.now.memory cell (pos 0) }
    {
        match self.memory.get(cell as usize) {
            Some(value) => *value,
            None => 0,
        }
    }

    /// The first of a thread's stores that wait, or the first to a cell.
    pub fn first_by(&self, name: &ThreadName, form: Option<u32>) -> Option<&Stored>
        ensures { option_map (λ s. s.now) result ≡ spec.first_by name.now form self.now.waiting }
    {
        let mut rest = self.waiting.as_slice();
        while let [stored, later @ ..] = rest {
            if stored.thread == *name && is_by(form, stored.cell) {
                return Some(stored);
            }
            rest = later;
        }
        None
    }

    /// Records a deed, given whether there are buffers.
    pub fn take(&mut self, buffered: bool, deed: &Deed) -> Result<(), AllocError>
        ensures ok { OnOk result (self.new ≡ seen_after buffered self.old (plain_deed deed.now)) }
        ensures err { OnErr result (self.new ≡ self.old) }
    {
        match deed {
            Deed::Did(step) => self.take_step(buffered, step),
            Deed::Drained(stored) => {
                self.put(stored.cell, stored.value);
                self.remove(&stored.thread, stored.number);
                Ok(())
            }
        }
    }

    /// Records a step.
    fn take_step(&mut self, buffered: bool, step: &Step) -> Result<(), AllocError>
        ensures ok { OnOk result (self.new ≡ seen_after buffered self.old (plain_deed (deed.Did step.now))) }
        ensures err { OnErr result (self.new ≡ self.old) }
    {
        match step.asks {
            Request::Write(cell, value) if buffered => {
                let stored = Stored {
                    thread: step.thread.clone()?,
                    number: step.number,
                    cell,
                    value,
                };
                self.waiting.push(stored)?;
            }
            Request::Write(cell, value) => self.put(cell, value),
            Request::Exchange(cell, update) => self.put(cell, updated(update, step.took)),
            _ => {}
        }
        Ok(())
    }

    /// Sets the value of a cell in memory.
    fn put(&mut self, cell: u32, value: i32)
        ensures { self.new ≡ record self.old { memory = slice_set self.old.memory cell value } }
    {
        if let Some(place) = self.memory.get_mut(cell as usize) {
            *place = value;
        }
    }

    /// Removes the store of this step of the thread, which waits no longer.
    fn remove(&mut self, thread: &ThreadName, number: u32)
        ensures { self.new ≡ record self.old { waiting = filter (is_other thread.now number) self.old.waiting } }
    {
        keep_others(&mut self.waiting, thread, number);
    }
}

/// Removes the store of this step of the thread from a list.
fn keep_others(waiting: &mut Vec<Stored>, thread: &ThreadName, number: u32)
    ensures { waiting.new.items ≡ filter (is_other thread.now number) waiting.old.items }
{
    waiting.retain(|other| is_other(other, thread, number));
}

/// Whether a stored entry is not the store of this step of the thread.
fn is_other(stored: &Stored, thread: &ThreadName, number: u32) -> bool
    ensures { result ≡ is_other thread.now number stored.now }
{
    !(stored.thread == *thread && stored.number == number)
}

/// Whether a store to this cell drains in this form.
fn is_by(form: Option<u32>, cell: u32) -> bool
    ensures { result ≡ spec.is_by form cell }
{
    match form {
        Some(only) => cell == only,
        None => true,
    }
}
