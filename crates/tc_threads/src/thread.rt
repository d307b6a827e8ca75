//! A thread: its local state and its store buffer.
ghost use Rattle.std.specs.Prelude.{◌≡◌, ◌+◌, ◌<◌, ◌≤◌, ◌^◌, length, true, IfOk, OnOk, OnErr, OnSome, option_map};
ghost use Rattle.store_buffers.specs.Laws.{AreForms};
ghost use Rattle.tc_code.specs.Code as flat;
ghost use Rattle.tc_code.specs.Lawful.{IsLawful};
ghost use Rattle.tc_code.specs.Step as plain;
ghost use Rattle.tc_threads.specs.CanDo.{CanAsk, CanDo};
ghost use Rattle.tc_threads.specs.Effects.{MayHave, MayRefuse, affected};

use crate::effect::Effect;
use crate::local::Local;
use std::alloc::{AllocError, Global};
use std::marker::Model;
use store_buffers::MemoryModel;
use tc_base::Request;
use tc_code::{Code, Instr};

/// A thread: its local state and its store buffer.
#[derive(Drop)]
#[derive_where(Debug)]
pub struct Thread<M: MemoryModel> {
    local: Local,
    buffer: M::Buffer,
}

impl<M: MemoryModel> Model for Thread<M> {
    ghost use Rattle.tc_base.specs.States as spec;
    ghost use Rattle.tc_base.specs.helpers.Codes.{coded_thread};

    ghost Value = { spec.Thread M.Buffer };

    ghost view = { λ t. record { local = t.local; buffer = t.buffer } };
}

impl<M: MemoryModel> Thread<M> {
    /// A thread at the start of a function: its first slots are the arguments, all else is 0, unset
    /// and free, and its buffer is empty.
    pub fn at_start(
        alloc: Global,
        code: &Code,
        function: usize,
        arguments: Vec<i32>,
    ) -> Result<Thread<M>, AllocError>
        requires there { function < length code.now.functions }
        requires room { length arguments.items ≤ plain.ints_of code.now function }
        ensures { IfOk result (λ t. t ≡ plain.born M.ops code.now function arguments.items) }
    {
        Ok(Thread {
            local: Local::at_start(alloc, code, function, arguments)?,
            buffer: M::empty(alloc),
        })
    }

    /// The thread's state without its buffer.
    pub fn local(&self) -> &Local
        ensures { result.now ≡ self.now.local }
    {
        &self.local
    }

    /// The thread's next instruction; none after its exit.
    pub fn instr<'a>(&self, code: &'a Code) -> Option<&'a Instr>
        ensures next { option_map (λ i. i.now) result ≡ plain.instr_of code.now self.now.local }
        ensures lawful { OnSome result (IsLawful code.now) }
        ensures room { OnSome result (self.now.local.instruction + 1 < 2 ^ 64) }
    {
        self.local.instr(code)
    }

    /// The request of an instruction.
    pub fn request(&self, instr: &Instr) -> Request
        requires { (code : flat.Code) × CanAsk code self.now.local instr.now }
        ensures { result ≡ plain.request self.now.local instr.now }
    {
        self.local.request(instr)
    }

    /// The value of the thread's newest pending store to a cell, if any.
    pub fn forward(&self, cell: u32) -> Option<i32>
        ensures { result ≡ M.ops.forward self.now.buffer cell }
    {
        M::forward(&self.buffer, cell)
    }

    /// Whether all its stores have drained.
    pub fn is_drained(&self) -> bool
        ensures { result ≡ M.ops.is_empty self.now.buffer }
    {
        M::is_empty(&self.buffer)
    }

    /// Whether a store may drain by this form.
    pub fn may_drain(&self, form: Option<u32>) -> bool
        ensures { result ≡ M.ops.may_drain self.now.buffer form }
    {
        M::may_drain(&self.buffer, form)
    }

    /// The forms by which the thread's stores may drain, in order.
    pub fn forms(&self, alloc: Global) -> Result<Vec<Option<u32>>, AllocError>
        ensures { IfOk result (λ forms. AreForms M.ops self.now.buffer forms.items) }
    {
        M::forms(alloc, &self.buffer)
    }

    /// Does an instruction that doesn't fail, with this effect. It allocates before anything
    /// changes.
    pub fn advance(&mut self, instr: &Instr, effect: Effect) -> Result<(), AllocError>
        requires can { (code : flat.Code) × CanDo code self.old.local instr.now }
        requires may { MayHave M.ops instr.now effect }
        ensures ok { OnOk result (self.new ≡ affected M.ops self.old instr.now effect) }
        ensures err { OnErr result (self.new ≡ self.old) }
        ensures only { OnErr result (MayRefuse instr.now effect) }
    {
        match effect {
            Effect::Takes(value) => self.local.advance(instr, value),
            Effect::Issues(cell, value) => {
                M::issue(&mut self.buffer, cell, value)?;
                self.local.advance(instr, 0)
            }
            Effect::Bars => {
                M::bar(&mut self.buffer)?;
                self.local.advance(instr, 0)
            }
        }
    }

    /// Removes the store that drains by this form, and returns its cell and value.
    pub fn drain(&mut self, form: Option<u32>) -> (u32, i32)
        requires { M.ops.may_drain self.old.buffer form ≡ true }
        ensures cell { result.0 ≡ (M.ops.drain self.old.buffer form).entry.cell }
        ensures value { result.1 ≡ (M.ops.drain self.old.buffer form).entry.value }
        ensures rest { self.new ≡ record self.old { buffer = (M.ops.drain self.old.buffer form).rest } }
    {
        let Some(store) = M::drain(&mut self.buffer, form) else {
            unreachable!()
        };
        store
    }

    /// Counts a step that stays at its place.
    pub fn count_step(&mut self)
        requires { self.old.local.steps + 1 < 2 ^ 32 }
        ensures { self.new ≡ record self.old { local = plain.step_in_place self.old.local } }
    {
        self.local.count_step();
    }
}
