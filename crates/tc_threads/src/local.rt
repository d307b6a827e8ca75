//! The local state of a thread, without its store buffer, and what an instruction asks and does
//! there.
ghost use Rattle.std.specs.Prelude.{◌≡◌, ℕ, ◌+◌, ◌<◌, ◌≤◌, ◌^◌, length, slice_set, map, true, IsTrue, IfOk, OnOk, OnErr, OnSome, option_map};
ghost use Rattle.std.specs.List.{list_all};
ghost use Rattle.int_ops.specs.Updates.{operands_of};
ghost use Rattle.store_buffers.specs.Buffers.{no_buffer};
ghost use Rattle.tc_base.specs.declared.handle.Handle.{Handle};
ghost use Rattle.tc_code.specs.Code as flat;
ghost use Rattle.tc_code.specs.Lawful.{IsLawful};
ghost use Rattle.tc_code.specs.Expr.{value_of, names_slots};
ghost use Rattle.tc_code.specs.Step as plain;
ghost use Rattle.tc_threads.specs.CanDo.{CanAsk, CanReach, CanDo, HasRoom, is_branch};

use crate::outcomes::Outcomes;
use crate::request::{can_be_joined, cell_at, child_number, is_distance, is_within, site};
use int_ops::Update;
use std::alloc::{AllocError, Global};
use std::marker::Model;
use tc_base::{Handle, Request};
use tc_code::{Cell, Code, Expr, Instr, value};

/// The local state of a thread, without its store buffer.
#[derive(Debug, Drop)]
pub struct Local {
    function: usize,
    instruction: usize,
    slots: Vec<i32>,
    handles: Vec<Handle>,
    held: Vec<bool>,
    children: u32,
    has_exited: bool,
    outcomes: Outcomes,
    steps: u32,
}

impl Model for Local {
    ghost use Rattle.tc_base.specs.States as spec;
    ghost use Rattle.tc_base.specs.helpers.Codes.{coded_local};

    ghost Value = { spec.Local };

    ghost coded = { coded_local };

    ghost view = { λ t. record {
      function = t.function;
      instruction = t.instruction;
      slots = t.slots.items;
      handles = t.handles.items;
      held = t.held.items;
      children = t.children;
      has_exited = t.has_exited;
      outcomes = t.outcomes;
      steps = t.steps;
    } };
}

impl Local {
    /// A thread at the start of a function: the first slots are the arguments, all else is 0, unset
    /// and free.
    pub fn at_start(
        alloc: Global,
        code: &Code,
        function: usize,
        arguments: Vec<i32>,
    ) -> Result<Local, AllocError>
        requires there { function < length code.now.functions }
        requires room { length arguments.items ≤ plain.ints_of code.now function }
        ensures { IfOk result (λ t. t ≡ (plain.born no_buffer code.now function arguments.items).local) }
    {
        let func = &code.functions()[function];
        let mut slots = arguments;
        slots.resize(func.ints as usize, 0)?;
        Ok(Local {
            function,
            instruction: 0,
            slots,
            handles: vec![in alloc; Handle::Unset; func.handles as usize]?,
            held: vec![in alloc; false; code.mutexes() as usize]?,
            children: 0,
            has_exited: false,
            outcomes: Outcomes::new(alloc),
            steps: 0,
        })
    }

    /// The thread's function and the index of its next instruction.
    pub fn place(&self) -> (usize, usize)
        ensures { result ≡ (self.now.function, self.now.instruction) }
    {
        (self.function, self.instruction)
    }

    /// The number of steps done.
    pub fn steps(&self) -> u32
        ensures { result ≡ self.now.steps }
    {
        self.steps
    }

    /// The outcomes of the branches, in order.
    pub fn outcomes(&self) -> &Outcomes
        ensures { result.now ≡ self.now.outcomes }
    {
        &self.outcomes
    }

    /// The number of threads created.
    pub fn children(&self) -> u32
        ensures { result ≡ self.now.children }
    {
        self.children
    }

    /// Whether the thread has exited.
    pub fn has_exited(&self) -> bool
        ensures { result ≡ self.now.has_exited }
    {
        self.has_exited
    }

    /// The thread's next instruction; none after its exit.
    pub fn instr<'a>(&self, code: &'a Code) -> Option<&'a Instr>
        ensures next { option_map (λ i. i.now) result ≡ plain.instr_of code.now self.now }
        ensures lawful { OnSome result (IsLawful code.now) }
        ensures room { OnSome result (self.now.instruction + 1 < 2 ^ 64) }
    {
        if self.has_exited {
            return None;
        }
        code.instr(self.function, self.instruction)
    }

    /// The request of an instruction.
    pub fn request(&self, instr: &Instr) -> Request
        requires { (code : flat.Code) × CanAsk code self.now instr.now }
        ensures { result ≡ plain.request self.now instr.now }
    {
        match instr {
            Instr::Set { .. } | Instr::Branch { .. } | Instr::Goto { .. } => Request::Silent,
            Instr::Load { cell, .. } => Request::Read(self.cell(cell)),
            Instr::Store { cell, value: e } => {
                Request::Write(self.cell(cell), value(e, &self.slots))
            }
            Instr::Inside { length, index } => {
                site(is_within(*length, value(index, &self.slots)))
            }
            Instr::Holds { mutex } => site(self.held[*mutex as usize]),
            Instr::Lock { mutex } => Request::Acquire(*mutex),
            Instr::Unlock { mutex } => Request::Release(*mutex),
            Instr::Sleep { condition, mutex } => Request::BeginWait(*condition, *mutex),
            Instr::Wake { condition, mutex } => Request::EndWait(*condition, *mutex),
            Instr::Signal { condition } => Request::WakeOne(*condition),
            Instr::Broadcast { condition } => Request::WakeAll(*condition),
            Instr::Create { function, .. } => Request::Start(*function),
            Instr::Ready { handle } => site(can_be_joined(self.handles[*handle as usize])),
            Instr::Join { handle } => Request::Await(child_number(self.handles[*handle as usize])),
            Instr::Assert(condition) => site(value(condition, &self.slots) != 0),
            Instr::Nonzero(e) => site(value(e, &self.slots) != 0),
            Instr::InRange(e) => site(is_distance(value(e, &self.slots))),
            Instr::Modify { cell, update, .. } => {
                Request::Exchange(self.cell(cell), self.update(update))
            }
            Instr::Fence => Request::OrderStores,
            Instr::Stbar => Request::Bar,
            Instr::Exit => Request::Finish,
        }
    }

    /// The cell that an instruction accesses.
    fn cell(&self, cell: &Cell<Expr>) -> u32
        requires { CanReach self.now cell.now }
        ensures { result ≡ plain.cell_in self.now cell.now }
    {
        match cell {
            Cell::Fixed(cell) => *cell,
            Cell::Element { first, index, .. } => cell_at(*first, value(index, &self.slots)),
        }
    }

    /// An update over the values of its expressions.
    fn update(&self, update: &Update<Expr>) -> Update<i32>
        requires { IsTrue (list_all (names_slots (length self.now.slots)) (operands_of update.now)) }
        ensures { result ≡ plain.update_in self.now update.now }
    {
        match update {
            Update::Swap(e) => Update::Swap(value(e, &self.slots)),
            Update::Cas(expected, e) => {
                Update::Cas(value(expected, &self.slots), value(e, &self.slots))
            }
            Update::Add(e) => Update::Add(value(e, &self.slots)),
        }
    }

    /// The values that a create passes to the child.
    pub fn arguments(&self, alloc: Global, instr: &Instr) -> Result<Vec<i32>, AllocError>
        requires { (code : flat.Code) × CanAsk code self.now instr.now }
        ensures { IfOk result (λ v. v.items ≡ plain.arguments_of self.now instr.now) }
    {
        match instr {
            Instr::Create { arguments, .. } => values(alloc, arguments.as_slice(), &self.slots),
            _ => Ok(Vec::new(alloc)),
        }
    }

    /// Does an instruction that doesn't fail; `taken` is the value that it reads, if any. Only a
    /// branch allocates, for its outcome, before anything changes.
    pub fn advance(&mut self, instr: &Instr, taken: i32) -> Result<(), AllocError>
        requires { (code : flat.Code) × CanDo code self.old instr.now }
        ensures ok { OnOk result (self.new ≡ plain.local_after self.old instr.now taken) }
        ensures err { OnErr result (self.new ≡ self.old) }
        ensures only { OnErr result (IsTrue (is_branch instr.now)) }
    {
        match instr {
            Instr::Set { slot, value: e } => {
                let value = value(e, &self.slots);
                self.set(*slot, value);
            }
            Instr::Load { slot, .. } | Instr::Modify { slot, .. } => self.set(*slot, taken),
            Instr::Branch { condition, target } => {
                let outcome = value(condition, &self.slots) != 0;
                self.branch(outcome, *target)?;
            }
            Instr::Goto { target } => self.jump(*target),
            Instr::Lock { mutex } | Instr::Wake { mutex, .. } => self.hold(*mutex, true),
            Instr::Unlock { mutex } | Instr::Sleep { mutex, .. } => self.hold(*mutex, false),
            Instr::Create { handle, .. } => self.create(*handle),
            Instr::Join { handle } => self.join(*handle),
            Instr::Exit => self.exit(),
            Instr::Store { .. }
            | Instr::Inside { .. }
            | Instr::Holds { .. }
            | Instr::Signal { .. }
            | Instr::Broadcast { .. }
            | Instr::Ready { .. }
            | Instr::Assert(_)
            | Instr::Nonzero(_)
            | Instr::InRange(_)
            | Instr::Fence
            | Instr::Stbar => self.go_on(),
        }
        Ok(())
    }

    /// Goes to the next place.
    fn go_on(&mut self)
        requires { HasRoom self.old }
        ensures { self.new ≡ plain.step_to_next self.old }
    {
        self.instruction += 1;
        self.count_step();
    }

    /// Goes to another place.
    fn jump(&mut self, target: u32)
        requires { HasRoom self.old }
        ensures { self.new ≡ plain.step_to_place self.old target }
    {
        self.instruction = target as usize;
        self.count_step();
    }

    /// Goes on after a branch, and records its outcome.
    fn branch(&mut self, outcome: bool, target: u32) -> Result<(), AllocError>
        requires { HasRoom self.old }
        ensures ok { OnOk result (self.new ≡ plain.step_by_branch self.old outcome target) }
        ensures err { OnErr result (self.new ≡ self.old) }
    {
        self.outcomes.push(outcome)?;
        if outcome {
            self.go_on();
        } else {
            self.jump(target);
        }
        Ok(())
    }

    /// Sets a slot.
    fn set(&mut self, slot: u32, value: i32)
        requires room { HasRoom self.old }
        requires there { slot < length self.old.slots }
        ensures { self.new ≡ record (plain.step_to_next self.old) { slots = slice_set self.old.slots slot value } }
    {
        self.slots[slot as usize] = value;
        self.go_on();
    }

    /// Acquires or releases a mutex.
    fn hold(&mut self, mutex: u32, holds: bool)
        requires room { HasRoom self.old }
        requires there { mutex < length self.old.held }
        ensures { self.new ≡ plain.step_with_mutex self.old mutex holds }
    {
        self.held[mutex as usize] = holds;
        self.go_on();
    }

    /// Puts a new child into a handle.
    fn create(&mut self, handle: u32)
        requires room { HasRoom self.old }
        requires there { handle < length self.old.handles }
        ensures { self.new ≡ record (plain.step_to_next self.old) {
          handles = slice_set self.old.handles handle (Handle.Child (self.old.children + 1));
          children = self.old.children + 1;
        } }
    {
        self.go_on();
        self.children += 1;
        self.handles[handle as usize] = Handle::Child(self.children);
    }

    /// Marks the child of a handle as joined.
    fn join(&mut self, handle: u32)
        requires room { HasRoom self.old }
        requires there { handle < length self.old.handles }
        ensures { self.new ≡ record (plain.step_to_next self.old) {
          handles = slice_set self.old.handles handle (Handle.Joined (plain.child_number (plain.handle_of self.old handle)));
        } }
    {
        let number = child_number(self.handles[handle as usize]);
        self.handles[handle as usize] = Handle::Joined(number);
        self.go_on();
    }

    /// Exits.
    fn exit(&mut self)
        requires { HasRoom self.old }
        ensures { self.new ≡ record (plain.step_to_next self.old) { has_exited = true } }
    {
        self.has_exited = true;
        self.go_on();
    }

    /// Counts a step that stays at its place.
    pub fn count_step(&mut self)
        requires { self.old.steps + 1 < 2 ^ 32 }
        ensures { self.new ≡ plain.step_in_place self.old }
    {
        self.steps += 1;
    }
}

/// The values of expressions over these slots.
fn values(alloc: Global, arguments: &[Expr], slots: &[i32]) -> Result<Vec<i32>, AllocError>
    requires { IsTrue (list_all (names_slots (length slots.now)) arguments.now) }
    ensures { IfOk result (λ v. v.items ≡ map (λ e. value_of e slots.now) arguments.now) }
{
    let mut found = Vec::new(alloc);
    for e in arguments {
        found.push(value(e, slots))?;
    }
    Ok(found)
}
