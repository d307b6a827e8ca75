//! What declarations stand for: tables of names.
ghost use Rattle.std.specs.Prelude.{◌≡◌, List, ◌∷◌, ◌+◌, ◌<◌, ◌≤◌, ◌^◌, ◌++◌, [], length, map, OnOk, IfOk};
ghost use Rattle.tc_code.specs.tc_limits.declared.limits.TheConstants.{CELLS, PROGRAM_BYTES};
ghost use Rattle.tc_tree.specs.Counts as count;
ghost use Rattle.tc_tree.specs.declared.program.Local.{Local};
ghost use Rattle.tc_tree.specs.Seen.{thread_of};
ghost use Rattle.tc_lower.specs.Things as spec;

use crate::things::{Named, Thing};
use std::alloc::{AllocError, Global as Heap};
use tc_tree::{Global, Local, Name, Program, Thread};

/// How many cells, mutexes and conditions there are so far.
#[derive(Clone, Copy, Debug)]
pub(crate) struct Numbers {
    pub(crate) cells: u32,
    pub(crate) mutexes: u32,
    pub(crate) conditions: u32,
}

/// The things that a program's names mean, and the numbers of cells, mutexes and conditions.
#[derive(Drop)]
pub(crate) struct ProgramThings {
    pub(crate) names: Vec<Named>,
    pub(crate) numbers: Numbers,
}

/// The globals, and then the threads.
pub(crate) fn program_things(alloc: Heap, program: &Program) -> Result<ProgramThings, AllocError>
    requires cells { count.cells program.now.globals.items ≤ CELLS }
    requires globals { length program.now.globals.items ≤ PROGRAM_BYTES }
    requires threads { length program.now.threads.items ≤ PROGRAM_BYTES }
    ensures names { IfOk result (λ all. all.names.items ≡ spec.program_things program.now.globals.items (map thread_of program.now.threads.items)) }
    ensures mutexes { IfOk result (λ all. all.numbers.mutexes ≡ count.mutexes program.now.globals.items) }
    ensures conditions { IfOk result (λ all. all.numbers.conditions ≡ count.conditions program.now.globals.items) }
{
    let mut names = Vec::new(alloc);
    let numbers = add_globals(&mut names, program.globals.as_slice())?;
    add_threads(&mut names, program.threads.as_slice())?;
    Ok(ProgramThings { names, numbers })
}

fn add_globals(names: &mut Vec<Named>, globals: &[Global]) -> Result<Numbers, AllocError>
    requires cells { count.cells globals.now ≤ CELLS }
    requires few { length globals.now ≤ PROGRAM_BYTES }
    ensures names { OnOk result (names.new.items ≡ names.old.items ++ spec.globals_from spec.no_numbers globals.now) }
    ensures mutexes { IfOk result (λ numbers. numbers.mutexes ≡ count.mutexes globals.now) }
    ensures conditions { IfOk result (λ numbers. numbers.conditions ≡ count.conditions globals.now) }
{
    let mut numbers = Numbers {
        cells: 0,
        mutexes: 0,
        conditions: 0,
    };
    let mut rest = globals;
    while let [global, later @ ..] = rest {
        names.push(numbers.declare(global))?;
        rest = later;
    }
    Ok(numbers)
}

impl Numbers {
    /// What the next global denotes.
    fn declare(&mut self, global: &Global) -> Named
        requires cells { self.old.cells + count.cells_of global.now ≤ CELLS }
        requires mutexes { self.old.mutexes < PROGRAM_BYTES }
        requires conditions { self.old.conditions < PROGRAM_BYTES }
        ensures thing { result ≡ spec.global_thing self.old global.now }
        ensures past { self.new ≡ spec.past_global self.old global.now }
    {
        match global {
            Global::Int(name, _) => {
                let cell = self.cells;
                self.cells += 1;
                Named::new(name, Thing::Cell(cell))
            }
            Global::Array(name, size) => {
                let first = self.cells;
                let length = elements(size.value);
                self.cells += length;
                Named::new(name, Thing::Array(first, length))
            }
            Global::Mutex(name) => {
                let mutex = self.mutexes;
                self.mutexes += 1;
                Named::new(name, Thing::Mutex(mutex))
            }
            Global::Condition(name) => {
                let condition = self.conditions;
                self.conditions += 1;
                Named::new(name, Thing::Condition(condition))
            }
        }
    }
}

/// The number of elements of an array of this length; in a text, lengths are never negative.
pub(crate) fn elements(length: i32) -> u32
    ensures { result ≡ count.elements length }
{
    u32::try_from(length).unwrap_or(0)
}

fn add_threads(names: &mut Vec<Named>, threads: &[Thread]) -> Result<(), AllocError>
    requires { length threads.now ≤ PROGRAM_BYTES }
    ensures { OnOk result (names.new.items ≡ names.old.items ++ spec.threads_from 0 (map thread_of threads.now)) }
{
    let mut function = 0;
    let mut rest = threads;
    while let [thread, later @ ..] = rest {
        let thing = Thing::Function(function, thread.parameters.len());
        names.push(Named::new(&thread.name, thing))?;
        function += 1;
        rest = later;
    }
    Ok(())
}

/// What the names of a body stand for, and how many slots and thread variables it has.
#[derive(Drop)]
pub(crate) struct OwnThings {
    pub(crate) names: Vec<Named>,
    pub(crate) slots: u32,
    pub(crate) handles: u32,
}

/// The parameters, and then the declarations of a body.
pub(crate) fn own_things(
    alloc: Heap,
    parameters: &[Name],
    locals: &[Local],
) -> Result<OwnThings, AllocError>
    requires { length parameters.now + length locals.now ≤ PROGRAM_BYTES }
    ensures names { IfOk result (λ own. own.names.items ≡ spec.own_things parameters.now locals.now) }
    ensures slots { IfOk result (λ own. own.slots ≡ length parameters.now + spec.ints locals.now) }
    ensures handles { IfOk result (λ own. own.handles ≡ spec.handles locals.now) }
    ensures few { IfOk result (λ own. own.slots ≤ PROGRAM_BYTES) }
{
    let mut own = OwnThings {
        names: Vec::new(alloc),
        slots: 0,
        handles: 0,
    };
    own.add_parameters(parameters)?;
    own.add_locals(locals)?;
    Ok(own)
}

impl OwnThings {
    fn add_parameters(&mut self, parameters: &[Name]) -> Result<(), AllocError>
        requires { self.old.slots + length parameters.now ≤ PROGRAM_BYTES }
        ensures names { OnOk result (self.new.names.items ≡ self.old.names.items ++ spec.parameters_from self.old.slots parameters.now) }
        ensures slots { OnOk result (self.new.slots ≡ self.old.slots + length parameters.now) }
        ensures handles { self.new.handles ≡ self.old.handles }
    {
        let mut rest = parameters;
        while let [name, later @ ..] = rest {
            self.names.push(Named::new(name, Thing::Slot(self.slots)))?;
            self.slots += 1;
            rest = later;
        }
        Ok(())
    }

    fn add_locals(&mut self, locals: &[Local]) -> Result<(), AllocError>
        requires { self.old.slots + self.old.handles + length locals.now ≤ PROGRAM_BYTES }
        ensures names { OnOk result (self.new.names.items ≡ self.old.names.items ++ spec.locals_from self.old.slots self.old.handles locals.now) }
        ensures slots { OnOk result (self.new.slots ≡ self.old.slots + spec.ints locals.now) }
        ensures handles { OnOk result (self.new.handles ≡ self.old.handles + spec.handles locals.now) }
        ensures few { OnOk result (self.new.slots + self.new.handles ≤ PROGRAM_BYTES) }
    {
        let mut rest = locals;
        while let [local, later @ ..] = rest {
            let named = self.declare(local);
            self.names.push(named)?;
            rest = later;
        }
        Ok(())
    }

    /// What the next declaration of a body denotes.
    fn declare(&mut self, local: &Local) -> Named
        requires { self.old.slots + self.old.handles < PROGRAM_BYTES }
        ensures names { self.new.names ≡ self.old.names }
        ensures thing { (ls : List Local) → spec.locals_from self.old.slots self.old.handles (local.now ∷ ls)
            ≡ result ∷ spec.locals_from self.new.slots self.new.handles ls }
        ensures slots { self.new.slots ≡ self.old.slots + spec.ints (local.now ∷ []) }
        ensures handles { self.new.handles ≡ self.old.handles + spec.handles (local.now ∷ []) }
    {
        match local {
            Local::Int(name) => {
                let slot = self.slots;
                self.slots += 1;
                Named::new(name, Thing::Slot(slot))
            }
            Local::Handle(name) => {
                let handle = self.handles;
                self.handles += 1;
                Named::new(name, Thing::Handle(handle))
            }
        }
    }
}
