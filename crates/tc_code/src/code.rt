//! Code that is lawful by its type.
ghost use Rattle.std.specs.Prelude.{◌≡◌, option_map, ◌<◌, ◌+◌, ◌^◌, OnSome, is_some};
ghost use Rattle.tc_code.specs.Code.{code_of, instr_at, line_at};
ghost use Rattle.tc_code.specs.Code as spec;
ghost use Rattle.tc_code.specs.Lawful.{IsLawful};

use crate::{FuncName, Instr, Instrs, Lines};
use std::marker::Model;

/// A function, which a thread executes from its first instruction on.
#[derive(Debug, Drop)]
pub struct Func {
    /// Its name in the text.
    pub name: FuncName,
    /// How many of its int slots, the first ones, are parameters.
    pub params: u32,
    /// How many int slots it has.
    pub ints: u32,
    /// How many handles it has.
    pub handles: u32,
    /// The instructions, in order.
    pub instrs: Instrs,
    /// The line of each instruction: that of its statement's first token, or of the closing brace
    /// for the exit.
    pub lines: Lines,
}

/// Lawful code, in which
/// - each instruction has its line;
/// - memory has at most `CELLS` cells, and each cell and each number of an expression is an int;
/// - arrays overlap neither each other nor the cells that are named by number, and start as 0;
/// - everything that an instruction names exists;
/// - a create passes as many arguments as its function has parameters; parameters are int slots;
/// - an unlock, or the start of a wait, directly follows the test that the thread holds the mutex;
/// - the second half of a wait directly follows the first;
/// - a join directly follows the test that the child can be joined;
/// - no jump leads between two instructions that belong together like this;
/// - the index of an array access was tested, and hasn't changed since;
/// - the first exit of a function is its last instruction;
/// - main is the last function, and has no parameters.
#[derive(Debug, Drop)]
pub struct Code {
    memory: Vec<i32>,
    mutexes: u32,
    conditions: u32,
    functions: Vec<Func>,
}

impl Model for Code {
    ghost use Rattle.tc_code.specs.Code as spec;
    ghost use Rattle.tc_code.specs.Code.{code_of};
    ghost use Rattle.tc_code.specs.Lawful.{IsLawful};
    ghost use Rattle.tc_code.specs.helpers.CodedCode.{coded_code};

    ghost Value = { spec.Code };

    ghost coded = { coded_code };

    ghost view = { λ c. code_of c.memory.items c.mutexes c.conditions c.functions.items };

    ghost invariant = { λ c. IsLawful (code_of c.memory.items c.mutexes c.conditions c.functions.items) };
}

impl Code {
    /// The code with these initial cell values, numbers of mutexes and conditions, and functions.
    ///
    /// Nothing is tested at run time: the caller proves that the code is lawful.
    pub fn new(memory: Vec<i32>, mutexes: u32, conditions: u32, functions: Vec<Func>) -> Code
        requires { IsLawful (code_of memory.items mutexes conditions functions.items) }
        ensures { result ≡ code_of memory.items mutexes conditions functions.items }
    {
        Code {
            memory,
            mutexes,
            conditions,
            functions,
        }
    }

    /// The initial value of each cell.
    pub fn memory(&self) -> &[i32]
        ensures { result.now ≡ self.now.memory }
    {
        &self.memory
    }

    /// How many mutexes there are.
    pub fn mutexes(&self) -> u32
        ensures { result ≡ self.now.mutexes }
    {
        self.mutexes
    }

    /// How many conditions there are.
    pub fn conditions(&self) -> u32
        ensures { result ≡ self.now.conditions }
    {
        self.conditions
    }

    /// The functions, main last.
    pub fn functions(&self) -> &[Func]
        ensures seen { result.now ≡ self.now.functions }
        ensures lawful { IsLawful self.now }
    {
        &self.functions
    }

    /// The instruction at a place, if there is one.
    pub fn instr(&self, function: usize, instruction: usize) -> Option<&Instr>
        ensures seen { option_map (λ i. i.now) result ≡ instr_at self.now function instruction }
        ensures lawful { IsLawful self.now }
        ensures room { OnSome result (instruction + 1 < 2 ^ 64) }
    {
        self.functions.get(function)?.instrs.get(instruction)
    }

    /// The line in the text, from 1, of the instruction at a place, if there is one.
    pub fn line(&self, function: usize, instruction: usize) -> Option<u32>
        ensures seen { result ≡ line_at self.now function instruction }
        ensures there { is_some result ≡ is_some (instr_at self.now function instruction) }
    {
        self.functions
            .get(function)?
            .lines
            .as_slice()
            .get(instruction)
            .copied()
    }
}
