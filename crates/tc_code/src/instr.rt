//! Instructions.
ghost use Rattle.std.specs.Prelude.{◌≡◌, ◌+◌, ◌<◌, ◌^◌, OnSome, option_map, slice_get};

use crate::{Cell, Expr, Exprs};
use int_ops::Update;
use std::marker::Model;

/// An instruction of a thread. A site only tests something, and fails if that is false.
#[derive(Debug, Drop)]
pub enum Instr {
    /// Sets the slot to the value.
    Set {
        slot: u32,
        value: Expr,
    },
    /// Loads the cell into the slot.
    Load {
        slot: u32,
        cell: Cell<Expr>,
    },
    /// Stores the value to the cell.
    Store {
        cell: Cell<Expr>,
        value: Expr,
    },
    /// A site, which fails if the index isn't inside an array of that length.
    Inside {
        length: u32,
        index: Expr,
    },
    /// Goes on if the value isn't 0, and otherwise jumps to the instruction with that number. The
    /// thread records which of the two it did.
    Branch {
        condition: Expr,
        target: u32,
    },
    /// Jumps to the instruction with that number.
    Goto {
        target: u32,
    },
    /// A site, which fails if the thread doesn't hold the mutex.
    Holds {
        mutex: u32,
    },
    /// Acquires the mutex, once it is free.
    Lock {
        mutex: u32,
    },
    /// Releases the mutex.
    Unlock {
        mutex: u32,
    },
    /// The first half of a wait: releases the mutex, and begins to wait on the condition.
    Sleep {
        condition: u32,
        mutex: u32,
    },
    /// The second half of a wait: once woken, acquires the mutex again.
    Wake {
        condition: u32,
        mutex: u32,
    },
    /// Wakes one thread that waits on the condition, if there is one.
    Signal {
        condition: u32,
    },
    /// Wakes all threads that wait on the condition.
    Broadcast {
        condition: u32,
    },
    /// Sets the handle to a new child, which runs the function with these arguments.
    Create {
        handle: u32,
        function: u32,
        arguments: Exprs,
    },
    /// A site, which fails if the handle isn't a child, or is one that was joined.
    Ready {
        handle: u32,
    },
    /// Waits until the child has exited; the child is joined then.
    Join {
        handle: u32,
    },
    /// A site, which fails if the value is 0.
    Assert(Expr),
    /// A site, which fails if the value is 0: a divisor must not be.
    Nonzero(Expr),
    /// A site, which fails if the value is below 0 or above 31: a shift distance must not be.
    InRange(Expr),
    /// Loads the cell into the slot and stores the updated value to the cell, in one step.
    Modify {
        slot: u32,
        cell: Cell<Expr>,
        update: Update<Expr>,
    },
    /// Waits until all stores of the thread are in memory.
    Fence,
    /// Makes the thread's later stores reach memory after its earlier ones.
    Stbar,
    /// Ends the thread.
    Exit,
}

/// Instructions, in order.
#[derive(Debug, Drop)]
pub struct Instrs {
    instrs: Vec<Instr>,
}

impl Model for Instrs {
    ghost use Rattle.std.specs.Prelude.{List};
    ghost use Rattle.std.specs.Coded.{coded_list};
    ghost use Rattle.tc_code.specs.contracts.instr.Instr as instr;
    ghost use Rattle.tc_code.specs.declared.instr.Instr.{Instr};

    ghost Value = { List Instr };

    ghost coded = { coded_list instr.the_row.coded };

    ghost view = { λ is. is.instrs.items };
}

impl Instrs {
    /// These instructions.
    pub fn new(instrs: Vec<Instr>) -> Instrs
        ensures { result ≡ instrs.items }
    {
        Instrs { instrs }
    }

    /// The instructions, in order.
    pub fn as_slice(&self) -> &[Instr]
        ensures { result.now ≡ self.now }
    {
        self.instrs.as_slice()
    }

    /// The instruction at a place, if there is one.
    pub fn get(&self, place: usize) -> Option<&Instr>
        ensures seen { option_map (λ i. i.now) result ≡ slice_get self.now place }
        ensures room { OnSome result (place + 1 < 2 ^ 64) }
    {
        self.instrs.get(place)
    }
}
