//! Makes moves one after another, and records their rows.
ghost use Rattle.std.specs.Prelude.{◌≡◌, ◌∷◌, ◌++◌, [], IfOk, OnOk, IsSome};
ghost use Rattle.tc_threads.specs.run_laws.Counters.{CountersAreBelowLast, IsBelowLast};
ghost use Rattle.show_deeds.specs.run_history.History.{created_by, deed_of};
ghost use Rattle.tc_base.specs.declared.moves.Move.TheVariants as move;
ghost use Rattle.tc_code.specs.Code.{Code as AnyCode};
ghost use Rattle.tc_code.specs.Step.{step};
ghost use Rattle.show_deeds.specs.Deeds.{plain_deed};
ghost use Rattle.show_deeds.specs.Seen.{at_start, seen_after};
ghost use Rattle.show_deeds.specs.declared.deed.Deed.TheVariants as deed;
ghost use Rattle.show_rows.specs.Rows.{deeds, WasAt};
ghost use Rattle.show_rows.specs.helpers.SoFar.{IsSoFar};

use crate::row::Row;
use crate::slots::{ints_of, slots_of};
use crate::thread::thread_of;
use show_deeds::{Deed, Seen, Step, Stored};
use std::alloc::{AllocError, Global};
use store_buffers::MemoryModel;
use tc_base::{Move, Request, ThreadName};
use tc_code::Code;
use tc_machine::State;
use tc_threads::Thread;

/// The rows so far, and memory and the stores that wait after their deeds.
#[derive(Drop)]
pub(crate) struct Telling {
    rows: Vec<Row>,
    seen: Seen,
}

impl Telling {
    /// The state before any move.
    pub(crate) fn new(alloc: Global, code: &Code) -> Result<Telling, AllocError>
        ensures rows { IfOk result (λ t. t.rows.items ≡ []) }
        ensures seen { IfOk result (λ t. t.seen ≡ at_start code.now) }
    {
        Ok(Telling {
            rows: Vec::new(alloc),
            seen: Seen::at_start(alloc, code)?,
        })
    }

    /// The rows.
    pub(crate) fn into_rows(self) -> Vec<Row>
        ensures { result.items ≡ self.rows.items }
    {
        let Telling { rows, .. } = self;
        rows
    }

    /// Records a row, given whether there are buffers.
    pub(crate) fn take(&mut self, buffered: bool, row: Row) -> Result<(), AllocError>
        ensures rows { OnOk result (self.new.rows.items ≡ self.old.rows.items ++ row ∷ []) }
        ensures seen { OnOk result (self.new.seen ≡ seen_after buffered self.old.seen (plain_deed row.deed)) }
    {
        self.seen.take(buffered, &row.deed)?;
        self.rows.push(row)?;
        Ok(())
    }

    /// The row of a move that is enabled.
    pub(crate) fn row<M: MemoryModel>(
        &self,
        alloc: Global,
        code: &Code,
        state: &State<M>,
        m: &Move,
    ) -> Result<Row, AllocError>
        requires so_far { IsSoFar M.ops code.now state.now self.now }
        requires enabled { IsSome (step M.ops code.now state.now m.now) }
        requires counters { CountersAreBelowLast state.now }
        ensures did { IfOk result (λ row. deed_of M.ops code.now state.now (deeds self.now.rows.items) m.now ≡ plain_deed row.deed ∷ []) }
        ensures at { IfOk result (WasAt code.now (deeds self.now.rows.items)) }
    {
        let deed = self.deed(code, state, m)?;
        let Some(thread) = thread_of(state, deed.thread()) else {
            unreachable!()
        };
        let (function, instruction) = thread.local().place();
        let count = ints_of(code, function);
        let slots = slots_of(alloc, count, thread)?;
        Ok(Row {
            deed,
            function,
            instruction,
            slots,
        })
    }

    /// The deed of an enabled move.
    fn deed<M: MemoryModel>(
        &self,
        code: &Code,
        state: &State<M>,
        m: &Move,
    ) -> Result<Deed, AllocError>
        requires so_far { IsSoFar M.ops code.now state.now self.now }
        requires enabled { IsSome (step M.ops code.now state.now m.now) }
        requires counters { CountersAreBelowLast state.now }
        ensures { IfOk result (λ deed. deed_of M.ops code.now state.now (deeds self.now.rows.items) m.now ≡ plain_deed deed ∷ []) }
    {
        match m {
            Move::Run(name) => Ok(Deed::Did(self.run(code, state, name)?)),
            Move::Wake(name, waiter) => Ok(Deed::Did(self.wake(code, state, name, waiter)?)),
            Move::Drain(name, form) => Ok(Deed::Drained(self.drain(code, state, name, *form)?)),
        }
    }

    /// The step of a thread.
    fn run<M: MemoryModel>(
        &self,
        code: &Code,
        state: &State<M>,
        name: &ThreadName,
    ) -> Result<Step, AllocError>
        requires so_far { IsSoFar M.ops code.now state.now self.now }
        requires enabled { IsSome (step M.ops code.now state.now (move.Run name.now)) }
        requires counters { CountersAreBelowLast state.now }
        ensures { IfOk result (λ did. deed_of M.ops code.now state.now (deeds self.now.rows.items) (move.Run name.now) ≡ plain_deed (deed.Did did) ∷ []) }
    {
        let Some(thread) = thread_of(state, name) else {
            unreachable!()
        };
        let Some(instr) = thread.instr(code) else {
            unreachable!()
        };
        let asks = thread.request(instr);
        Ok(Step {
            thread: name.clone()?,
            number: thread.local().steps(),
            asks,
            took: self.seen.taken(thread, asks),
            other: created(name, thread, asks)?,
        })
    }

    /// The step of a thread that wakes another.
    fn wake<M: MemoryModel>(
        &self,
        code: &Code,
        state: &State<M>,
        name: &ThreadName,
        waiter: &ThreadName,
    ) -> Result<Step, AllocError>
        requires so_far { IsSoFar M.ops code.now state.now self.now }
        requires enabled { IsSome (step M.ops code.now state.now (move.Wake name.now waiter.now)) }
        ensures { IfOk result (λ did. deed_of M.ops code.now state.now (deeds self.now.rows.items) (move.Wake name.now waiter.now) ≡ plain_deed (deed.Did did) ∷ []) }
    {
        let Some(thread) = thread_of(state, name) else {
            unreachable!()
        };
        let Some(instr) = thread.instr(code) else {
            unreachable!()
        };
        Ok(Step {
            thread: name.clone()?,
            number: thread.local().steps(),
            asks: thread.request(instr),
            took: 0,
            other: Some(waiter.clone()?),
        })
    }

    /// The store of a thread that a drain of this form takes: its first that waits, or its first to
    /// a cell.
    fn drain<M: MemoryModel>(
        &self,
        code: &Code,
        state: &State<M>,
        name: &ThreadName,
        form: Option<u32>,
    ) -> Result<Stored, AllocError>
        requires so_far { IsSoFar M.ops code.now state.now self.now }
        requires enabled { IsSome (step M.ops code.now state.now (move.Drain name.now form)) }
        ensures { IfOk result (λ s. deed_of M.ops code.now state.now (deeds self.now.rows.items) (move.Drain name.now form) ≡ plain_deed (deed.Drained s) ∷ []) }
    {
        let Some(stored) = self.seen.first_by(name, form) else {
            unreachable!()
        };
        stored.copy()
    }
}

/// The child that a thread's request creates, if it creates one.
fn created<M: MemoryModel>(
    name: &ThreadName,
    thread: &Thread<M>,
    asks: Request,
) -> Result<Option<ThreadName>, AllocError>
    requires { IsBelowLast thread.now.local }
    ensures { IfOk result (λ child. (code : AnyCode) → child ≡ created_by M.ops code name.now thread.now.local asks) }
{
    match asks {
        Request::Start(_) => Ok(Some(name.child(thread.local().children() + 1)?)),
        _ => Ok(None),
    }
}
