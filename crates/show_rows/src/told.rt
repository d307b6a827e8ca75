//! The rows of a schedule.
ghost use Rattle.std.specs.Prelude.{◌≡◌, IfOk, []};
ghost use Rattle.tc_code.specs.Run.{IsReached};
ghost use Rattle.show_rows.specs.Rows.{AreTold, EndsSo};

use crate::row::Row;
use crate::telling::Telling;
use schedule_file::Schedule;
use std::alloc::{AllocError, Global};
use store_buffers::MemoryModel;
use tc_base::{Request, ThreadName};
use tc_code::Code;
use tc_machine::{State, Why, choices, enabled, start, step};

/// How a schedule ended.
#[derive(Clone, Copy, Debug, PartialEq, Eq)]
pub enum End {
    /// A thread has failed.
    Failed,
    /// Every thread has exited.
    Finished,
    /// No move is enabled, and not every thread has exited.
    Deadlock,
    /// All its moves are made, and others are enabled.
    Open,
    /// Its next move isn't enabled, for this reason.
    Stopped(Why),
}

/// The place of a thread that hasn't exited.
#[derive(Drop)]
pub struct Standing {
    /// The thread.
    pub thread: ThreadName,
    /// The number of its function.
    pub function: usize,
    /// The number of the instruction there that it does next.
    pub instruction: usize,
    /// The request of that instruction.
    pub asks: Request,
}

/// The rows of a schedule's moves, as far as these could be made.
#[derive(Drop)]
pub struct Told {
    /// A row for each move that was made.
    pub rows: Vec<Row>,
    /// The places of the threads that haven't exited.
    pub standing: Vec<Standing>,
    /// How it ended.
    pub end: End,
}

/// Makes the moves of a schedule in the code, as far as each is enabled.
///
/// The caller has to make sure that `M` is the model that the schedule names.
pub fn tell<M: MemoryModel>(
    alloc: Global,
    code: &Code,
    schedule: &Schedule,
) -> Result<Told, AllocError>
    ensures { IfOk result (λ told. AreTold M.ops code.now schedule.now.moves.items told.rows.items told.end) }
{
    let mut state = start::<M>(alloc, code)?;
    let mut telling = Telling::new(alloc, code)?;
    for m in schedule.moves.iter() {
        if let Err(why) = enabled(code, &state, m) {
            return finish(alloc, code, &state, telling.into_rows(), End::Stopped(why));
        }
        let row = telling.row(alloc, code, &state, m)?;
        step(alloc, code, &mut state, m)?;
        telling.take(M::BUFFERED, row)?;
    }
    let end = end_at(alloc, code, &state)?;
    finish(alloc, code, &state, telling.into_rows(), end)
}

/// The rows, with the places of the threads.
fn finish<M: MemoryModel>(
    alloc: Global,
    code: &Code,
    state: &State<M>,
    rows: Vec<Row>,
    end: End,
) -> Result<Told, AllocError>
    requires { IsReached M.ops code.now state.now }
    ensures rows { IfOk result (λ told. told.rows.items ≡ rows.items) }
    ensures end { IfOk result (λ told. told.end ≡ end) }
{
    let mut standing = Vec::new(alloc);
    for (name, thread) in state.entries() {
        if let Some(instr) = thread.instr(code) {
            let (function, instruction) = thread.local().place();
            standing.push(Standing {
                thread: name.clone()?,
                function,
                instruction,
                asks: thread.request(instr),
            })?;
        }
    }
    Ok(Told {
        rows,
        standing,
        end,
    })
}

/// How a schedule ends in a state when it has no moves left.
fn end_at<M: MemoryModel>(alloc: Global, code: &Code, state: &State<M>) -> Result<End, AllocError>
    requires { IsReached M.ops code.now state.now }
    ensures { IfOk result (EndsSo M.ops code.now state.now []) }
{
    if state.failed().is_some() {
        Ok(End::Failed)
    } else if state.all_have_exited() {
        Ok(End::Finished)
    } else if choices(alloc, code, state)?.is_empty() {
        Ok(End::Deadlock)
    } else {
        Ok(End::Open)
    }
}
