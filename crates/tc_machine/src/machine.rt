//! Steps of the machine.
ghost use Rattle.std.specs.Prelude.{◌≡◌, IsSome, Option, Some, None, OnOk, OnErr, IfOk, IfErr, IsTrue, MatchResult};
ghost use Rattle.std.specs.FinMap as map;
ghost use Rattle.tc_base.specs.States as states;
ghost use Rattle.tc_code.specs.declared.instr.Instr as instr;
ghost use Rattle.tc_code.specs.declared.instr.Instr.TheVariants as flat;
ghost use Rattle.tc_code.specs.Lawful.{IsLawful};
ghost use Rattle.tc_code.specs.Run.{IsReached};
ghost use Rattle.tc_code.specs.Step.{step, request};
ghost use Rattle.tc_machine.specs.Moves.{move_of};
ghost use Rattle.tc_machine.specs.helpers.CanDo.{DoesNext};
ghost use Rattle.tc_machine.specs.helpers.Movers.{mover};
ghost use Rattle.tc_machine.specs.Why.{reason_of, why, why_at, why_doing, why_undrained, why_unmet, why_unwoken};
ghost use Rattle.tc_threads.specs.run_laws.Counters.{CountersAreBelowLast};

use crate::choice::Choice;
use crate::fault::StepFault;
use crate::state::State;
use crate::why::Why;
use std::alloc::{AllocError, Global};
use store_buffers::MemoryModel;
use tc_base::{Move, Request, ThreadName};
use tc_code::{Code, Instr};
use tc_threads::{Thread, drains_first};

/// Whether a move is enabled, or the first reason why not.
pub fn enabled<M: MemoryModel>(code: &Code, state: &State<M>, m: &Move) -> Result<(), Why>
    requires reached { IsReached M.ops code.now state.now }
    ensures { MatchResult result
        (λ _. why M.ops code.now state.now m.now ≡ None)
        (λ w. why M.ops code.now state.now m.now ≡ Some w) }
{
    if state.failed().is_some() {
        return Err(Why::Stopped);
    }
    match m {
        Move::Run(name) => {
            may_run(code, state, name, find(state, name)?)?;
        }
        Move::Wake(name, waiter) => {
            may_wake(code, state, name, waiter, find(state, name)?)?;
        }
        Move::Drain(name, form) => may_drain(state, name, *form, find(state, name)?)?,
    }
    Ok(())
}

/// Whether a move of this thread is enabled, or the first reason why not.
pub(crate) fn allowed<M: MemoryModel>(
    code: &Code,
    state: &State<M>,
    thread: &Thread<M>,
    choice: Choice,
) -> Result<(), Why>
    requires reached { IsReached M.ops code.now state.now }
    requires there { map.get state.now.threads (mover (move_of choice)) ≡ Some thread.now }
    ensures { MatchResult result
        (λ _. why M.ops code.now state.now (move_of choice.entry) ≡ None)
        (λ w. why M.ops code.now state.now (move_of choice.entry) ≡ Some w) }
{
    if state.failed().is_some() {
        return Err(Why::Stopped);
    }
    match choice {
        Choice::Run(name) => {
            may_run(code, state, name, thread)?;
        }
        Choice::Wake(name, waiter) => {
            may_wake(code, state, name, waiter, thread)?;
        }
        Choice::Drain(name, form) => may_drain(state, name, form, thread)?,
    }
    Ok(())
}

/// A thread's next instruction and its request, if the thread can do it.
fn may_run<'a, M: MemoryModel>(
    code: &'a Code,
    state: &State<M>,
    name: &ThreadName,
    thread: &Thread<M>,
) -> Result<(&'a Instr, Request), Why>
    requires reached { IsReached M.ops code.now state.now }
    requires there { map.get state.now.threads name.now ≡ Some thread.now }
    ensures why { let reason = λ (t : states.Thread M.Buffer) (i : instr.Instr). why_unmet M.ops state.now name.now t (request t.local i) in
        MatchResult result
        (λ _. why_doing M.ops code.now state.now name.now reason ≡ None)
        (λ w. why_doing M.ops code.now state.now name.now reason ≡ Some w) }
    ensures asked { IfOk result (λ next. DoesNext code.now thread.now.local next.0.now × (next.1 ≡ request thread.now.local next.0.now)) }
{
    let instr = next(code, state, name, thread)?;
    let request = thread.request(instr);
    if drains_first(request) && !thread.is_drained() {
        return Err(Why::NotDrained);
    }
    state.lets(name, request)?;
    Ok((instr, request))
}

/// The signal that a thread does next and its condition, if the thread can wake the waiter.
fn may_wake<'a, M: MemoryModel>(
    code: &'a Code,
    state: &State<M>,
    name: &ThreadName,
    waiter: &ThreadName,
    thread: &Thread<M>,
) -> Result<(&'a Instr, u32), Why>
    requires reached { IsReached M.ops code.now state.now }
    requires there { map.get state.now.threads name.now ≡ Some thread.now }
    ensures why { MatchResult result
        (λ _. why_doing M.ops code.now state.now name.now (why_unwoken M.ops state.now waiter.now) ≡ None)
        (λ w. why_doing M.ops code.now state.now name.now (why_unwoken M.ops state.now waiter.now) ≡ Some w) }
    ensures signal { IfOk result (λ next. DoesNext code.now thread.now.local next.0.now × (next.0.now ≡ flat.Signal next.1)) }
{
    let instr = next(code, state, name, thread)?;
    match instr {
        Instr::Signal { condition } => {
            if !thread.is_drained() {
                Err(Why::NotDrained)
            } else if state.waiting_on(*condition).contains(waiter) {
                Ok((instr, *condition))
            } else {
                Err(Why::WrongWaiter)
            }
        }
        _ => Err(Why::WrongWaiter),
    }
}

/// Whether a store of a thread may drain by this form.
fn may_drain<M: MemoryModel>(
    state: &State<M>,
    name: &ThreadName,
    form: Option<u32>,
    thread: &Thread<M>,
) -> Result<(), Why>
    requires there { map.get state.now.threads name.now ≡ Some thread.now }
    ensures { MatchResult result
        (λ _. why_at M.ops state.now name.now (why_undrained M.ops form) ≡ None)
        (λ w. why_at M.ops state.now name.now (why_undrained M.ops form) ≡ Some w) }
{
    if thread.may_drain(form) {
        Ok(())
    } else {
        Err(Why::NoEntry)
    }
}

/// The named thread, if it exists.
fn find<'a, M: MemoryModel>(state: &'a State<M>, name: &ThreadName) -> Result<&'a Thread<M>, Why>
    ensures thread { IfOk result (λ t. map.get state.now.threads name.now ≡ Some t.now) }
    ensures err { IfErr result (λ w. (reason : states.Thread M.Buffer → Option Why)
        → why_at M.ops state.now name.now reason ≡ Some w) }
{
    state.thread(name).ok_or(Why::NoThread)
}

/// A thread's next instruction, if there is one.
fn next<'a, M: MemoryModel>(
    code: &'a Code,
    state: &State<M>,
    name: &ThreadName,
    thread: &Thread<M>,
) -> Result<&'a Instr, Why>
    requires there { map.get state.now.threads name.now ≡ Some thread.now }
    ensures instr { IfOk result (λ i. DoesNext code.now thread.now.local i.now) }
    ensures err { IfErr result (λ w. (reason : states.Thread M.Buffer → instr.Instr → Option Why)
        → why_doing M.ops code.now state.now name.now reason ≡ Some w) }
{
    thread.instr(code).ok_or(Why::Exited)
}

/// Does an enabled move. If memory runs out, the state is unchanged.
pub fn step<M: MemoryModel>(
    alloc: Global,
    code: &Code,
    state: &mut State<M>,
    m: &Move,
) -> Result<(), AllocError>
    requires reached { IsReached M.ops code.now state.old }
    requires enabled { IsSome (step M.ops code.now state.old m.now) }
    requires counters { CountersAreBelowLast state.old }
    ensures ok { OnOk result (step M.ops code.now state.old m.now ≡ Some state.new) }
    ensures err { OnErr result (state.new ≡ state.old) }
{
    match try_step(alloc, code, state, m) {
        Ok(()) => Ok(()),
        Err(StepFault::Memory) => Err(AllocError),
        Err(StepFault::NotEnabled(_)) => unreachable!(),
    }
}

/// Does a move if it is enabled. If it isn't, or memory runs out, the state is unchanged.
pub fn try_step<M: MemoryModel>(
    alloc: Global,
    code: &Code,
    state: &mut State<M>,
    m: &Move,
) -> Result<(), StepFault>
    requires reached { IsReached M.ops code.now state.old }
    requires counters { CountersAreBelowLast state.old }
    ensures ok { OnOk result (step M.ops code.now state.old m.now ≡ Some state.new) }
    ensures err { OnErr result (state.new ≡ state.old) }
    // Memory can run out only if there is no reason against the move.
    ensures why { IfErr result (λ fault. why M.ops code.now state.old m.now ≡ reason_of fault) }
{
    if state.failed().is_some() {
        return Err(StepFault::NotEnabled(Why::Stopped));
    }
    match m {
        Move::Run(name) => run(alloc, code, state, name),
        Move::Wake(name, waiter) => wake(code, state, name, waiter),
        Move::Drain(name, form) => drain(code, state, name, *form),
    }
}

/// Does a thread's next instruction, if the thread can do it.
#[tactic(auto, using(crate::proofs::Reasons::reasons))]
fn run<M: MemoryModel>(
    alloc: Global,
    code: &Code,
    state: &mut State<M>,
    name: &ThreadName,
) -> Result<(), StepFault>
    requires reached { IsReached M.ops code.now state.old }
    requires counters { CountersAreBelowLast state.old }
    requires running { state.old.failed ≡ None }
    ensures ok { OnOk result (step M.ops code.now state.old (Move.Run name.now) ≡ Some state.new) }
    ensures err { OnErr result (state.new ≡ state.old) }
    ensures why { IfErr result (λ fault. why M.ops code.now state.old (Move.Run name.now) ≡ reason_of fault) }
{
    let (instr, request) = may_run(code, state, name, find(state, name)?)?;
    Ok(state.perform(alloc, code, name, instr, request)?)
}

/// Does a thread's signal, which wakes another thread, if that is possible.
#[tactic(auto, using(crate::proofs::Reasons::reasons))]
fn wake<M: MemoryModel>(
    code: &Code,
    state: &mut State<M>,
    name: &ThreadName,
    waiter: &ThreadName,
) -> Result<(), StepFault>
    requires reached { IsReached M.ops code.now state.old }
    requires counters { CountersAreBelowLast state.old }
    requires running { state.old.failed ≡ None }
    ensures ok { OnOk result (step M.ops code.now state.old (Move.Wake name.now waiter.now) ≡ Some state.new) }
    ensures err { OnErr result (state.new ≡ state.old) }
    ensures why { IfErr result (λ fault. why M.ops code.now state.old (Move.Wake name.now waiter.now) ≡ reason_of fault) }
{
    let (instr, condition) = may_wake(code, state, name, waiter, find(state, name)?)?;
    Ok(state.wake(name, waiter, instr, condition)?)
}

/// Moves a buffered store of a thread to memory, if that is possible.
#[tactic(auto, using(crate::proofs::Reasons::reasons))]
fn drain<M: MemoryModel>(
    code: &Code,
    state: &mut State<M>,
    name: &ThreadName,
    form: Option<u32>,
) -> Result<(), StepFault>
    requires reached { IsReached M.ops code.now state.old }
    requires running { state.old.failed ≡ None }
    ensures ok { OnOk result (step M.ops code.now state.old (Move.Drain name.now form) ≡ Some state.new) }
    ensures err { OnErr result (state.new ≡ state.old) }
    ensures why { IfErr result (λ fault. why M.ops code.now state.old (Move.Drain name.now form) ≡ reason_of fault) }
{
    recall_lawful(code);
    may_drain(state, name, form, find(state, name)?)?;
    state.drain(name, form);
    Ok(())
}

/// A code is lawful by its type, so each buffered store is to a cell that exists.
pub(crate) fn recall_lawful(code: &Code)
    ensures { IsLawful code.now }
{
    let _ = code.functions();
}
