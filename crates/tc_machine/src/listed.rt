//! The enabled moves of a state.
ghost use Rattle.std.specs.Prelude.{◌≡◌, [], ◌∷◌, ◌++◌, map, filter, false, Contains, IsSome, Some, IfOk, OnOk};
ghost use Rattle.std.specs.Bool.{OnFalse};
ghost use Rattle.std.specs.FinMap as fin;
ghost use Rattle.tc_base.specs.Names.{Name};
ghost use Rattle.tc_base.specs.declared.moves.Move.{Move as AnyMove};
ghost use Rattle.tc_code.specs.Run.{IsReached};
ghost use Rattle.tc_code.specs.Step.{step};
ghost use Rattle.tc_machine.specs.Moves.{move_of, is_enabled, steps_of, drains_of, moves_of, enabled_moves};
ghost use Rattle.tc_machine.specs.helpers.Movers.{mover};

use crate::choice::Choice;
use crate::machine::{allowed, recall_lawful};
use crate::state::State;
use std::alloc::{AllocError, Global};
use store_buffers::MemoryModel;
use tc_base::{Move, ThreadName};
use tc_code::{Code, Instr};
use tc_threads::Thread;

/// The enabled moves, in order of thread names: for each thread its run or, at a signal with
/// waiters, its wakes in order of names; then its drains in order of cells.
pub fn moves<M: MemoryModel>(
    alloc: Global,
    code: &Code,
    state: &State<M>,
) -> Result<Vec<Move>, AllocError>
    requires reached { IsReached M.ops code.now state.now }
    ensures listed { IfOk result (λ moves. moves.items ≡ enabled_moves M.ops code.now state.now) }
    // No enabled move is left out.
    ensures all { IfOk result (λ moves. (m : AnyMove) → IsSome (step M.ops code.now state.now m) → Contains moves.items m) }
{
    let choices = choices(alloc, code, state)?;
    let mut found = Vec::new(alloc);
    for choice in choices.iter() {
        found.push(choice.to_move()?)?;
    }
    Ok(found)
}

/// The enabled moves as `moves` lists them, with names borrowed from the state.
pub fn choices<'a, M: MemoryModel>(
    alloc: Global,
    code: &Code,
    state: &'a State<M>,
) -> Result<Vec<Choice<'a>>, AllocError>
    requires reached { IsReached M.ops code.now state.now }
    ensures listed { IfOk result (λ choices. map move_of choices.items ≡ enabled_moves M.ops code.now state.now) }
    // No enabled move is left out.
    ensures all { IfOk result (λ choices. (m : AnyMove) → IsSome (step M.ops code.now state.now m) → Contains (map move_of choices.items) m) }
{
    recall_lawful(code);
    let mut found = Vec::new(alloc);
    for (name, thread) in state.entries() {
        push_moves(alloc, &mut found, code, state, name, thread)?;
    }
    Ok(found)
}

/// Adds the enabled moves of a thread.
fn push_moves<'a, M: MemoryModel>(
    alloc: Global,
    found: &mut Vec<Choice<'a>>,
    code: &Code,
    state: &'a State<M>,
    name: &'a ThreadName,
    thread: &Thread<M>,
) -> Result<(), AllocError>
    requires reached { IsReached M.ops code.now state.now }
    requires there { fin.get state.now.threads name.now ≡ Some thread.now }
    ensures { OnOk result (map move_of found.new.items ≡ map move_of found.old.items ++ moves_of M.ops code.now state.now name.now) }
{
    push_steps(found, code, state, name, thread)?;
    push_drains(alloc, found, code, state, name, thread)
}

/// Adds the enabled steps of a thread.
fn push_steps<'a, M: MemoryModel>(
    found: &mut Vec<Choice<'a>>,
    code: &Code,
    state: &'a State<M>,
    name: &'a ThreadName,
    thread: &Thread<M>,
) -> Result<(), AllocError>
    requires reached { IsReached M.ops code.now state.now }
    requires there { fin.get state.now.threads name.now ≡ Some thread.now }
    ensures { OnOk result (map move_of found.new.items
        ≡ map move_of found.old.items ++ filter (is_enabled M.ops code.now state.now) (steps_of M.ops code.now state.now name.now)) }
{
    push_enabled(found, code, state, thread, Choice::Run(name))?;
    if signals(code, state, name, thread) {
        push_wakes(found, code, state, name, thread)?;
    }
    Ok(())
}

/// Whether a thread's next instruction is a signal. If not, the thread can't wake another.
fn signals<M: MemoryModel>(
    code: &Code,
    state: &State<M>,
    name: &ThreadName,
    thread: &Thread<M>,
) -> bool
    requires there { fin.get state.now.threads name.now ≡ Some thread.now }
    ensures { OnFalse result ((u : Name) → is_enabled M.ops code.now state.now (Move.Wake name.now u) ≡ false) }
{
    matches!(thread.instr(code), Some(Instr::Signal { .. }))
}

/// Adds the enabled moves by which a thread wakes another.
fn push_wakes<'a, M: MemoryModel>(
    found: &mut Vec<Choice<'a>>,
    code: &Code,
    state: &'a State<M>,
    name: &'a ThreadName,
    thread: &Thread<M>,
) -> Result<(), AllocError>
    requires reached { IsReached M.ops code.now state.now }
    requires there { fin.get state.now.threads name.now ≡ Some thread.now }
    ensures { OnOk result (map move_of found.new.items
        ≡ map move_of found.old.items ++ filter (is_enabled M.ops code.now state.now) (map (λ u. Move.Wake name.now u) (fin.keys state.now.threads))) }
{
    for waiter in state.threads().as_slice() {
        push_enabled(found, code, state, thread, Choice::Wake(name, waiter))?;
    }
    Ok(())
}

/// Adds the enabled drains of a thread.
fn push_drains<'a, M: MemoryModel>(
    alloc: Global,
    found: &mut Vec<Choice<'a>>,
    code: &Code,
    state: &State<M>,
    name: &'a ThreadName,
    thread: &Thread<M>,
) -> Result<(), AllocError>
    requires reached { IsReached M.ops code.now state.now }
    requires there { fin.get state.now.threads name.now ≡ Some thread.now }
    ensures { OnOk result (map move_of found.new.items
        ≡ map move_of found.old.items ++ filter (is_enabled M.ops code.now state.now) (drains_of M.ops code.now state.now name.now)) }
{
    recall_lawful(code);
    let forms = thread.forms(alloc)?;
    for form in forms.as_slice() {
        push_enabled(found, code, state, thread, Choice::Drain(name, *form))?;
    }
    Ok(())
}

/// Adds a move of a thread, if it is enabled.
#[tactic(auto, using(crate::proofs::Reasons::reasons))]
fn push_enabled<'a, M: MemoryModel>(
    found: &mut Vec<Choice<'a>>,
    code: &Code,
    state: &State<M>,
    thread: &Thread<M>,
    choice: Choice<'a>,
) -> Result<(), AllocError>
    requires reached { IsReached M.ops code.now state.now }
    requires there { fin.get state.now.threads (mover (move_of choice)) ≡ Some thread.now }
    ensures { OnOk result (map move_of found.new.items
        ≡ map move_of found.old.items ++ filter (is_enabled M.ops code.now state.now) (move_of choice.entry ∷ [])) }
{
    match allowed(code, state, thread, choice) {
        Ok(()) => found.push(choice)?,
        Err(_) => {}
    }
    Ok(())
}
