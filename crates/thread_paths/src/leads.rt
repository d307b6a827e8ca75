//! The effect of an instruction on a thread's place.
ghost use Rattle.std.specs.Prelude.{◌≡◌, ◌+◌, ◌<◌, ◌^◌, true};
ghost use Rattle.std.specs.Option.{option_map_or};
ghost use Rattle.tc_code.specs.Code.{instr_at};
ghost use Rattle.thread_marks.specs.path_walk.Marks.{Marks};
ghost use Rattle.thread_marks.specs.path_walk.Steps.{is_site, can_block};
ghost use Rattle.thread_marks.specs.Own.{own_of};
ghost use Rattle.thread_paths.specs.Ends.{is_exit, is_used};
ghost use Rattle.thread_paths.specs.helpers.Descents.{is_branch, place_after, ends_with, is_last};

use crate::aim::{End, Scope};
use tc_code::{Code, Instr};
use thread_marks::Own;

/// Whether an instruction has two ways to go on.
pub fn is_branch(instr: &Instr) -> bool
    ensures { result ≡ is_branch instr.now }
{
    matches!(instr, Instr::Branch { .. })
}

/// The place after an instruction, given the outcome if it is a branch.
pub fn place_after(instr: &Instr, place: usize, outcome: bool) -> usize
    requires { place + 1 < 2 ^ 64 }
    ensures { result ≡ place_after place instr.now outcome }
{
    match instr {
        Instr::Branch { target, .. } => { if outcome { place + 1 } else { *target as usize } }
        Instr::Goto { target } => *target as usize,
        _ => place + 1,
    }
}

/// Whether an instruction only tests something, and fails if that is false.
fn is_site(instr: &Instr) -> bool
    ensures { result ≡ is_site instr.now }
{
    matches!(
        instr,
        Instr::Inside { .. }
            | Instr::Holds { .. }
            | Instr::Ready { .. }
            | Instr::Assert(_)
            | Instr::Nonzero(_)
            | Instr::InRange(_)
    )
}

/// Whether another thread may use the effect of an instruction.
fn is_used(instr: &Instr) -> bool
    ensures { result ≡ is_used instr.now }
{
    matches!(
        instr,
        Instr::Store { .. }
            | Instr::Modify { .. }
            | Instr::Unlock { .. }
            | Instr::Sleep { .. }
            | Instr::Signal { .. }
            | Instr::Broadcast { .. }
            | Instr::Create { .. }
    )
}

/// Whether an instruction is an exit.
fn is_exit(instr: &Instr) -> bool
    ensures { result ≡ is_exit instr.now }
{
    matches!(instr, Instr::Exit)
}

/// Whether a thread may rest at a place: it has exited, so that there is no instruction, or may
/// have to wait for others.
pub fn can_rest(code: &Code, function: usize, place: usize) -> bool
    ensures { result ≡ option_map_or can_block (instr_at code.now function place) true }
{
    match code.instr(function, place) {
        Some(instr) => matches!(
            instr,
            Instr::Lock { .. } | Instr::Wake { .. } | Instr::Join { .. }
        ),
        None => true,
    }
}

/// Whether a path may end with this instruction, which leads to a place, if the thread doesn't
/// fail.
fn ends_with(code: &Code, function: usize, end: End, instr: &Instr, to: usize) -> bool
    ensures { result ≡ ends_with code.now function end instr.now to }
{
    match end {
        End::Exit => is_exit(instr),
        End::Used | End::Open => is_used(instr),
        End::Rest => can_rest(code, function, to),
    }
}

/// Whether a path may end with this instruction, which leads to a place.
pub fn is_last(code: &Code, scope: Scope, own: &Own, instr: &Instr, to: usize) -> bool
    ensures { (t : Marks) → own.now ≡ own_of t → result ≡ is_last code.now scope.function scope.aim t instr.now to }
{
    let fails = scope.aim.may_fail && is_site(instr);
    if fails {
        !own.excludes(instr, true)
    } else {
        !own.excludes(instr, false) && ends_with(code, scope.function, scope.aim.end, instr, to)
    }
}
