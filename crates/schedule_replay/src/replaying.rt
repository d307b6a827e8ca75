//! Replaying a schedule.
ghost use Rattle.std.specs.Prelude.{◌≡◌, IfOk, None, option_map};
ghost use Rattle.std.specs.Bool.{MatchBool};
ghost use Rattle.tc_code.specs.Run.{IsReached, IsStuck, Reproduces, path_in};
ghost use Rattle.schedule_replay.specs.Verdicts.{GoesOn, IsVerdict};
ghost use Rattle.schedule_replay.specs.helpers.Judged.{IsJudged, IsOtherEnd, IsFirstOther, is_path, other_at};

use crate::verdict::Verdict;
use run_log::{Log, ThreadPath};
use schedule_file::Schedule;
use std::alloc::{AllocError, Global};
use std::cmp::Ordering;
use store_buffers::MemoryModel;
use tc_base::{Failing, ThreadName};
use tc_code::Code;
use tc_machine::{State, StepFault, choices, start, try_step};

/// The verdict on a schedule's moves under a memory model.
///
/// The caller must compare the schedule's model with `M`; the log's model plays no part.
pub fn replay<M: MemoryModel>(
    alloc: Global,
    code: &Code,
    log: &Log,
    schedule: &Schedule,
) -> Result<Verdict, AllocError>
    ensures verdict { IfOk result (IsVerdict M.ops code.now log.now.log schedule.now.moves.items) }
    ensures reproduces { Reproduces M.ops code.now log.now.log schedule.now.moves.items → IfOk result (λ v. v ≡ Verdict.Reproduces) }
{
    let mut state = start::<M>(alloc, code)?;
    for (i, m) in schedule.moves.iter().enumerate() {
        match try_step(alloc, code, &mut state, m) {
            Ok(()) => {}
            Err(StepFault::NotEnabled(why)) => return Ok(Verdict::Stops(i + 1, why)),
            Err(StepFault::Memory) => return Err(AllocError),
        }
    }
    judge(alloc, code, log, &state)
}

/// The verdict on the state after all moves.
fn judge<M: MemoryModel>(
    alloc: Global,
    code: &Code,
    log: &Log,
    state: &State<M>,
) -> Result<Verdict, AllocError>
    requires reached { IsReached M.ops code.now state.now }
    ensures { IfOk result (IsJudged M.ops code.now state.now log.now.log) }
{
    if let Some(verdict) = other_end(alloc, code, log, state)? {
        return Ok(verdict);
    }
    match first_other(log, state) {
        Some(name) => Ok(Verdict::OtherPath(name.clone()?)),
        None => Ok(Verdict::Reproduces),
    }
}

/// The verdict if the run doesn't end as the log says, and none if it does.
fn other_end<M: MemoryModel>(
    alloc: Global,
    code: &Code,
    log: &Log,
    state: &State<M>,
) -> Result<Option<Verdict>, AllocError>
    requires reached { IsReached M.ops code.now state.now }
    ensures { IfOk result (IsOtherEnd M.ops code.now state.now log.now.log) }
{
    match (state.failed(), log.failing()) {
        (Some(name), _) if log.failing_name() == Some(name) => Ok(None),
        (Some(name), _) => Ok(Some(Verdict::OtherFailure(name.clone()?))),
        (None, Failing::Thread(_)) => Ok(Some(Verdict::NoFailure)),
        (None, Failing::Deadlock) if is_stuck(alloc, code, state)? => Ok(None),
        (None, Failing::Deadlock) => Ok(Some(Verdict::NotStuck)),
    }
}

/// Whether a state without a failure is a deadlock.
fn is_stuck<M: MemoryModel>(
    alloc: Global,
    code: &Code,
    state: &State<M>,
) -> Result<bool, AllocError>
    requires reached { IsReached M.ops code.now state.now }
    requires unfailed { state.now.failed ≡ None }
    ensures { IfOk result (λ stuck. MatchBool stuck (IsStuck M.ops code.now state.now) (GoesOn M.ops code.now state.now)) }
{
    if state.all_have_exited() {
        return Ok(false);
    }
    Ok(choices(alloc, code, state)?.is_empty())
}

/// The least thread whose path in the run differs from that in the log, if any.
fn first_other<'a, M: MemoryModel>(log: &'a Log, state: &'a State<M>) -> Option<&'a ThreadName>
    ensures { IsFirstOther state.now log.now.log (option_map (λ n. n.now) result) }
{
    let threads = log.threads();
    let names = state.threads().as_slice();
    let shared = threads.len().min(names.len());
    for i in 0..shared {
        if let Some(name) = other_at(state, &threads[i], &names[i]) {
            return Some(name);
        }
    }
    if shared < threads.len() {
        Some(threads[shared].name())
    } else if shared < names.len() {
        Some(&names[shared])
    } else {
        None
    }
}

/// The lesser of a log's and a run's thread, if their names or their paths differ.
fn other_at<'a, M: MemoryModel>(
    state: &State<M>,
    thread: &'a ThreadPath,
    name: &'a ThreadName,
) -> Option<&'a ThreadName>
    ensures { option_map (λ n. n.now) result ≡ other_at state.now thread.now name.now }
{
    match thread.name().cmp(name) {
        Ordering::Less => Some(thread.name()),
        Ordering::Equal if goes_as_logged(state, thread) => None,
        _ => Some(name),
    }
}

/// Whether a logged thread has the same path in the run.
fn goes_as_logged<M: MemoryModel>(state: &State<M>, thread: &ThreadPath) -> bool
    ensures { result ≡ is_path (path_in state.now thread.now.name) thread.now.path }
{
    let name = thread.name();
    match (state.steps_of(name), state.outcomes_of(name)) {
        (Some(steps), Some(outcomes)) => {
            steps == u32::from(thread.steps()) && outcomes.as_slice() == thread.outcomes()
        }
        _ => false,
    }
}
