//! The search: with more and more outcomes, up to the bound, or until none are left out.
ghost use Rattle.std.specs.Prelude.{◌≡◌, ◌≤◌, IfOk};
ghost use Rattle.tc_code.specs.tc_limits.declared.limits.TheConstants.{BUDGET};
ghost use Rattle.slot_liveness.specs.Tables.{liveness};
ghost use Rattle.slot_liveness.specs.pure_turns.Live.{IsClosed};
ghost use Rattle.find_failures.specs.Found.{IsSearched};
ghost use Rattle.find_failures.specs.helpers.Gone.{AreGone, IsEnded, after_all, found_of, is_last, searched};

use crate::asked::Asked;
use crate::found::{Found, Reach, Searched, Unknown};
use crate::gone::Gone;
use crate::round::{Ended, round};
use log_walk::{LeftOut, Program};
use slot_liveness::live_slots;
use std::alloc::{AllocError, Global};
use store_buffers::MemoryModel;
use tc_code::Code;

/// Goes through the logs with more and more outcomes.
fn levels<M: MemoryModel>(
    alloc: Global,
    program: Program<'_>,
    asked: Asked,
    gone: &mut Gone,
) -> Result<Ended, AllocError>
    requires some { 1 ≤ asked.budget }
    requires room { asked.budget ≤ BUDGET }
    requires gone { AreGone M.ops M.MODEL M.bound program.code.now asked gone.old }
    requires closed { IsClosed program.code.now (liveness program.live.now) }
    ensures { IfOk result (IsEnded M.ops M.MODEL M.bound program.entry.code.now (liveness program.entry.live.now) asked asked.outcomes gone.new) }
{
    let mut level = 0;
    'levels: loop {
        let ended = round::<M>(alloc, program, asked, level, gone)?;
        if is_last(asked, level, &ended) {
            return Ok(ended);
        }
        level += 1;
    }
}

/// Whether more outcomes aren't asked for, or lead to no more logs.
fn is_last(asked: Asked, level: u16, ended: &Ended) -> bool
    ensures { result ≡ is_last asked level ended.now }
{
    match ended {
        Ended::Done(out) => level == asked.outcomes || !out.outcomes,
        _ => true,
    }
}

/// The result after all logs.
fn after_all(unknown: Option<Unknown>, out: LeftOut) -> Found
    ensures { result ≡ after_all unknown out }
{
    if let Some(unknown) = unknown {
        return Found::Unknown(unknown);
    }
    if out.steps || out.depth || out.threads {
        return Found::LeftOut(out);
    }
    if out.outcomes {
        Found::Never(Reach::Bounded)
    } else {
        Found::Never(Reach::Every)
    }
}

/// The result of going through logs, the first unknown one of which is this.
fn found_of(unknown: Option<Unknown>, ended: Ended) -> Found
    ensures { result ≡ found_of unknown ended }
{
    match ended {
        Ended::Possible(log) => Found::Possible(log),
        Ended::TooMany => Found::TooMany,
        Ended::Done(out) => after_all(unknown, out),
    }
}

/// The result of going through logs, and those refuted.
fn searched(gone: Gone, ended: Ended) -> Searched
    ensures { result ≡ searched gone ended }
{
    let Gone { refuted, unknown } = gone;
    Searched {
        found: found_of(unknown, ended),
        refuted,
    }
}

/// Searches for a log that some moves of the machine under a memory model reproduce.
pub fn find<M: MemoryModel>(
    alloc: Global,
    code: &Code,
    asked: Asked,
) -> Result<Searched, AllocError>
    requires some { 1 ≤ asked.budget }
    requires room { asked.budget ≤ BUDGET }
    ensures { IfOk result (IsSearched M.ops M.bound code.now M.MODEL asked) }
{
    // Lawful code.
    let _functions = code.functions();
    let live = live_slots(alloc, code)?;
    let program = Program { code, live: &live };
    let mut gone = Gone::new(alloc);
    let ended = levels::<M>(alloc, program, asked, &mut gone)?;
    Ok(searched(gone, ended))
}
