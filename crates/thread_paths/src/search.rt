//! The first path, and the next one after a path.
ghost use Rattle.std.specs.Prelude.{◌≡◌, ◌+◌, ◌≤◌, ◌&&◌, [], length, false, IfOk};
ghost use Rattle.slot_liveness.specs.Tables.{liveness};
ghost use Rattle.thread_paths.specs.Order.{is_from};
ghost use Rattle.thread_paths.specs.Search.{IsFirst};
ghost use Rattle.thread_paths.specs.helpers.Descents.{cut_by, stays, takes};

use crate::aim::{End, Scope};
use crate::descent::{Descent, Reason, descend};
use crate::found::{Cut, Found, Path};
use crate::leads::can_rest;
use crate::program::Program;
use crate::turn::turn;
use std::alloc::{AllocError, Global};
use tc_code::Code;

/// Whether the path of no steps may end this way.
fn stays(code: &Code, function: usize, end: End) -> bool
    ensures { result ≡ stays code.now function end }
{
    match end {
        End::Open => true,
        End::Rest => can_rest(code, function, 0),
        _ => false,
    }
}

/// What was left out, with one more reason.
fn cut_by(cut: Cut, why: Reason) -> Cut
    ensures { result ≡ cut_by cut why }
{
    match why {
        Reason::Dead | Reason::Turn | Reason::Against => cut,
        Reason::TooMany => Cut {
            outcomes: true,
            ..cut
        },
        Reason::TooLong => Cut { steps: true, ..cut },
    }
}

/// The first path that has a step and comes at or after these outcomes and this number of steps.
fn search(
    alloc: Global,
    program: Program<'_>,
    scope: Scope,
    outcomes: Vec<bool>,
    least: usize,
) -> Result<Found, AllocError>
    requires few { length outcomes.items ≤ scope.most }
    requires steps { (takes program.code.now scope [] 0 && is_from outcomes.items least [] 0) ≡ false }
    ensures { IfOk result (IsFirst program.entry.code.now (liveness program.entry.live.now) scope (record { outcomes = outcomes.items; steps = least })) }
{
    let mut outcomes = outcomes;
    let mut least = least;
    let mut cut = Cut {
        outcomes: false,
        steps: false,
    };
    'ways: loop {
        match descend(alloc, program, scope, &mut outcomes, least)? {
            Descent::Found(steps) => {
                let path = Some(Path { outcomes, steps });
                return Ok(Found { path, cut });
            }
            Descent::Spent(why) => cut = cut_by(cut, why),
        }
        if !turn(&mut outcomes)? {
            return Ok(Found { path: None, cut });
        }
        least = 0;
    }
}

/// The first path that a thread may take.
pub fn first_path(alloc: Global, program: Program<'_>, scope: Scope) -> Result<Found, AllocError>
    ensures { IfOk result (IsFirst program.entry.code.now (liveness program.entry.live.now) scope (record { outcomes = []; steps = 0 })) }
{
    let outcomes = Vec::new(alloc);
    if stays(program.code, scope.function, scope.aim.end) {
        let path = Some(Path { outcomes, steps: 0 });
        let cut = Cut {
            outcomes: false,
            steps: false,
        };
        return Ok(Found { path, cut });
    }
    search(alloc, program, scope, outcomes, 0)
}

/// The first path after this one.
pub fn next_path(
    alloc: Global,
    program: Program<'_>,
    scope: Scope,
    path: Path,
) -> Result<Found, AllocError>
    requires { length path.outcomes ≤ scope.most }
    ensures { IfOk result (IsFirst program.entry.code.now (liveness program.entry.live.now) scope (record { outcomes = path.outcomes; steps = path.steps + 1 })) }
{
    let Path { outcomes, steps } = path;
    search(alloc, program, scope, outcomes, usize::from(steps) + 1)
}
