//! The account of one thread.
ghost use Rattle.std.specs.Prelude.{◌≡◌, ◌<◌, ◌≤◌, ◌^◌, length, IfOk, OnOk};
ghost use Rattle.tc_code.specs.Code.{instr_at};
ghost use Rattle.tc_code.specs.tc_limits.declared.limits.TheConstants.{STEPS};
ghost use Rattle.path_walk.specs.Fits.{starts, started};
ghost use Rattle.path_walk.specs.Paths.{blocked_after};
ghost use Rattle.path_walk.specs.Steps.{steps_at, places_of};
ghost use Rattle.path_walk.specs.helpers.Accounts.{Gives, mapped, account_by};

use crate::ending::Ending;
use crate::follow::{FollowFault, Followed, follow};
use crate::marks::Marks;
use crate::operators::operators;
use crate::parts::{Parts, parts_of};
use crate::tell::{Told, tell};
use crate::{Blocked, Sleep, Walk};
use run_log::ThreadPath;
use std::alloc::{AllocError, Global};
use std::marker::Model;
use tc_code::{Code, Instr};

/// The functions of the children that a thread creates, in order.
#[derive(Drop)]
pub struct Started {
    functions: Vec<u32>,
}

impl Model for Started {
    ghost use Rattle.std.specs.Prelude.{List, ℕ};

    ghost Value = { List ℕ };

    ghost view = { λ s. s.functions.items };
}

impl Started {
    /// The functions, in order.
    pub fn as_slice(&self) -> &[u32]
        ensures { result.now ≡ self.now }
    {
        self.functions.as_slice()
    }
}

/// The account of one thread.
#[derive(Drop)]
pub struct Account {
    /// Its walk.
    pub walk: Walk,
    /// The functions of the children that it creates.
    pub started: Started,
    /// The number of operators in the instructions of its steps.
    pub operators: u64,
    /// Whether its path alone rules out every run.
    pub dead: bool,
}

/// The function of the child that an instruction creates, if any.
fn child_function(instr: &Instr) -> Option<u32>
    ensures { result ≡ starts instr.now }
{
    match instr {
        Instr::Create { function, .. } => Some(*function),
        _ => None,
    }
}

/// The functions of the children that steps create.
fn started_by(
    alloc: Global,
    code: &Code,
    function: usize,
    places: &[usize],
) -> Result<Started, AllocError>
    ensures { IfOk result (λ s. s ≡ started (steps_at code.now function places.now)) }
{
    let mut functions = Vec::new(alloc);
    for step in 0..places.len() {
        if let Some(instr) = code.instr(function, places[step]) {
            if let Some(child) = child_function(instr) {
                functions.push(child)?;
            }
        }
    }
    Ok(Started { functions })
}

/// What blocks a thread at the end of its path, if it rests there and has not exited.
fn blocked(
    code: &Code,
    function: usize,
    ending: Ending,
    end: usize,
    marks: &Marks,
    sleeps: &[Sleep],
) -> Option<Blocked>
    ensures { result ≡ blocked_after ending marks.now sleeps.now (instr_at code.now function end) }
{
    match ending {
        Ending::Rests => marks.blocked(code.instr(function, end)?, sleeps),
        _ => None,
    }
}

/// The account of a thread that runs this function, from its path and ending.
pub fn account_of(
    alloc: Global,
    code: &Code,
    function: usize,
    ending: Ending,
    path: &ThreadPath,
) -> Result<Account, FollowFault>
    ensures told { Gives (λ c. record { walk = c.walk; started = c.started; operators = c.operators; dead = c.dead }) result
        (mapped (account_by code.now ending path.now function) (places_of code.now function ending path.now.path)) }
    ensures few { IfOk result (λ c. (length c.started < 2 ^ 16) × (length c.walk.events < 2 ^ 16)) }
    ensures short { OnOk result (path.now.path.steps ≤ STEPS) }
{
    let Followed { places, end } = follow(alloc, code, function, ending, path)?;
    let operators = operators(alloc, code, function, &places)?;
    let Told {
        events,
        dead,
        marks,
    } = tell(alloc, code, function, ending == Ending::Fails, &places)?;
    let started = started_by(alloc, code, function, &places)?;
    let Parts {
        name,
        outcomes,
        regions,
        sleeps,
        creates,
        joins,
    } = parts_of(alloc, path, &events)?;
    let blocked = blocked(code, function, ending, end, &marks, &sleeps);
    let walk = Walk {
        name,
        function,
        outcomes,
        places,
        events,
        regions,
        sleeps,
        creates,
        joins,
        blocked,
    };
    Ok(Account {
        walk,
        started,
        operators,
        dead,
    })
}
