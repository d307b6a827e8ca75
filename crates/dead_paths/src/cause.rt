//! The first cause of dead paths.
ghost use Rattle.std.specs.Prelude.{◌≡◌, IfOk};
ghost use Rattle.path_walk.specs.Fits.{fails_in};
ghost use Rattle.path_walk.specs.Paths.{paths_of};
ghost use Rattle.path_walk.specs.Steps.{steps_at};
ghost use Rattle.dead_paths.specs.Causes.{cause_of, exit_line, first_cause, line_in};

use crate::own::Own;
use path_walk::Paths;
use run_log::Log;
use std::alloc::{AllocError, Global};
use std::marker::Model;
use tc_base::ThreadName;
use tc_code::Code;

/// A line that a thread reaches on its path, and at which the path alone rules out every run.
#[derive(Debug, Drop)]
pub struct Cause {
    name: ThreadName,
    line: u32,
}

impl Model for Cause {
    ghost use Rattle.dead_paths.specs.Causes.{Cause as PlainCause};

    ghost Value = { PlainCause };

    ghost view = { λ c. record { name = c.name; line = c.line } };
}

impl Cause {
    /// The thread's name.
    pub fn name(&self) -> &ThreadName
        ensures { result.now ≡ self.now.name }
    {
        &self.name
    }

    /// The line, from 1.
    pub fn line(&self) -> u32
        ensures { result ≡ self.now.line }
    {
        self.line
    }
}

/// Why the paths of a log are dead: the first cause of the least name that has one. If none has,
/// all threads have exited in the log of a deadlock, and the cause is main's exit.
pub fn cause_of(alloc: Global, code: &Code, log: &Log, paths: &Paths) -> Result<Cause, AllocError>
    requires { paths.now ≡ paths_of code.now log.now.log }
    ensures { IfOk result (λ cause. cause ≡ cause_of code.now log.now.log) }
{
    match first_cause(alloc, code, log, paths)? {
        Some(cause) => Ok(cause),
        None => Ok(Cause {
            name: ThreadName::main(alloc),
            line: exit_line(code),
        }),
    }
}

/// The first cause of the least name that has one.
fn first_cause(
    alloc: Global,
    code: &Code,
    log: &Log,
    paths: &Paths,
) -> Result<Option<Cause>, AllocError>
    requires { paths.now ≡ paths_of code.now log.now.log }
    ensures { IfOk result (λ cause. cause ≡ first_cause code.now log.now.log log.now.log.threads) }
{
    for thread in paths.threads() {
        let fails = fails(log, thread.name());
        if let Some(line) = line_in(alloc, code, thread.function(), fails, thread.places())? {
            return Ok(Some(Cause {
                name: thread.name().clone()?,
                line,
            }));
        }
    }
    Ok(None)
}

/// Whether the named thread is the one that failed.
fn fails(log: &Log, name: &ThreadName) -> bool
    ensures { result ≡ fails_in log.now.log name.now }
{
    match log.failing_name() {
        Some(failing) => name.children() == failing.children(),
        None => false,
    }
}

/// The line of the first step at these places of a function that the steps alone rule out, if any.
fn line_in(
    alloc: Global,
    code: &Code,
    function: usize,
    fails: bool,
    places: &[usize],
) -> Result<Option<u32>, AllocError>
    ensures { IfOk result (λ line. line ≡ line_in code.now function fails (steps_at code.now function places.now)) }
{
    let mut own = Own::at_start(alloc, code, function)?;
    for step in 0..places.len() {
        let place = places[step];
        let Some(instr) = code.instr(function, place) else {
            continue;
        };
        if own.excludes(instr, fails && step + 1 == places.len()) {
            return Ok(code.line(function, place));
        }
        own.apply(instr);
    }
    Ok(None)
}

/// The line of the last instruction of main.
fn exit_line(code: &Code) -> u32
    ensures { result ≡ exit_line code.now }
{
    let functions = code.functions();
    let Some(main) = functions.last() else {
        unreachable!()
    };
    let last = main.instrs.as_slice().len().saturating_sub(1);
    let Some(line) = code.line(functions.len() - 1, last) else {
        unreachable!()
    };
    line
}
