//! What a file shows: the moves of a schedule, or the paths of a log's threads.
ghost use Rattle.std.specs.Prelude.{◌≡◌, ◌<◌, ◌≤◌, ℕ, List, true, false, length, IfErr, IfOk, OnOk};
ghost use Rattle.tc_limits.specs.declared.limits.TheConstants.{PROGRAM_BYTES};
ghost use Rattle.path_log.specs.Texts.{IsOfOther};
ghost use Rattle.tc_compile.specs.Programs.{IsCodeOf, IsWhyNoCode};
ghost use Rattle.clap_debug_show_cli.specs.Limits.{limit_of};
ghost use Rattle.clap_debug_show_cli.specs.Shown.{IsShown, IsStory, IsTold, begins_as_log};
ghost use Rattle.clap_debug_show_cli.specs.declared.refusal.Fault.TheVariants.{Refused};
ghost use Rattle.clap_debug_show_cli.specs.declared.refusal.Refusal.TheVariants.{OtherProgram, Over};
ghost use Rattle.clap_debug_show_cli.specs.helpers.Refused.{IsWhyNoStory, IsWhyNotShown};

use crate::help::read_code;
use crate::limits::What;
use crate::refusal::{Fault, Refusal};
use crate::words::Showing;
use memory_models::Model;
use path_log::{is_of_other, read_log};
use path_walk::{Paths, walk};
use run_log::Log;
use schedule_file::{Schedule, read_schedule};
use show_names::Names;
use show_page::{log_page, schedule_page};
use show_rows::{Told, tell};
use show_words::{Detail, Program, log_text, schedule_text};
use std::alloc::{AllocError, Global};
use store_buffers::{PsoModel, Sc, TsoModel};
use tc_code::Code;
use tc_compile::CompileFault;

/// What a file says about the code.
#[derive(Drop)]
pub(crate) enum Story {
    /// The effects of a schedule's moves.
    Moves(Schedule, Told),
    /// The paths of a log's threads.
    Ways(Log, Paths),
}

/// The kind of rows that a call asks for.
fn detail_of(call: Showing<'_>) -> Detail {
    if call.moves {
        Detail::Moves
    } else {
        Detail::Statements
    }
}

/// What the file of a call shows of the program.
#[derive(Drop)]
pub(crate) struct Shown<'a> {
    call: Showing<'a>,
    code: Code,
    names: Names,
    story: Story,
}

impl Shown<'_> {
    /// As text.
    pub(crate) fn text(&self, alloc: Global) -> Result<String, AllocError> {
        let program = self.program();
        match &self.story {
            Story::Moves(schedule, told) => {
                let detail = detail_of(self.call);
                schedule_text(alloc, self.call.program, program, schedule, told, detail)
            }
            Story::Ways(log, paths) => log_text(alloc, program, log, paths),
        }
    }

    /// As a page for a browser.
    pub(crate) fn page(&self, alloc: Global) -> Result<String, AllocError> {
        let name = self.call.program;
        let program = self.program();
        match &self.story {
            Story::Moves(schedule, told) => schedule_page(alloc, name, program, schedule, told),
            Story::Ways(log, paths) => log_page(alloc, name, program, log, paths),
        }
    }

    fn program(&self) -> Program<'_> {
        Program {
            names: &self.names,
            code: &self.code,
        }
    }
}

/// What the file of a call shows of the program. A faulty program is reported before a faulty file.
pub(crate) fn read_shown<'a>(
    alloc: Global,
    call: Showing<'a>,
    program: &[u8],
    file: &[u8],
) -> Result<Shown<'a>, Fault>
    requires { length program.now ≤ PROGRAM_BYTES }
    ensures shown { IfOk result (IsShown program.now file.now) }
    ensures fault { IfErr result (IsWhyNotShown program.now file.now) }
{
    let (code, names) = compile_named(alloc, program)?;
    let story = if begins_as_log(file) {
        log_story(alloc, &code, program, file)?
    } else {
        schedule_story(alloc, &code, file)?
    };
    Ok(Shown {
        call,
        code,
        names,
        story,
    })
}

/// The code of a program, and the names of its parts in the text.
fn compile_named(alloc: Global, text: &[u8]) -> Result<(Code, Names), CompileFault>
    requires { length text.now ≤ PROGRAM_BYTES }
    ensures found { IfOk result (λ both. IsCodeOf text.now both.0) }
    ensures refused { IfErr result (IsWhyNoCode text.now) }
{
    let (tree, code) = read_code(alloc, text)?;
    let names = Names::of_tree(alloc, &tree)?;
    Ok((code, names))
}

/// Whether a file is read as a log, by its first bytes.
fn begins_as_log(file: &[u8]) -> bool
    ensures { result ≡ begins_as_log file.now }
{
    file.starts_with(b"CLPL")
}

/// The paths of the threads of a log.
fn log_story(alloc: Global, code: &Code, program: &[u8], file: &[u8]) -> Result<Story, Fault>
    requires { begins_as_log file.now ≡ true }
    ensures story { IfOk result (IsStory code.now program.now file.now) }
    ensures fault { IfErr result (IsWhyNoStory code.now program.now file.now) }
{
    check_limit(What::LogBytes, file.len())?;
    let log = read_log(alloc, file)?;
    check_program(program, &log)?;
    check_limit(What::Threads, log.threads().len())?;
    let paths = walk(alloc, code, &log)?;
    Ok(Story::Ways(log, paths))
}

/// Refuses a log of another program.
fn check_program(program: &[u8], log: &Log) -> Result<(), Fault>
    ensures same { OnOk result (IsOfOther program.now log.now → ⊥) }
    ensures other { IfErr result (λ a. (a ≡ Refused OtherProgram) × IsOfOther program.now log.now) }
{
    if is_of_other(log, program) {
        Err(Fault::Refused(Refusal::OtherProgram))
    } else {
        Ok(())
    }
}

/// Refuses a number above its limit.
fn check_limit(what: What, number: usize) -> Result<(), Fault>
    ensures within { OnOk result (number ≤ limit_of what) }
    ensures over { IfErr result (λ a. (a ≡ Refused (Over what number)) × (limit_of what < number)) }
{
    if number as u64 > what.limit() {
        Err(Fault::Refused(Refusal::Over(what, number as u64)))
    } else {
        Ok(())
    }
}

/// The effects of a schedule's moves.
fn schedule_story(alloc: Global, code: &Code, file: &[u8]) -> Result<Story, Fault>
    requires { begins_as_log file.now ≡ false }
    ensures story { (program : List ℕ) → IfOk result (IsStory code.now program file.now) }
    ensures fault { (program : List ℕ) → IfErr result (IsWhyNoStory code.now program file.now) }
{
    let schedule = read_schedule(alloc, file)?;
    let told = tell_under(alloc, code, &schedule)?;
    Ok(Story::Moves(schedule, told))
}

/// The effects of a schedule's moves, under the memory model that it names.
fn tell_under(alloc: Global, code: &Code, schedule: &Schedule) -> Result<Told, AllocError>
    ensures { IfOk result (IsTold code.now schedule.now) }
{
    match schedule.model {
        Model::Sc => tell::<Sc>(alloc, code, schedule),
        Model::Tso => tell::<TsoModel>(alloc, code, schedule),
        Model::Pso => tell::<PsoModel>(alloc, code, schedule),
    }
}
