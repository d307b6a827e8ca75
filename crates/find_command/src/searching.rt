//! The search, under the memory model that is asked for.
ghost use Rattle.std.specs.Prelude.{◌≡◌, ◌≤◌, length, IfErr, IfOk, IsTrue};
ghost use Rattle.find_failures.specs.clap_solve.Clauses.{bound_of};
ghost use Rattle.find_failures.specs.Found.{IsSearched};
ghost use Rattle.kept_logs.specs.path_log.Texts.{is_of_format};
ghost use Rattle.store_buffers.specs.Buffers.{buffer_of};
ghost use Rattle.tc_limits.specs.declared.limits.TheConstants.{PROGRAM_BYTES};
ghost use Rattle.command_inputs.specs.Forms.{IsWhy};
ghost use Rattle.find_command.specs.Calls.{plain_search};
ghost use Rattle.find_command.specs.Findings.{AreFindings, AreFindingsIn, HasFormat, IsToldAs, IsToldNever, IsToldUnknown, told_left};
ghost use Rattle.find_command.specs.Meanings.{IsUnread};

use crate::finding::{Finding, Findings};
use crate::search::Search;
use certified_logs::{certificate, header_of};
use command_inputs::Fault;
use find_failures::{Found, Reach, Reason, Refuted, Searched, Unknown, find};
use kept_logs::text_with_digest;
use log_limits::{part_left, part_of};
use log_walk::LeftOut;
use memory_models::Model;
use std::alloc::{AllocError, Global};
use std::mem::drop;
use store_buffers::{PsoModel, Sc, TsoModel};
use tc_code::Code;
use tc_compile::compile;

/// What a search finds in a program.
pub(crate) fn search(alloc: Global, call: &Search<'_>, program: &[u8]) -> Result<Findings, Fault>
    requires { length program.now ≤ PROGRAM_BYTES }
    ensures found { IfOk result (AreFindings program.now (plain_search call.now)) }
    ensures refused { IfErr result (IsWhy (IsUnread program.now)) }
{
    let code = compile(alloc, program)?;
    let findings = search_code(alloc, call, program, &code)?;
    Ok(findings)
}

/// What a search finds in a code of the program.
fn search_code(
    alloc: Global,
    call: &Search<'_>,
    program: &[u8],
    code: &Code,
) -> Result<Findings, AllocError>
    ensures { IfOk result (AreFindingsIn program.now (plain_search call.now) code.now) }
{
    let Searched { found, refuted } = search_under(alloc, call, code)?;
    let impossible = refuted.len();
    let finding = told(alloc, call, program, found, &refuted);
    drop(refuted);
    Ok(Findings {
        finding: finding?,
        impossible,
    })
}

/// The result of a search under the memory model that is asked for.
fn search_under(alloc: Global, call: &Search<'_>, code: &Code) -> Result<Searched, AllocError>
    ensures { IfOk result (IsSearched (buffer_of call.now.model) (bound_of call.now.model) code.now call.now.model call.now.asked) }
{
    match call.model {
        Model::Sc => find::<Sc>(alloc, code, call.asked),
        Model::Tso => find::<TsoModel>(alloc, code, call.asked),
        Model::Pso => find::<PsoModel>(alloc, code, call.asked),
    }
}

/// What is told of a result and the logs that it refuted.
fn told(
    alloc: Global,
    call: &Search<'_>,
    program: &[u8],
    found: Found,
    refuted: &[Refuted],
) -> Result<Finding, AllocError>
    requires { HasFormat found }
    ensures { IfOk result (IsToldAs program.now (plain_search call.now) refuted.now found) }
{
    match found {
        Found::Possible(log) => Ok(Finding::Possible(text_with_digest(alloc, program, log)?)),
        Found::Never(reach) => told_never(alloc, call, reach, refuted),
        Found::Unknown(unknown) => told_unknown(alloc, program, unknown),
        Found::TooMany => Ok(Finding::TooMany),
        Found::LeftOut(out) => Ok(told_left(out)),
    }
}

/// What is told if runs were ruled out: a certificate with the logs that were refuted.
fn told_never(
    alloc: Global,
    call: &Search<'_>,
    reach: Reach,
    refuted: &[Refuted],
) -> Result<Finding, AllocError>
    ensures { IfOk result (IsToldNever (plain_search call.now) refuted.now reach) }
{
    let header = header_of(call.model, call.asked, reach);
    let text = certificate(alloc, header, refuted)?;
    Ok(Finding::Never(reach, text))
}

/// What is told of a log of which it isn't known whether some moves reproduce it.
fn told_unknown(alloc: Global, program: &[u8], unknown: Unknown) -> Result<Finding, AllocError>
    requires { IsTrue (is_of_format unknown.log.log) }
    ensures { IfOk result (IsToldUnknown program.now unknown) }
{
    let Unknown { log, reason } = unknown;
    match reason {
        Reason::Spent => Ok(Finding::Spent(text_with_digest(alloc, program, log)?)),
        Reason::Limit(which, number, _) => Ok(Finding::Over(part_of(which), number)),
    }
}

/// What is told of logs that were left out.
fn told_left(out: LeftOut) -> Finding
    ensures { result ≡ told_left out }
{
    let part = part_left(out);
    Finding::Over(part, part.limit() + 1)
}
