//! What a derivation proves about a log, with its reasons.
ghost use Rattle.std.specs.Prelude.{◌≡◌, false, length, IfOk, IfErr, OnOk, Ok};
ghost use Rattle.std.specs.List.{All};
ghost use Rattle.path_walk.specs.Paths.{paths_of};
ghost use Rattle.refute_check.specs.Refutations.{IsClosed, check};
ghost use Rattle.clap_solve.specs.Faults.{IsCheckImpossibleFault};
ghost use Rattle.clap_solve.specs.Posed.{IsGiven, posed_of};
ghost use Rattle.clap_solve.specs.Solved.{IsWithin};
ghost use Rattle.why_impossible.specs.Explained.{IsExplained, TellsCause, TellsGroups};
ghost use Rattle.why_impossible.specs.helpers.Posed.{AreReasonsOn, IsExplainedOn};
ghost use Rattle.why_impossible.specs.helpers.There.{IsThere};

use crate::Reasons;
use crate::naming::{caused, named};
use crate::reached_groups::reached_groups;
use clap_solve::{CheckImpossibleFault, Posed, pose};
use dead_paths::cause_of;
use refute_check::{Checked, Derivation, check};
use run_log::Log;
use std::alloc::{AllocError, Global};
use std::mem::drop;
use store_buffers::MemoryModel;
use tc_code::Code;

/// What a derivation proves over the clauses of a log.
#[derive(Debug, Drop)]
pub enum Explained {
    /// The derivation is closed, for these reasons: the groups of rules that it reaches, each once
    /// and in order, or the first cause if the paths alone are contradictory.
    Closed(Reasons),
    /// The derivation is open.
    Open,
}

/// What a derivation proves over the clauses of a log, and by which rules. Any tool may have made
/// it. Another derivation may use other rules.
///
/// Fails if the log has no clauses, or if a line of the derivation doesn't pass.
pub fn why<M: MemoryModel>(
    alloc: Global,
    code: &Code,
    log: &Log,
    derivation: &Derivation,
) -> Result<Explained, CheckImpossibleFault>
    ensures ok { IfOk result (IsExplained M.ops M.bound code.now log.now.log derivation.now) }
    ensures within { OnOk result (IsWithin code.now log.now.log) }
    ensures err { IfErr result (IsCheckImpossibleFault M.BUFFERED M.bound code.now log.now.log derivation.now) }
{
    let posed = pose::<M>(alloc, code, log)?;
    let explained = checked::<M>(alloc, code, log, &posed, derivation);
    drop(posed);
    explained
}

/// What a derivation proves over the clauses of a log.
fn checked<M: MemoryModel>(
    alloc: Global,
    code: &Code,
    log: &Log,
    posed: &Posed,
    derivation: &Derivation,
) -> Result<Explained, CheckImpossibleFault>
    requires given { IsGiven code.now log.now.log }
    requires posed { posed.now ≡ posed_of M.BUFFERED M.bound code.now log.now.log }
    ensures ok { IfOk result (IsExplained M.ops M.bound code.now log.now.log derivation.now) }
    ensures within { OnOk result (IsWithin code.now log.now.log) }
    ensures err { IfErr result (IsCheckImpossibleFault M.BUFFERED M.bound code.now log.now.log derivation.now) }
{
    let checked = check(alloc, posed.clauses(), derivation)?;
    Ok(explain(alloc, code, log, posed, derivation, checked)?)
}

/// What a derivation proves over a log's clauses, from its verdict.
fn explain(
    alloc: Global,
    code: &Code,
    log: &Log,
    posed: &Posed,
    derivation: &Derivation,
    checked: Checked,
) -> Result<Explained, AllocError>
    requires checked { check posed.now.blasted.clauses derivation.now ≡ Ok checked }
    requires paths { posed.now.paths ≡ paths_of code.now log.now.log }
    requires conjuncts { posed.now.paths.dead ≡ false → posed.now.blasted.conjuncts ≡ length posed.now.formula }
    requires there { All (λ conjunct. IsThere posed.now.paths conjunct.group) posed.now.formula }
    ensures { IfOk result (IsExplainedOn code.now log.now.log posed.now derivation.now) }
{
    match checked {
        Checked::Closed => {
            let reasons = reasons(alloc, code, log, posed, derivation)?;
            Ok(Explained::Closed(reasons))
        }
        Checked::Open => Ok(Explained::Open),
    }
}

/// The reasons of a closed derivation.
fn reasons(
    alloc: Global,
    code: &Code,
    log: &Log,
    posed: &Posed,
    derivation: &Derivation,
) -> Result<Reasons, AllocError>
    requires closed { IsClosed posed.now.blasted.clauses derivation.now }
    requires paths { posed.now.paths ≡ paths_of code.now log.now.log }
    requires conjuncts { posed.now.paths.dead ≡ false → posed.now.blasted.conjuncts ≡ length posed.now.formula }
    requires there { All (λ conjunct. IsThere posed.now.paths conjunct.group) posed.now.formula }
    ensures { IfOk result (λ reasons. AreReasonsOn code.now log.now.log posed.now derivation.now reasons) }
{
    let paths = posed.paths();
    if paths.dead() {
        let cause = cause_of(alloc, code, log, paths)?;
        return caused(alloc, &cause);
    }
    let groups = reached_groups(alloc, posed.formula(), posed.blasted(), derivation)?;
    named(alloc, paths, groups.as_slice())
}
