//! Refutations of all schedules, whose headers name no number of switches.
ghost use Rattle.std.specs.Prelude.{◌≡◌, IfErr, IfOk};
ghost use Rattle.command_inputs.specs.Forms.{IsWhy};
ghost use Rattle.log_tasks.specs.Texts.{IsRefutation, head_of};
ghost use Rattle.refute_check.specs.Broken.{BreaksAt};
ghost use Rattle.refute_check.specs.Laws.{IsWhole};
ghost use Rattle.refute_check.specs.Texts.{refutation_text};
ghost use Rattle.why_command.specs.Causes.{IsBrokenAt, counts_switches};
ghost use Rattle.why_command.specs.helpers.Unread.{IsUnreadable};

use command_inputs::{Fault, Refusal};
use memory_models::Model;
use refute_check::{Derivation, Head, RefutationFault, RefutationText, Taken, read_refutation};
use std::alloc::{AllocError, Global};

/// The memory model and the derivation of a refutation of all schedules.
pub(crate) fn read_plain(alloc: Global, bytes: &[u8]) -> Result<(Model, Derivation), Fault>
    ensures found { IfOk result (λ both. IsRefutation bytes.now (head_of both.0) both.1) }
    ensures refused { IfErr result (IsWhy (IsUnreadable bytes.now)) }
{
    let (head, derivation) = read_any(alloc, bytes)?;
    if head.switches.is_some() {
        return Err(Fault::Refused(Refusal::Refutation(1)));
    }
    Ok((head.model, derivation))
}

/// The header and the derivation of a refutation, which may name a number of switches.
fn read_any(alloc: Global, bytes: &[u8]) -> Result<(Head, Derivation), Fault>
    ensures found { IfOk result (λ both. IsWhole both.0 both.1 × (refutation_text both.0 both.1 ≡ bytes.now)) }
    ensures refused { IfErr result (IsWhy (IsUnreadable bytes.now)) }
{
    match read_refutation(alloc, bytes) {
        Ok(both) => Ok(both),
        Err(RefutationFault::Form(line)) => {
            let first = first_broken(alloc, bytes, line)?;
            Err(Fault::Refused(Refusal::Refutation(first)))
        }
        Err(RefutationFault::Memory) => Err(Fault::Memory),
    }
}

/// The first line that breaks the form of a refutation of all schedules, given the first that
/// breaks the form of any refutation.
fn first_broken(alloc: Global, bytes: &[u8], line: u32) -> Result<u32, AllocError>
    requires { BreaksAt bytes.now line }
    ensures { IfOk result (λ first. IsBrokenAt bytes.now first) }
{
    let taken = RefutationText::new(alloc).take(bytes)?;
    if counts_switches(&taken.1) {
        return Ok(1);
    }
    Ok(line)
}

/// Whether this is a header that names a number of switches.
fn counts_switches(taken: &Taken) -> bool
    ensures { result ≡ counts_switches taken.now }
{
    match taken {
        Taken::Header(head) => head.switches.is_some(),
        _ => false,
    }
}
