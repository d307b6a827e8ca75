//! From a text to its log.
ghost use Rattle.std.specs.Prelude.{◌≡◌, ◌<◌, IfOk, IfErr, MatchResult};
ghost use Rattle.run_log.specs.Logs.{StoredLog};
ghost use Rattle.path_log.specs.Texts.{IsLog};
ghost use Rattle.path_log.specs.Faults.{IsFault};
ghost use Rattle.path_log.specs.Fields as fields;
ghost use Rattle.path_log.specs.helpers.Reading.{Gives, place, seen};

use crate::cursor::Cursor;
use crate::fault::LogFault;
use crate::field::{byte, byte_within, field, two_within};
use crate::threads::threads;
use memory_models::Model;
use run_log::Log;
use std::alloc::Global;
use tc_base::Failing;

/// Reads a log from its text.
///
/// A text is either that of exactly one log or breaks the format at exactly one offset, so only one
/// answer is right, apart from `Memory`. The time is linear in the text and the outcomes.
pub fn read_log(alloc: Global, text: &[u8]) -> Result<Log, LogFault>
    ensures found { IfOk result (IsLog text.now) }
    ensures refused { IfErr result (IsFault text.now) }
    ensures again { (s : StoredLog) → IsLog text.now s → MatchResult result (λ log. log ≡ s) (λ fault. fault ≡ LogFault.Memory) }
{
    let (log, _) = whole(alloc, Cursor { at: 0, rest: text })?;
    Ok(log)
}

/// A log and the end of the text.
#[tactic(auto, unfolding(crate::specs::Fields::whole))]
fn whole<'a>(alloc: Global, cursor: Cursor<'a>) -> Result<(Log, Cursor<'a>), LogFault>
    ensures { Gives seen result (fields.whole (place cursor.entry)) }
{
    let (log, rest) = body(alloc, cursor)?;
    if rest.rest.is_empty() {
        Ok((log, rest))
    } else {
        Err(LogFault::Form(rest.at))
    }
}

#[tactic(auto, unfolding(crate::specs::Fields::body))]
fn body<'a>(alloc: Global, cursor: Cursor<'a>) -> Result<(Log, Cursor<'a>), LogFault>
    ensures { Gives seen result (fields.body (place cursor.entry)) }
{
    let ((digest, model), rest) = head(cursor)?;
    let (count, rest) = byte_within(1, 255, rest)?;
    let has_digest = digest.is_some();
    let (failing, rest) = ending(has_digest, count, rest)?;
    let (paths, rest) = threads(alloc, has_digest, count, rest)?;
    Ok((Log::new(digest, model, failing, paths), rest))
}

/// How a run of `count` threads ended; format 1 has only failures.
fn ending<'a>(both: bool, count: u8, cursor: Cursor<'a>) -> Result<(Failing, Cursor<'a>), LogFault>
    requires { 0 < count }
    ensures { Gives seen result (fields.ending both count (place cursor.entry)) }
{
    let (code, rest) = byte(cursor)?;
    match code {
        index if index < count => Ok((Failing::Thread(usize::from(index)), rest)),
        0xFF if both => Ok((Failing::Deadlock, rest)),
        _ => Err(LogFault::Form(cursor.at)),
    }
}

/// The digest, if the format has one, and the model.
type Head = (Option<[u8; 32]>, Model);

#[tactic(auto, unfolding(crate::specs::Fields::head))]
fn head<'a>(cursor: Cursor<'a>) -> Result<(Head, Cursor<'a>), LogFault>
    ensures { Gives seen result (fields.head (place cursor.entry)) }
{
    let (sign, rest) = field(4, cursor)?;
    if sign != b"CLPL".as_slice() {
        return Err(LogFault::Form(cursor.at));
    }
    let (format, rest) = two_within(1, 2, rest)?;
    let (model, rest) = model(rest)?;
    let (digest, rest) = digest_in(format, rest)?;
    Ok(((digest, model), rest))
}

fn model<'a>(cursor: Cursor<'a>) -> Result<(Model, Cursor<'a>), LogFault>
    ensures { Gives seen result (fields.model (place cursor.entry)) }
{
    let (code, rest) = byte_within(0, 2, cursor)?;
    let model = match code {
        0 => Model::Sc,
        1 => Model::Tso,
        _ => Model::Pso,
    };
    Ok((model, rest))
}

/// The digest, which only format 2 has.
fn digest_in<'a>(
    format: u16,
    cursor: Cursor<'a>,
) -> Result<(Option<[u8; 32]>, Cursor<'a>), LogFault>
    ensures { Gives seen result (fields.digest_in format (place cursor.entry)) }
{
    if format == 1 {
        return Ok((None, cursor));
    }
    let Some((digest, rest)) = cursor.rest.split_first_chunk::<32>() else {
        return Err(LogFault::Form(cursor.at));
    };
    let at = cursor.at + 32;
    Ok((Some(*digest), Cursor { at, rest }))
}
