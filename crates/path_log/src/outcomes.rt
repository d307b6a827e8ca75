//! The outcomes of a thread's branches, in both formats.
ghost use Rattle.std.specs.Prelude.{◌≡◌, ◌++◌, drop, not, replicate, IfOk, OnOk};
ghost use Rattle.std.specs.List.{list_all};
ghost use Rattle.path_log.specs.Fields as fields;
ghost use Rattle.path_log.specs.Fields.{all_bits, bits_of};
ghost use Rattle.path_log.specs.helpers.Reading.{Gives, place};

use crate::cursor::Cursor;
use crate::fault::LogFault;
use crate::field::{byte_within, field, two_within};
use std::alloc::{AllocError, Global};

/// `count` outcomes: as runs in format 2, as bits in format 1.
pub(crate) fn outcomes<'a>(
    alloc: Global,
    as_runs: bool,
    count: u16,
    cursor: Cursor<'a>,
) -> Result<(Vec<bool>, Cursor<'a>), LogFault>
    ensures { Gives (λ x. (x.0.items, place x.1)) result (fields.outcomes as_runs count (place cursor.entry)) }
{
    if as_runs {
        runs(alloc, count, cursor)
    } else {
        packed(alloc, count, cursor)
    }
}

/// `count` outcomes, packed eight to a byte.
#[tactic(auto, unfolding(crate::specs::Fields::packed_outcomes))]
fn packed<'a>(
    alloc: Global,
    count: u16,
    cursor: Cursor<'a>,
) -> Result<(Vec<bool>, Cursor<'a>), LogFault>
    ensures { Gives (λ x. (x.0.items, place x.1)) result (fields.packed_outcomes count (place cursor.entry)) }
{
    let count = usize::from(count);
    let (bytes, next) = field((count + 7) / 8, cursor)?;
    let mut outcomes = bits(alloc, bytes)?;
    if !is_padded(count, outcomes.as_slice()) {
        return Err(LogFault::Form(cursor.at));
    }
    outcomes.truncate(count);
    Ok((outcomes, next))
}

/// The bits of all bytes, the highest bit of each first.
fn bits(alloc: Global, bytes: &[u8]) -> Result<Vec<bool>, AllocError>
    ensures { IfOk result (λ bits. bits.items ≡ all_bits bytes.now) }
{
    let mut all = Vec::new(alloc);
    for byte in bytes {
        all.extend_from_slice(&bits_of(*byte))?;
    }
    Ok(all)
}

fn bits_of(byte: u8) -> [bool; 8]
    ensures { result ≡ bits_of 8 byte }
{
    [
        byte & 0x80 != 0,
        byte & 0x40 != 0,
        byte & 0x20 != 0,
        byte & 0x10 != 0,
        byte & 0x08 != 0,
        byte & 0x04 != 0,
        byte & 0x02 != 0,
        byte & 0x01 != 0,
    ]
}

/// Whether all bits after the first `count` are 0.
fn is_padded(count: usize, bits: &[bool]) -> bool
    ensures { result ≡ list_all not (drop count bits.now) }
{
    bits.iter().skip(count).all(|bit| !*bit)
}

/// `count` outcomes, as runs.
#[tactic(auto, unfolding(crate::specs::Fields::run_outcomes))]
fn runs<'a>(
    alloc: Global,
    count: u16,
    cursor: Cursor<'a>,
) -> Result<(Vec<bool>, Cursor<'a>), LogFault>
    ensures { Gives (λ x. (x.0.items, place x.1)) result (fields.run_outcomes count (place cursor.entry)) }
{
    if count == 0 {
        return Ok((Vec::new(alloc), cursor));
    }
    let (first, cursor) = byte_within(0, 1, cursor)?;
    runs_from(alloc, first == 1, count, cursor)
}

/// `count` outcomes as runs, beginning with a run of outcome `first`.
fn runs_from<'a>(
    alloc: Global,
    first: bool,
    count: u16,
    cursor: Cursor<'a>,
) -> Result<(Vec<bool>, Cursor<'a>), LogFault>
    ensures { Gives (λ x. (x.0.items, place x.1)) result (fields.runs_of first count (place cursor.entry)) }
{
    let mut outcomes = Vec::new(alloc);
    let mut outcome = first;
    let mut left = count;
    let mut rest = cursor;
    while left > 0 {
        let (run, next) = two_within(1, left, rest)?;
        push_run(&mut outcomes, outcome, run)?;
        outcome = !outcome;
        left -= run;
        rest = next;
    }
    Ok((outcomes, rest))
}

/// Appends a run of equal outcomes.
fn push_run(outcomes: &mut Vec<bool>, outcome: bool, run: u16) -> Result<(), AllocError>
    ensures { OnOk result (outcomes.new.items ≡ outcomes.old.items ++ replicate run outcome) }
{
    for _ in 0..run {
        outcomes.push(outcome)?;
    }
    Ok(())
}
