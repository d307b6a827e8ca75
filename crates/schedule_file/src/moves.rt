//! Readers of the line at the front of a text.
ghost use Rattle.std.specs.Prelude.{◌≡◌, option_map, IfOk};
ghost use Rattle.schedule_file.specs.helpers.Reading as reading;

use crate::front::{behind, name_at};
use memory_models::Model;
use std::alloc::{AllocError, Global};
use tc_base::Move;
use tc_decimal::number_at;
use tc_limits::limits::CELLS;

/// The model in the header at the front, and the rest of the text.
#[tactic(auto, unfolding(crate::specs::helpers::Reading::header_at, crate::specs::helpers::Reading::model_at))]
pub(crate) fn header_at(text: &[u8]) -> Option<(Model, &[u8])>
    ensures { option_map (λ x. (x.0, x.1.now)) result ≡ reading.header_at text.now }
{
    let name = behind(b"clap-schedule 1 ", text)?;
    if let Some(rest) = behind(b"sc\n", name) {
        Some((Model::Sc, rest))
    } else if let Some(rest) = behind(b"tso\n", name) {
        Some((Model::Tso, rest))
    } else {
        let rest = behind(b"pso\n", name)?;
        Some((Model::Pso, rest))
    }
}

/// The move whose line is at the front, under this model, and the rest of the text.
#[tactic(auto, unfolding(crate::specs::helpers::Reading::move_at))]
pub(crate) fn move_at(
    alloc: Global,
    model: Model,
    text: &[u8],
) -> Result<Option<(Move, &[u8])>, AllocError>
    ensures { IfOk result (λ found. option_map (λ x. (x.0, x.1.now)) found ≡ reading.move_at model text.now) }
{
    if let Some(found) = run_at(alloc, text)? {
        return Ok(Some(found));
    }
    if let Some(found) = wake_at(alloc, text)? {
        return Ok(Some(found));
    }
    drain_at(alloc, model, text)
}

#[tactic(auto, unfolding(crate::specs::helpers::Reading::run_at))]
fn run_at(alloc: Global, text: &[u8]) -> Result<Option<(Move, &[u8])>, AllocError>
    ensures { IfOk result (λ found. option_map (λ x. (x.0, x.1.now)) found ≡ reading.run_at text.now) }
{
    let Some(rest) = behind(b"r ", text) else {
        return Ok(None);
    };
    let Some((name, rest)) = name_at(alloc, rest)? else {
        return Ok(None);
    };
    let Some(rest) = behind(b"\n", rest) else {
        return Ok(None);
    };
    Ok(Some((Move::Run(name), rest)))
}

#[tactic(auto, unfolding(crate::specs::helpers::Reading::wake_at))]
fn wake_at(alloc: Global, text: &[u8]) -> Result<Option<(Move, &[u8])>, AllocError>
    ensures { IfOk result (λ found. option_map (λ x. (x.0, x.1.now)) found ≡ reading.wake_at text.now) }
{
    let Some(rest) = behind(b"w ", text) else {
        return Ok(None);
    };
    let Some((name, rest)) = name_at(alloc, rest)? else {
        return Ok(None);
    };
    let Some(rest) = behind(b" ", rest) else {
        return Ok(None);
    };
    let Some((waiter, rest)) = name_at(alloc, rest)? else {
        return Ok(None);
    };
    let Some(rest) = behind(b"\n", rest) else {
        return Ok(None);
    };
    Ok(Some((Move::Wake(name, waiter), rest)))
}

#[tactic(auto, unfolding(crate::specs::helpers::Reading::drain_at))]
fn drain_at(alloc: Global, model: Model, text: &[u8]) -> Result<Option<(Move, &[u8])>, AllocError>
    ensures { IfOk result (λ found. option_map (λ x. (x.0, x.1.now)) found ≡ reading.drain_at model text.now) }
{
    let Some(rest) = behind(b"d ", text) else {
        return Ok(None);
    };
    let Some((name, rest)) = name_at(alloc, rest)? else {
        return Ok(None);
    };
    let Some((cell, rest)) = cell_at(model, rest) else {
        return Ok(None);
    };
    let Some(rest) = behind(b"\n", rest) else {
        return Ok(None);
    };
    Ok(Some((Move::Drain(name, cell), rest)))
}

/// The cell that a drain's line names after the thread, if this model's drains name one, and the
/// rest.
#[tactic(auto, unfolding(crate::specs::helpers::Reading::cell_at))]
fn cell_at(model: Model, text: &[u8]) -> Option<(Option<u32>, &[u8])>
    ensures { option_map (λ x. (x.0, x.1.now)) result ≡ reading.cell_at model text.now }
{
    match model {
        Model::Sc => None,
        Model::Tso => Some((None, text)),
        Model::Pso => {
            let number = behind(b" ", text)?;
            let (cell, rest) = number_at(0, CELLS as u32 - 1, number)?;
            Some((Some(cell), rest))
        }
    }
}
