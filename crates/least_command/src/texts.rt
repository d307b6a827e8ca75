//! The texts of what searches found.
ghost use Rattle.std.specs.Prelude.{◌≡◌, ◌≤◌, IfOk, option_map};
ghost use Rattle.least_command.specs.Meanings.{IsSecond, answer_in, head_below};
ghost use Rattle.least_command.specs.helpers.Below.{HasByteBelow};
ghost use Rattle.log_tasks.specs.Texts.{IsRefutation, IsTextOf};

use least_switch::Least;
use memory_models::Model;
use refute_check::{Derivation, Head, write_refutation};
use schedule_file::write_schedule;
use std::alloc::{AllocError, Global};

/// The text of the schedule, or of the refutation if there is none.
pub(crate) fn first_text(alloc: Global, model: Model, least: &Least) -> Result<Vec<u8>, AllocError>
    ensures { IfOk result (λ text. IsTextOf model (answer_in least.now) text.items) }
{
    let head = Head {
        model,
        switches: None,
    };
    match least {
        Least::Found(schedule, _, _) | Least::SpentAt(schedule, _, _) => {
            write_schedule(alloc, schedule)
        }
        Least::Impossible(derivation) | Least::Spent(derivation) => {
            write_refutation(alloc, head, derivation)
        }
    }
}

/// The text of the refutation of schedules with fewer switches, if there is one.
pub(crate) fn second_text(
    alloc: Global,
    model: Model,
    least: &Least,
) -> Result<Option<Vec<u8>>, AllocError>
    requires { HasByteBelow least.now }
    ensures { IfOk result (λ made. IsSecond model least.now (option_map (λ text. text.items) made)) }
{
    match least {
        Least::Found(_, switches, Some(derivation)) | Least::SpentAt(_, switches, derivation) => {
            let text = text_below(alloc, model, *switches, derivation)?;
            Ok(Some(text))
        }
        Least::Found(_, _, None) | Least::Impossible(_) | Least::Spent(_) => Ok(None),
    }
}

/// The text of a refutation of schedules with fewer than `count` switches.
fn text_below(
    alloc: Global,
    model: Model,
    count: u32,
    derivation: &Derivation,
) -> Result<Vec<u8>, AllocError>
    requires some { 1 ≤ count }
    requires few { count ≤ 255 }
    ensures { IfOk result (λ text. IsRefutation text.items (head_below model count) derivation.now) }
{
    let below = (count - 1) as u8;
    let head = Head {
        model,
        switches: Some(below),
    };
    write_refutation(alloc, head, derivation)
}
