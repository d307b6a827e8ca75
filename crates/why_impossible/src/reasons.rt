//! A list of reasons, and its text.
ghost use Rattle.std.specs.Prelude.{◌≡◌, IfOk, string_bytes};
ghost use Rattle.why_impossible.specs.Reasons.{reason_line, reasons_text};

use crate::Reason;
use std::alloc::{AllocError, Global};
use std::marker::Model;

/// A list of reasons. Contracts see it as a list.
#[derive(Debug, Drop)]
pub struct Reasons {
    reasons: Vec<Reason>,
}

impl Model for Reasons {
    ghost use Rattle.std.specs.Prelude.{List};
    ghost use Rattle.why_impossible.specs.declared.reason.Reason.{Reason};

    ghost Value = { List Reason };

    ghost view = { λ r. r.reasons.items };
}

impl Reasons {
    /// Wraps these reasons.
    pub(crate) fn new(reasons: Vec<Reason>) -> Reasons
        ensures { result ≡ reasons.items }
    {
        Reasons { reasons }
    }

    /// The reasons.
    pub fn as_slice(&self) -> &[Reason]
        ensures { result.now ≡ self.now }
    {
        self.reasons.as_slice()
    }

    /// The number of reasons, and a line for each.
    pub fn text(&self, alloc: Global) -> Result<String, AllocError>
        ensures { IfOk result (λ text. string_bytes text ≡ reasons_text self.now) }
    {
        reasons_text(alloc, self.as_slice())
    }
}

fn reasons_text(alloc: Global, reasons: &[Reason]) -> Result<String, AllocError>
    ensures { IfOk result (λ text. string_bytes text ≡ reasons_text reasons.now) }
{
    let count = reasons.len();
    let mut text = format!(in alloc; "reasons {count}\n")?;
    for reason in reasons {
        text.push_str(&reason_line(alloc, reason)?)?;
    }
    Ok(text)
}

fn reason_line(alloc: Global, reason: &Reason) -> Result<String, AllocError>
    ensures { IfOk result (λ text. string_bytes text ≡ reason_line reason.now) }
{
    format!(in alloc; "{reason}\n")
}
