//! Readers of signs and names at the front of a text.
ghost use Rattle.std.specs.Prelude.{◌≡◌, option_map, IfOk};
ghost use Rattle.tc_limits.specs.declared.limits.TheConstants.{DEPTH as depth};
ghost use Rattle.schedule_file.specs.helpers.Reading as reading;

use std::alloc::{AllocError, Global};
use tc_base::ThreadName;
use tc_decimal::number_at;
use tc_limits::limits::DEPTH;

/// The rest of the text, if it begins with this front.
pub(crate) fn behind<'a>(front: &[u8], text: &'a [u8]) -> Option<&'a [u8]>
    ensures { option_map (λ rest. rest.now) result ≡ reading.behind front.now text.now }
{
    text.strip_prefix(front)
}

/// The name at the front of a text, and the rest of the text.
#[tactic(auto, unfolding(crate::specs::helpers::Reading::name_at))]
pub(crate) fn name_at(alloc: Global, text: &[u8]) -> Result<Option<(ThreadName, &[u8])>, AllocError>
    ensures { IfOk result (λ found. option_map (λ x. (x.0, x.1.now)) found ≡ reading.name_at text.now) }
{
    match behind(b"0", text) {
        Some(rest) => children_at(alloc, rest),
        None => Ok(None),
    }
}

/// The name with the children at the front of a text, and the rest of the text.
fn children_at(alloc: Global, text: &[u8]) -> Result<Option<(ThreadName, &[u8])>, AllocError>
    ensures { IfOk result (λ found. option_map (λ x. (x.0, x.1.now)) found ≡ reading.children_at depth text.now) }
{
    let mut name = ThreadName::main(alloc);
    let mut rest = text;
    while let Some(number) = behind(b".", rest) {
        if name.children().len() == DEPTH {
            return Ok(None);
        }
        let Some((child, after)) = number_at(1, 255, number) else {
            return Ok(None);
        };
        name = name.child(child)?;
        rest = after;
    }
    Ok(Some((name, rest)))
}
