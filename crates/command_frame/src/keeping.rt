//! What a command keeps.
ghost use Rattle.std.specs.Prelude.{◌≡◌, IfErr, OnOk, map};
ghost use Rattle.command_frame.specs.Keeps.{KeptAll};
ghost use Rattle.command_frame.specs.helpers.Failures.{IsWhyUnkept, plain_keep};

use crate::failure::Failure;
use std::alloc::Global;
use tc_io::{KeepFault, Shelf};

/// Bytes to be kept under a name.
#[derive(Clone, Copy)]
pub struct Keep<'n, 'b> {
    pub name: &'n str,
    pub bytes: &'b [u8],
}

impl<'n, 'b> Keep<'n, 'b> {
    /// These bytes under this name.
    pub fn new(name: &'n str, bytes: &'b [u8]) -> Keep<'n, 'b>
        ensures { plain_keep result ≡ record { name = name.entry.now; bytes = bytes.entry.now } }
    {
        Keep { name, bytes }
    }
}

/// Makes these keeps one after the other, up to the first that fails.
pub(crate) fn keep_all<'n, H: Shelf>(
    alloc: Global,
    shelf: &mut H,
    keeps: &[Keep<'n, '_>],
) -> Result<(), Failure<'n>>
    ensures kept { OnOk result (KeptAll (map plain_keep keeps.now) (H.tells shelf.old) (H.tells shelf.new)) }
    ensures unkept { IfErr result (IsWhyUnkept (map plain_keep keeps.now) (H.tells shelf.old) (H.tells shelf.new)) }
{
    for keep in keeps {
        match shelf.keep(alloc, keep.name, keep.bytes) {
            Ok(()) => {}
            Err(KeepFault::Failed) => return Err(Failure::Write(keep.name)),
            Err(KeepFault::Memory) => return Err(Failure::Memory),
        }
    }
    Ok(())
}
