//! `PROGRAM CERTIFICATE --check`: whether a certificate proves that no run of a program ends in a
//! failure, or in a deadlock.
#![tactic(auto)]

ghost use Rattle.std.specs.Prelude.{IfSome};
ghost use Rattle.command_frame.specs.Run.{Runs};
ghost use Rattle.certificate_check.specs.Answers.{CheckAnswers};
ghost use Rattle.certificate_check.specs.Meanings.{plain_check, check_of};

mod command;
mod line;

pub use command::CheckCertificate;
use command_frame::run_in_pieces;
use std::alloc::Global;
use tc_io::{Shelf, Sink};

/// Checks a certificate for a program.
pub fn check_certificate<H: Shelf, K: Sink>(
    alloc: Global,
    check: &CheckCertificate<'_>,
    shelf: &mut H,
    sink: &mut K,
) -> u8
    ensures runs { Runs (check_of (plain_check check.now)) (H.tells shelf.old) (H.tells shelf.new) result (K.tells sink.old) (K.tells sink.new) }
    ensures answers { IfSome (H.tells shelf.old).held (λ files. CheckAnswers (plain_check check.now) files
        (record { status = result; held = (H.tells shelf.new).held; before = K.tells sink.old; after = K.tells sink.new })) }
{
    run_in_pieces(alloc, check, shelf, sink)
}
