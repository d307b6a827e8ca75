//! The text of a certificate, part by part.
ghost use Rattle.std.specs.Prelude.{◌≡◌, ◌++◌, map, IfOk, OnOk, IsTrue, option_map};
ghost use Rattle.std.specs.List.{flat_map, list_all};
ghost use Rattle.std.specs.String.{string_bytes};
ghost use Rattle.refute_check.specs.Texts.{ended, line_text, is_readable};
ghost use Rattle.none_certificates.specs.Texts.{kind_text, extent_text, header_text, outcome_digit, thread_text, threads_text, failing_text, log_text, refuted_text};

use crate::Header;
use crate::guess::after;
use log_walk::Kind;
use memory_models::Model;
use refute_check::{Derivation, Head, write_refutation};
use run_log::ThreadPath;
use std::alloc::{AllocError, Global};
use std::fmt::Write;
use tc_base::ThreadName;

/// The header of a refutation, 21 bytes with its end, which a certificate leaves out.
const LEFT_OUT: Head = Head {
    model: Model::Sc,
    switches: None,
};

/// The word for how the runs end.
fn kind_word(kind: Kind) -> &'static str
    ensures { result.now ≡ kind_text kind }
{
    match kind {
        Kind::Failure => "failure",
        Kind::Deadlock => "deadlock",
    }
}

/// The word that says whether no log was left out for its number of outcomes.
fn extent_word(whole: bool) -> &'static str
    ensures { result.now ≡ extent_text whole }
{
    if whole { "whole" } else { "cut" }
}

/// The header, without its line end.
pub fn header_line(alloc: Global, header: Header) -> Result<String, AllocError>
    ensures { IfOk result (λ line. string_bytes line ≡ header_text header) }
{
    let mut text = String::new(alloc);
    text.push_str("clap-none 1 ")?;
    text.push_str(header.model.name())?;
    text.push_str(" ")?;
    text.push_str(kind_word(header.bounds.kind))?;
    write!(text, " {} ", header.bounds.most)?;
    text.push_str(extent_word(header.whole))?;
    Ok(text)
}

/// Writes the digit of each outcome.
fn push_outcomes(text: &mut String, outcomes: &[bool]) -> Result<(), AllocError>
    ensures { OnOk result (string_bytes text.new ≡ string_bytes text.old ++ map outcome_digit outcomes.now) }
{
    for outcome in outcomes {
        text.push_str(if *outcome { "1" } else { "0" })?;
    }
    Ok(())
}

fn push_thread(text: &mut String, thread: &ThreadPath) -> Result<(), AllocError>
    ensures { OnOk result (string_bytes text.new ≡ string_bytes text.old ++ thread_text thread.now) }
{
    write!(text, "{}:{}:", thread.name(), thread.steps())?;
    push_outcomes(text, thread.outcomes())
}

/// Writes the threads, each after a space.
fn push_threads(text: &mut String, threads: &[ThreadPath]) -> Result<(), AllocError>
    ensures { OnOk result (string_bytes text.new ≡ string_bytes text.old ++ threads_text threads.now) }
{
    for thread in threads {
        text.push_str(" ")?;
        push_thread(text, thread)?;
    }
    Ok(())
}

/// Writes the thread that fails.
fn push_failing(text: &mut String, failing: Option<&ThreadName>) -> Result<(), AllocError>
    ensures { OnOk result (string_bytes text.new ≡ string_bytes text.old ++ failing_text (option_map (λ n. n.now) failing.entry)) }
{
    match failing {
        Some(name) => write!(text, "{name}"),
        None => text.push_str("stuck"),
    }
}

/// The line of a log, without its line end.
pub fn log_line(
    alloc: Global,
    failing: Option<&ThreadName>,
    threads: &[ThreadPath],
) -> Result<String, AllocError>
    ensures { IfOk result (λ line. string_bytes line ≡ log_text (record { failing = option_map (λ n. n.now) failing.entry; threads = threads.now })) }
{
    let mut text = String::new(alloc);
    text.push_str("log ")?;
    push_failing(&mut text, failing)?;
    push_threads(&mut text, threads)?;
    Ok(text)
}

/// Appends a line and its end.
fn push_ended(text: &mut Vec<u8>, line: &str) -> Result<(), AllocError>
    ensures { OnOk result (text.new.items ≡ text.old.items ++ ended line.now) }
{
    text.extend_from_slice(line.as_bytes())?;
    text.push(b'\n')?;
    Ok(())
}

/// Appends the header.
pub fn write_header(alloc: Global, text: &mut Vec<u8>, header: Header) -> Result<(), AllocError>
    ensures { OnOk result (text.new.items ≡ text.old.items ++ ended (header_text header)) }
{
    let line = header_line(alloc, header)?;
    push_ended(text, &line)
}

/// Appends the lines of a derivation.
fn push_lines(alloc: Global, text: &mut Vec<u8>, derivation: &Derivation) -> Result<(), AllocError>
    ensures text { OnOk result (text.new.items ≡ text.old.items ++ flat_map (λ l. ended (line_text l)) derivation.now) }
    ensures readable { OnOk result (IsTrue (list_all is_readable derivation.now)) }
{
    let refutation = write_refutation(alloc, LEFT_OUT, derivation)?;
    text.extend_from_slice(after(&refutation, 21))
}

/// Appends a log, given by the thread that fails, if one does, and its threads, and the lines of
/// its refutation.
pub fn write_refuted(
    alloc: Global,
    text: &mut Vec<u8>,
    failing: Option<&ThreadName>,
    threads: &[ThreadPath],
    derivation: &Derivation,
) -> Result<(), AllocError>
    ensures text { OnOk result (text.new.items ≡ text.old.items ++ refuted_text (record {
      log = record { failing = option_map (λ n. n.now) failing.entry; threads = threads.now };
      lines = derivation.now;
    })) }
    ensures readable { OnOk result (IsTrue (list_all is_readable derivation.now)) }
{
    let line = log_line(alloc, failing, threads)?;
    push_ended(text, &line)?;
    push_lines(alloc, text, derivation)
}
