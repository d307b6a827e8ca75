//! From a log to its text.
ghost use Rattle.std.specs.Prelude.{◌≡◌, ◌<◌, ◌≤◌, ◌^◌, ◌++◌, length, is_some, option_map, IfOk, OnOk, IsTrue};
ghost use Rattle.std.specs.List.{list_all};
ghost use Rattle.byteorder.specs.Endian.{big_bytes};
ghost use Rattle.path_log.specs.Texts as texts;
ghost use Rattle.path_log.specs.Texts.{is_of_format, has_ending, is_thread, is_within, bytes_for};

use memory_models::Model;
use run_log::{Log, ThreadPath};
use std::alloc::{AllocError, Global};
use tc_base::{Failing, ThreadName};

/// The text of a log: in format 2 if it has a digest, else in format 1.
pub fn write_log(alloc: Global, log: &Log) -> Result<Vec<u8>, AllocError>
    requires format { IsTrue (is_of_format log.now.log) }
    requires ending { IsTrue (has_ending (is_some log.now.digest) log.now.log.failing) }
    ensures { IfOk result (λ text. text.items ≡ texts.log_text log.now) }
{
    let mut text = head(alloc, log.digest(), log.model())?;
    text.push(log.threads().len() as u8)?;
    text.push(ending_code(log.failing()))?;
    for thread in log.threads() {
        push_thread(&mut text, log.digest().is_some(), thread)?;
    }
    Ok(text)
}

/// The signature, the format, the model and, in format 2, the digest.
fn head(alloc: Global, digest: Option<&[u8; 32]>, model: Model) -> Result<Vec<u8>, AllocError>
    ensures { IfOk result (λ text. text.items ≡ texts.head_text (option_map (λ d. d.now) digest.entry) model) }
{
    let mut text = Vec::from_slice(alloc, b"CLPL")?;
    match digest {
        None => {
            push_two(&mut text, 1)?;
            text.push(model_code(model))?;
        }
        Some(digest) => {
            push_two(&mut text, 2)?;
            text.push(model_code(model))?;
            text.extend_from_slice(digest)?;
        }
    }
    Ok(text)
}

fn model_code(model: Model) -> u8
    ensures { result ≡ texts.model_code model }
{
    match model {
        Model::Sc => 0,
        Model::Tso => 1,
        Model::Pso => 2,
    }
}

fn ending_code(failing: Failing) -> u8
    requires { texts.ending_code failing < 2 ^ 8 }
    ensures { result ≡ texts.ending_code failing }
{
    match failing {
        Failing::Thread(index) => index as u8,
        Failing::Deadlock => 0xFF,
    }
}

/// Appends a number of two bytes, high byte first.
fn push_two(text: &mut Vec<u8>, number: u16) -> Result<(), AllocError>
    ensures { OnOk result (text.new.items ≡ text.old.items ++ big_bytes 2 number) }
{
    text.extend_from_slice(&number.to_be_bytes())
}

/// Appends a thread: its name, its step count, its outcome count and its outcomes.
fn push_thread(text: &mut Vec<u8>, as_runs: bool, thread: &ThreadPath) -> Result<(), AllocError>
    requires { IsTrue (is_thread thread.now) }
    ensures { OnOk result (text.new.items ≡ text.old.items ++ texts.thread_text as_runs thread.now) }
{
    push_name(text, thread.name())?;
    push_two(text, thread.steps())?;
    push_two(text, thread.outcomes().len() as u16)?;
    push_outcomes(text, as_runs, thread.outcomes())
}

/// Appends a name: its depth, then the number of each create.
fn push_name(text: &mut Vec<u8>, name: &ThreadName) -> Result<(), AllocError>
    requires depth { length name.now ≤ 255 }
    requires children { IsTrue (list_all (is_within 1 255) name.now) }
    ensures { OnOk result (text.new.items ≡ text.old.items ++ texts.name_text name.now) }
{
    text.push(name.children().len() as u8)?;
    for child in name.children() {
        text.push(*child as u8)?;
    }
    Ok(())
}

/// Appends outcomes: as runs in format 2, as bits in format 1.
fn push_outcomes(text: &mut Vec<u8>, as_runs: bool, outcomes: &[bool]) -> Result<(), AllocError>
    requires { length outcomes.now < 2 ^ 16 }
    ensures { OnOk result (text.new.items ≡ text.old.items ++ texts.outcomes_text as_runs outcomes.now) }
{
    if as_runs {
        push_runs(text, outcomes)
    } else {
        push_packed(text, outcomes)
    }
}

/// Appends outcomes, packed eight to a byte.
fn push_packed(text: &mut Vec<u8>, outcomes: &[bool]) -> Result<(), AllocError>
    ensures { OnOk result (text.new.items ≡ text.old.items ++ texts.packed (bytes_for (length outcomes.now)) outcomes.now) }
{
    let mut rest = outcomes;
    while !rest.is_empty() {
        let (front, after) = rest.split_at(rest.len().min(8));
        text.push(bits_value(front))?;
        rest = after;
    }
    Ok(())
}

/// The value of at most eight bits, highest first.
fn bits_value(bits: &[bool]) -> u8
    requires { length bits.now ≤ 8 }
    ensures { result ≡ texts.bits_value 8 bits.now }
{
    let mut value = 0;
    let mut weight = 0x80;
    for bit in bits {
        if *bit {
            value += weight;
        }
        weight /= 2;
    }
    value
}

/// Appends outcomes as runs.
fn push_runs(text: &mut Vec<u8>, outcomes: &[bool]) -> Result<(), AllocError>
    requires { length outcomes.now < 2 ^ 16 }
    ensures { OnOk result (text.new.items ≡ text.old.items ++ texts.runs_text outcomes.now) }
{
    let Some((first, others)) = outcomes.split_first() else {
        return Ok(());
    };
    text.push(u8::from(*first))?;
    let mut outcome = *first;
    let mut run = 1;
    for next in others {
        if *next == outcome {
            run += 1;
        } else {
            push_two(text, run)?;
            outcome = *next;
            run = 1;
        }
    }
    push_two(text, run)
}
