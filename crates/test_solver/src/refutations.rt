//! The answers to a refutation's text.
use crate::lists::read;
use anyhow::{Result, bail};
use cnf_core::Cnf;
use refute_check::{
    CheckFault, Checked, Checker, LINES, RefutationFault, RefutationText, Taken, check,
    read_refutation, write_refutation,
};
use std::alloc::{AllocError, Global};
use std::mem::drop;
use test_table::answers::Answers;
use test_table::given::Given;

/// The answer to a text that is read line by line, from pieces of this size.
fn answer(alloc: Global, cnf: &Cnf, text: &[u8], piece: usize) -> Result<String> {
    let mut checker = Checker::new(alloc, cnf)?;
    let mut reader = RefutationText::new(alloc);
    let taken = take_all(&mut reader, &mut checker, text, piece);
    let text = match reader.finish() {
        Err(line) => format!(in alloc; "form {line}"),
        Ok(()) => verdict(alloc, checker.verdict()),
    };
    drop(reader);
    drop(checker);
    taken?;
    Ok(text?)
}

/// Reads a text in pieces.
fn take_all(
    reader: &mut RefutationText,
    checker: &mut Checker,
    text: &[u8],
    piece: usize,
) -> Result<()> {
    if piece == 0 {
        bail!("pieces of no bytes");
    }
    for part in text.chunks(piece) {
        take(reader, checker, part)?;
    }
    Ok(())
}

/// Reads a piece of a text, and has the checker look at the lines.
fn take(reader: &mut RefutationText, checker: &mut Checker, part: &[u8]) -> Result<()> {
    let mut rest = part;
    for _ in 0..part.len() {
        let (count, taken) = reader.take(rest)?;
        if count == 0 {
            break;
        }
        rest = &rest[count..];
        if let Taken::Line(line) = &taken {
            if checker.line() > LINES {
                bail!("too many lines");
            }
            let _ = checker.add(line);
        }
    }
    Ok(())
}

fn verdict(alloc: Global, verdict: Result<Checked, CheckFault>) -> Result<String, AllocError> {
    match verdict {
        Ok(checked) => format!(in alloc; "{checked:?}"),
        Err(fault) => format!(in alloc; "{fault:?}"),
    }
}

/// The answer to a text that is read as a whole, after writing it as the text again.
fn whole(alloc: Global, cnf: &Cnf, text: &[u8]) -> Result<String> {
    match read_refutation(alloc, text) {
        Err(RefutationFault::Form(line)) => Ok(format!(in alloc; "form {line}")?),
        Err(RefutationFault::Memory) => bail!("no memory"),
        Ok((head, derivation)) => {
            let written = write_refutation(alloc, head, &derivation);
            let answer = verdict(alloc, check(alloc, cnf, &derivation));
            drop(derivation);
            if written?.as_slice() != text {
                bail!("another text was written");
            }
            Ok(answer?)
        }
    }
}

/// The answer to a text, which must be the same as a whole and in pieces of each size.
fn same(alloc: Global, cnf: &Cnf, text: &[u8]) -> Result<String> {
    let want = whole(alloc, cnf, text)?;
    let sizes = if text.len() < 100_000 {
        [1, 7, 4096]
    } else {
        [1000, 4096, 65_536]
    };
    for piece in sizes {
        if answer(alloc, cnf, text, piece)? != want {
            bail!("another answer in pieces of {piece}");
        }
    }
    Ok(want)
}

pub(crate) fn check_row(alloc: Global, given: &mut Given) -> Result<String> {
    let cnf = read(alloc, given)?;
    let told = same(alloc, &cnf, given.rest().as_bytes());
    drop(cnf);
    told
}

/// The answers to each beginning of a text.
pub(crate) fn cut_check(alloc: Global, given: &mut Given) -> Result<String> {
    let cnf = read(alloc, given)?;
    let mut answers = Answers::new(alloc);
    let checked = check_cut(alloc, &cnf, given.rest().as_bytes(), &mut answers);
    drop(cnf);
    let told = answers.told(alloc);
    checked?;
    Ok(told?)
}

fn check_cut(alloc: Global, cnf: &Cnf, text: &[u8], answers: &mut Answers) -> Result<()> {
    for len in 0..text.len() {
        answers.push(same(alloc, cnf, &text[..len])?)?;
    }
    Ok(())
}

fn taken_text(taken: &Taken) -> &'static str {
    match taken {
        Taken::More => "more",
        Taken::Header(_) => "header",
        Taken::Line(_) => "line",
        Taken::Form(_) => "fault",
    }
}

/// The number of bytes that each call takes of the rest of a text, until one takes none, and the
/// lines.
pub(crate) fn takes(alloc: Global, given: &mut Given) -> Result<String> {
    let mut reader = RefutationText::new(alloc);
    let mut told = String::new(alloc);
    let taken = push_takes(&mut reader, given.rest().as_bytes(), &mut told);
    let finish = reader.finish();
    drop(reader);
    taken?;
    match finish {
        Ok(()) => told.push_str("whole"),
        Err(line) => write!(told, "form {line}"),
    }?;
    Ok(told)
}

fn push_takes(
    reader: &mut RefutationText,
    text: &[u8],
    told: &mut String,
) -> Result<(), AllocError> {
    let mut rest = text;
    for _ in 0..text.len() {
        let (count, taken) = reader.take(rest)?;
        write!(told, "{count} {}, ", taken_text(&taken))?;
        if count == 0 {
            break;
        }
        rest = &rest[count..];
    }
    Ok(())
}
