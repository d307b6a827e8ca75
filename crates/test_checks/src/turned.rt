//! Certificates that are changed.

use crate::made::{certificate_of, verdict_on};
use anyhow::{Context, Result, bail};
use std::alloc::Global;
use std::str;

/// The parts of a certificate: its header, and the lines of each log.
fn parts_of(alloc: Global, text: &str) -> Result<Vec<String>> {
    let mut parts = Vec::new(alloc);
    parts.push(String::new(alloc))?;
    for line in text.lines() {
        if line.starts_with("log ") {
            parts.push(String::new(alloc))?;
        }
        let part = parts.last_mut().context("no part")?;
        part.push_str(line)?;
        part.push_str("\n")?;
    }
    Ok(parts)
}

/// The change of the parts.
fn change(parts: &mut Vec<String>, word: &str, index: usize) -> Result<()> {
    let place = index.checked_add(1).context("no such log")?;
    if place >= parts.len() {
        bail!("no such log");
    }
    match word {
        "without" => {
            let part = parts.get_mut(place).context("no such log")?;
            part.clear();
        }
        "swapped" => {
            if place + 1 >= parts.len() {
                bail!("no log after it");
            }
            parts.swap(place, place + 1);
        }
        _ => bail!("no such change"),
    }
    Ok(())
}

fn joined(alloc: Global, parts: &[String]) -> Result<String> {
    let mut text = String::new(alloc);
    for part in parts {
        text.push_str(part)?;
    }
    Ok(text)
}

/// The verdict on a changed certificate.
pub(crate) fn turned(alloc: Global, given: &str) -> Result<String> {
    let (asked, change_words) = given.rsplit_once(" : ").context("no change")?;
    let (words, program) = asked.split_once(" : ").context("no program")?;
    let bytes = certificate_of(alloc, words, program)?.context("no certificate")?;
    let text = str::from_utf8(&bytes)?;
    let changed = if change_words == "whole" {
        text.replace(alloc, " cut\n", " whole\n")?
    } else {
        let (word, index) = change_words.split_once(" ").context("no index")?;
        let mut parts = parts_of(alloc, text)?;
        change(&mut parts, word, index.parse::<usize>()?)?;
        joined(alloc, &parts)?
    };
    verdict_on(alloc, program, changed.as_bytes())
}
