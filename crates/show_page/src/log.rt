//! The page of a log.

use crate::fixed::WAYS;
use crate::list::{Item, begin_page, end_page, push_entry};
use crate::script::WAYS_SCRIPT;
use path_walk::{Paths, Walk};
use run_log::Log;
use show_words::{Program, push_ending, push_title, walk_words};
use std::alloc::{AllocError, Global};

/// The page of a log: a lane for each thread, with the lines of its path and the outcomes of its
/// branches. `name` is the program's name in the title.
pub fn log_page(
    alloc: Global,
    name: &str,
    program: Program<'_>,
    log: &Log,
    paths: &Paths,
) -> Result<String, AllocError> {
    let mut out = begin_page(alloc)?;
    let mut end = String::new(alloc);
    push_ending(&mut end, program, paths)?;
    let items = [
        Item::Text(name),
        Item::Text(log.model().name()),
        Item::Text(end.as_str()),
    ];
    push_entry(&mut out, "log", &items)?;
    for walk in paths.threads() {
        push_walk(alloc, &mut out, program, walk)?;
    }
    end_page(&mut out, WAYS, &WAYS_SCRIPT)?;
    Ok(out)
}

/// Adds a thread with the lines that it went along, and the outcome of a branch there.
fn push_walk(
    alloc: Global,
    out: &mut String,
    program: Program<'_>,
    walk: &Walk,
) -> Result<(), AllocError> {
    let mut title = String::new(alloc);
    push_title(&mut title, program, walk)?;
    push_entry(out, "walk", &[Item::Text(title.as_str())])?;
    let lines = walk_words(alloc, program, walk)?;
    for went in lines.as_slice() {
        let items = [
            Item::Number(i64::from(went.line)),
            Item::Text(went.source),
            Item::Text(match went.outcome {
                Some(true) => "true",
                Some(false) => "false",
                None => "",
            }),
        ];
        push_entry(out, "went", &items)?;
    }
    Ok(())
}
