//! The paths of threads.
ghost use Rattle.std.specs.Prelude.{◌≡◌, None, option_map};
ghost use Rattle.run_log.specs.Logs.{is_above};
ghost use Rattle.path_log.specs.Texts.{is_within};
ghost use Rattle.path_log.specs.Fields as fields;
ghost use Rattle.path_log.specs.Fields.{◌such◌};
ghost use Rattle.path_log.specs.helpers.Reading.{Gives, place, seen, last_name};

use crate::cursor::Cursor;
use crate::fault::LogFault;
use crate::field::{byte, byte_within, two};
use crate::outcomes::outcomes;
use run_log::ThreadPath;
use std::alloc::Global;
use tc_base::ThreadName;

/// `count` threads, with rising names.
pub(crate) fn threads<'a>(
    alloc: Global,
    as_runs: bool,
    count: u8,
    cursor: Cursor<'a>,
) -> Result<(Vec<ThreadPath>, Cursor<'a>), LogFault>
    ensures { Gives (λ x. (x.0.items, place x.1)) result (fields.threads as_runs count None (place cursor.entry)) }
{
    let mut threads = Vec::new(alloc);
    let mut rest = cursor;
    for _ in 0..count {
        let (path, next) = thread(alloc, as_runs, last_name(threads.as_slice()), rest)?;
        threads.push(path)?;
        rest = next;
    }
    Ok((threads, rest))
}

/// The last thread's name.
fn last_name(threads: &[ThreadPath]) -> Option<&ThreadName>
    ensures { option_map (λ n. n.now) result ≡ last_name threads.now }
{
    Some(threads.last()?.name())
}

/// A thread whose name is above the last name.
#[tactic(auto, unfolding(crate::specs::Fields::thread))]
fn thread<'a>(
    alloc: Global,
    as_runs: bool,
    last: Option<&ThreadName>,
    cursor: Cursor<'a>,
) -> Result<(ThreadPath, Cursor<'a>), LogFault>
    ensures { Gives seen result (fields.thread as_runs (option_map (λ n. n.now) last.entry) (place cursor.entry)) }
{
    let (name, rest) = name_above(alloc, last, cursor)?;
    let (steps, rest) = two(rest)?;
    let (count, rest) = two(rest)?;
    let (found, rest) = outcomes(alloc, as_runs, count, rest)?;
    Ok((ThreadPath::new(name, steps, found), rest))
}

/// A name above the last name.
fn name_above<'a>(
    alloc: Global,
    last: Option<&ThreadName>,
    cursor: Cursor<'a>,
) -> Result<(ThreadName, Cursor<'a>), LogFault>
    ensures { Gives seen result ((fields.name such is_above (option_map (λ n. n.now) last.entry)) (place cursor.entry)) }
{
    let (found, rest) = name(alloc, cursor)?;
    match last {
        Some(last) if *last >= found => Err(LogFault::Form(cursor.at)),
        _ => Ok((found, rest)),
    }
}

/// A name: its depth, then the number of each create.
#[tactic(auto, unfolding(crate::specs::Fields::name))]
fn name<'a>(alloc: Global, cursor: Cursor<'a>) -> Result<(ThreadName, Cursor<'a>), LogFault>
    ensures { Gives seen result (fields.name (place cursor.entry)) }
{
    let (depth, rest) = byte(cursor)?;
    children(alloc, depth, rest)
}

fn children<'a>(
    alloc: Global,
    depth: u8,
    cursor: Cursor<'a>,
) -> Result<(ThreadName, Cursor<'a>), LogFault>
    ensures { Gives seen result (fields.times (fields.byte such is_within 1 255) depth (place cursor.entry)) }
{
    let mut name = ThreadName::main(alloc);
    let mut rest = cursor;
    for _ in 0..depth {
        let (child, next) = byte_within(1, 255, rest)?;
        name = name.child(u32::from(child))?;
        rest = next;
    }
    Ok((name, rest))
}
