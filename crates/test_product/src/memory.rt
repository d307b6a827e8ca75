//! Calls that find no memory, and one over a shelf and a sink that never fail.
use anyhow::Result;
use clap_debug_cli::clap_debug;
use std::alloc::{AllocError, Global};
use std::mem::drop;
use tc_io::Shelf;
use test_cli::clap_debug_surely;
use test_shelves::mem::{Fail, MemShelf, MemSink, SureShelf, SureSink};

/// A program, a log that fits it, and a schedule that reproduces its failure.
const FILES: [(&str, &str); 3] = [
    ("p", "int x; main { x = 1; assert(x == 2); }"),
    ("l", "CLPL\0\x01\0\x01\0\0\0\x03\0\0"),
    ("o", "clap-schedule 1 sc\nr 0\nr 0\nr 0\n"),
];

/// The words of a call.
fn words_of(alloc: Global, text: &str) -> Result<Vec<String>, AllocError> {
    let mut words = Vec::new(alloc);
    for word in text.split_whitespace() {
        words.push(String::from_str(alloc, word)?)?;
    }
    Ok(words)
}

/// Calls that find no memory: their words, for how many fetches, keeps and opens there is memory,
/// for how many puts there is none, and whether the second call of the shelf fails, after 5 bytes.
///
/// They are a fetch, the keep of `solve`, the open of `check`, and puts: of the usage, and of what
/// `record` says when it has kept its log, or couldn't.
const SCANT: [(&str, u64, u64, bool); 7] = [
    ("", 99, 1, false),
    ("", 99, 2, false),
    ("clap_debug replay p l o", 0, 0, false),
    ("clap_debug solve p l r", 2, 0, false),
    ("clap_debug check p l o", 2, 0, false),
    ("clap_debug record p r --model sc", 99, 1, false),
    ("clap_debug record p r --model sc", 99, 1, true),
];

/// A shelf with the files, on which the second call may fail.
fn shelf_of(alloc: Global, fails: bool) -> Result<MemShelf, AllocError> {
    let mut shelf = MemShelf::new(alloc);
    for (name, text) in FILES {
        shelf.hold(alloc, name, text.as_bytes())?;
    }
    if fails {
        shelf.fail(Fail { call: 2, after: 5 })?;
    }
    Ok(shelf)
}

/// The answer of a call, and the file `r` afterwards.
fn answer(
    alloc: Global,
    shelf: &mut MemShelf,
    text: &str,
    puts: u64,
) -> Result<String, AllocError> {
    let words = words_of(alloc, text)?;
    let mut sink = MemSink::new(alloc);
    sink.refuse(puts);
    let status = clap_debug(alloc, &words, shelf, &mut sink);
    drop(words);
    shelf.leave_memory(u64::MAX);
    let kept = shelf.fetch(alloc, "r", u64::MAX).unwrap_or(Vec::new(alloc));
    let written = sink.written().escape_ascii();
    format!(in alloc; "{status} \"{written}\", r \"{}\"", kept.escape_ascii())
}

/// Prints the answers of calls that find no memory.
pub(crate) fn run_scantly(rt: &(impl Print + AllocGlobal)) -> Result<()> {
    for (text, calls, puts, fails) in SCANT {
        let mut shelf = shelf_of(rt.alloc(), fails)?;
        shelf.leave_memory(calls);
        let answer = answer(rt.alloc(), &mut shelf, text, puts)?;
        println!(rt; "{text} with memory for {calls} calls, none for {puts} puts: {answer}")?;
    }
    Ok(())
}

/// A shelf with the files, which never fails.
fn sure_shelf(alloc: Global) -> Result<SureShelf, AllocError> {
    let mut shelf = SureShelf::new(alloc);
    for (name, text) in FILES {
        shelf.hold(alloc, name, text.as_bytes())?;
    }
    Ok(shelf)
}

/// Prints the answer of a replay over a shelf and a sink that never fail.
pub(crate) fn run_surely(rt: &(impl Print + AllocGlobal)) -> Result<()> {
    let text = "clap_debug replay p l o";
    let words = words_of(rt.alloc(), text)?;
    let mut shelf = sure_shelf(rt.alloc())?;
    let mut sink = SureSink::new(rt.alloc());
    let status = clap_debug_surely(rt.alloc(), &words, &mut shelf, &mut sink);
    println!(rt;
        "{text}, surely: {status} \"{}\"",
        sink.written().escape_ascii()
    )?;
    Ok(())
}
