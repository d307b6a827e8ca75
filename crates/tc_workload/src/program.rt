//! The texts of the programs.
ghost use Rattle.std.specs.Prelude.{◌≡◌, ◌≤◌, ◌<◌, ◌+◌, length, IfOk, string_bytes};
ghost use Rattle.tc_limits.specs.declared.limits.TheConstants.{PROGRAM_BYTES};
ghost use Rattle.tc_workload.specs.Workload as spec;
ghost use Rattle.tc_workload.specs.Workload.{cell_read, each, whole_text, worker_lines, worker_line};
ghost use Rattle.tc_workload.specs.declared.program.TheConstants.{WORKERS};
ghost use Rattle.tc_workload.specs.helpers.Pieces.{written};

use std::alloc::{AllocError, Global};

/// The most workers of a program.
pub const WORKERS: usize = 12;

/// A kind of text that main has for each worker.
#[derive(Clone, Copy)]
enum Piece {
    /// The line that declares its thread variable.
    Declares,
    /// The line that creates it.
    Creates,
    /// The line that joins it.
    Joins,
    /// The term for what it has read, in the sum that main tests.
    Adds,
}

/// The text of the program with one worker for each word.
pub fn workload_text(alloc: Global, words: &[u64]) -> Result<Vec<u8>, AllocError>
    requires some { 1 ≤ length words.now }
    requires few { length words.now ≤ WORKERS }
    ensures text { IfOk result (λ text. text.items ≡ spec.workload_text words.now) }
    ensures short { IfOk result (λ text. length text.items ≤ PROGRAM_BYTES) }
{
    let workers = words.len();
    let threads = threads(alloc, words)?;
    let declared = each(alloc, Piece::Declares, 1, workers)?;
    let created = each(alloc, Piece::Creates, 1, workers)?;
    let joined = each(alloc, Piece::Joins, 1, workers)?;
    let added = each(alloc, Piece::Adds, 2, workers - 1)?;
    let text = whole_text(
        alloc,
        threads.as_str(),
        declared.as_str(),
        created.as_str(),
        joined.as_str(),
        added.as_str(),
    )?;
    Ok(text.into_bytes())
}

/// The text with these worker threads, these lines of main, and these terms after the first.
fn whole_text(
    alloc: Global,
    threads: &str,
    declared: &str,
    created: &str,
    joined: &str,
    added: &str,
) -> Result<String, AllocError>
    ensures { IfOk result (λ text. string_bytes text ≡ whole_text threads.now declared.now created.now joined.now added.now) }
{
    format!(in alloc;
        "int a[13]; int r[13];\n{threads}main {{\n{declared}{created}{joined}assert(r[1]{added} >= 1); }}\n"
    )
}

/// The lines of the worker threads.
fn threads(alloc: Global, words: &[u64]) -> Result<String, AllocError>
    requires few { length words.now ≤ WORKERS }
    ensures { IfOk result (λ text. string_bytes text ≡ worker_lines (length words.now) 1 words.now) }
{
    let workers = words.len();
    let mut text = String::new(alloc);
    for (index, word) in words.iter().enumerate() {
        let worker = index + 1;
        let line = worker_line(alloc, worker, cell_read(workers, worker, *word))?;
        text.push_str(line.as_str())?;
    }
    Ok(text)
}

/// The line of a worker that reads this cell.
fn worker_line(alloc: Global, worker: usize, cell: u64) -> Result<String, AllocError>
    ensures { IfOk result (λ text. string_bytes text ≡ worker_line worker cell) }
{
    format!(in alloc; "thread w{worker}() {{ a[{worker}] = 1; r[{worker}] = a[{cell}]; }}\n")
}

/// The cell that a worker reads.
fn cell_read(workers: usize, worker: usize, word: u64) -> u64
    requires some { 1 ≤ workers }
    requires few { workers ≤ WORKERS }
    ensures { result ≡ cell_read workers worker word }
{
    let rest = word % workers as u64;
    if rest < worker as u64 { rest } else { rest + 1 }
}

/// The texts of this kind for `count` workers, from `first` on.
fn each(alloc: Global, piece: Piece, first: usize, count: usize) -> Result<String, AllocError>
    requires { first + count ≤ 99 }
    ensures { IfOk result (λ text. string_bytes text ≡ each (written piece) first count) }
{
    let mut text = String::new(alloc);
    for index in 0..count {
        let part = written(alloc, piece, first + index)?;
        text.push_str(part.as_str())?;
    }
    Ok(text)
}

/// The text of this kind for a worker.
fn written(alloc: Global, piece: Piece, worker: usize) -> Result<String, AllocError>
    ensures { IfOk result (λ text. string_bytes text ≡ written piece worker) }
{
    match piece {
        Piece::Declares => format!(in alloc; "tid t{worker};\n"),
        Piece::Creates => format!(in alloc; "t{worker} = create w{worker}();\n"),
        Piece::Joins => format!(in alloc; "join(t{worker});\n"),
        Piece::Adds => format!(in alloc; " + r[{worker}]"),
    }
}
