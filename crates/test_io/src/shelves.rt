//! Acts on shelves, and shelves that fail or are in memory.
use crate::fakes::ShortFiles;
use anyhow::Result;
use std::alloc::AllocError;
use std::mem::drop;
use tc_io::files::FileShelf;
use tc_io::{PieceFault, Shelf};
use test_shelves::mem::{Fail, MemShelf, SureShelf};
use test_table::given::Given;

/// Does an act on any shelf, and adds its answer.
pub(crate) fn act<H: Shelf>(
    shelf: &mut H,
    word: &str,
    given: &mut Given,
    told: &mut String,
) -> Result<(), AllocError> {
    match word {
        "fetch" => fetch(shelf, given.word(), given.number(), told),
        "keep" => keep(shelf, given.word(), given.rest(), told),
        "open" => open(shelf, given.word(), told),
        "read" => read(shelf, given.word(), given.number(), told),
        "is-open" => write!(told, "{};", shelf.is_open()),
        _ => {
            given.refuse();
            Ok(())
        }
    }
}

fn fetch<H: Shelf>(
    shelf: &mut H,
    name: &str,
    limit: u64,
    told: &mut String,
) -> Result<(), AllocError> {
    match shelf.fetch(*told.allocator(), name, limit) {
        Ok(bytes) => write!(told, "{};", bytes.escape_ascii()),
        Err(fault) => write!(told, "{fault:?};"),
    }
}

fn keep<H: Shelf>(
    shelf: &mut H,
    name: &str,
    text: &str,
    told: &mut String,
) -> Result<(), AllocError> {
    let answer = shelf.keep(*told.allocator(), name, text.as_bytes());
    write!(told, "{answer:?};")
}

fn open<H: Shelf>(shelf: &mut H, name: &str, told: &mut String) -> Result<(), AllocError> {
    let answer = shelf.open(*told.allocator(), name);
    write!(told, "{answer:?};")
}

/// Takes pieces of a reading, and adds the bytes and how it ends.
fn read<H: Shelf>(
    shelf: &mut H,
    name: &str,
    size: usize,
    told: &mut String,
) -> Result<(), AllocError> {
    let alloc = *told.allocator();
    let mut buf = vec![in alloc; 0u8; size]?;
    let mut bytes = Vec::new(alloc);
    let is_whole = if shelf.open(alloc, name).is_ok() {
        take_pieces(shelf, &mut buf, &mut bytes)?
    } else {
        false
    };
    write!(
        told,
        "{is_whole} {} {};",
        shelf.is_open(),
        bytes.escape_ascii()
    )
}

/// Adds the bytes that the open reading gives by pieces, and returns whether it comes to its end.
fn take_pieces<H: Shelf>(
    shelf: &mut H,
    buf: &mut [u8],
    bytes: &mut Vec<u8>,
) -> Result<bool, AllocError> {
    for _ in 0..1000 {
        if buf.is_empty() || !shelf.is_open() {
            break;
        }
        match shelf.piece(buf) {
            Ok(0) => return Ok(true),
            Ok(count) => bytes.extend_from_slice(&buf[..count])?,
            Err(PieceFault::Failed) => break,
        }
    }
    Ok(false)
}

/// Files that each give three bytes.
pub(crate) fn short(acts: &str, told: &mut String) -> Result<()> {
    let mut shelf = FileShelf::new(ShortFiles);
    for text in acts.split("; ") {
        let mut given = Given::new(text);
        act(&mut shelf, given.word(), &mut given, told)?;
        given.end()?;
    }
    write!(told, "{} taken", shelf.taken())?;
    Ok(())
}

/// A shelf in memory that may fail.
pub(crate) fn mem(acts: &str, told: &mut String) -> Result<()> {
    let mut shelf = MemShelf::new(*told.allocator());
    let done = mem_all(&mut shelf, acts, told);
    drop(shelf);
    done
}

fn mem_all(shelf: &mut MemShelf, acts: &str, told: &mut String) -> Result<()> {
    for text in acts.split("; ") {
        let mut given = Given::new(text);
        mem_act(shelf, &mut given, told)?;
        given.end()?;
    }
    Ok(())
}

fn mem_act(shelf: &mut MemShelf, given: &mut Given, told: &mut String) -> Result<(), AllocError> {
    match given.word() {
        "hold" => shelf.hold(*told.allocator(), given.word(), given.rest().as_bytes()),
        "fail" => shelf.fail(Fail {
            call: given.number(),
            after: given.number(),
        }),
        word => act(shelf, word, given, told),
    }
}

/// A shelf in memory that never fails.
pub(crate) fn sure(acts: &str, told: &mut String) -> Result<()> {
    let mut shelf = SureShelf::new(*told.allocator());
    let done = sure_all(&mut shelf, acts, told);
    drop(shelf);
    done
}

fn sure_all(shelf: &mut SureShelf, acts: &str, told: &mut String) -> Result<()> {
    for text in acts.split("; ") {
        let mut given = Given::new(text);
        match given.word() {
            "hold" => shelf.hold(*told.allocator(), given.word(), given.rest().as_bytes())?,
            word => act(shelf, word, &mut given, told)?,
        }
        given.end()?;
    }
    Ok(())
}
