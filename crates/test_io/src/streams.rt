//! Sinks over writers, and readings of readers.
use crate::fakes::Interrupted;
use anyhow::Result;
use std::alloc::AllocError;
use std::io::Read;
use tc_io::Sink;
use tc_io::files::{StdSink, read_up_to};
use test_table::given::Given;

/// Puts texts into a sink, and adds the answer of each.
fn put_all<K: Sink>(sink: &mut K, texts: &str, told: &mut String) -> Result<(), AllocError> {
    for text in texts.split(", ") {
        let answer = sink.put(text.as_bytes());
        write!(told, "{answer:?};")?;
    }
    Ok(())
}

pub(crate) fn sink(texts: &str, told: &mut String) -> Result<(), AllocError> {
    let mut written = Vec::new(*told.allocator());
    put_all(&mut StdSink::new(&mut written), texts, told)?;
    write!(told, "{}", written.escape_ascii())
}

pub(crate) fn interrupted(texts: &str, told: &mut String) -> Result<(), AllocError> {
    let writer = Interrupted {
        before: 3,
        after: 2,
    };
    put_all(&mut StdSink::new(writer), texts, told)
}

/// Reads up to each limit, and adds how many bytes that gives.
fn read_all<R: Read>(from: &mut R, limits: &mut Given, told: &mut String) -> Result<()> {
    let mut taken = 0;
    for _ in 0..2 {
        match read_up_to(*told.allocator(), from, limits.number(), &mut taken) {
            Ok(bytes) => write!(told, "{};", bytes.len())?,
            Err(fault) => write!(told, "{fault:?};")?,
        }
    }
    write!(told, "{taken} taken")?;
    limits.end()
}

pub(crate) fn reader(limits: &str, told: &mut String) -> Result<()> {
    read_all(&mut b"0123456789".as_slice(), &mut Given::new(limits), told)
}

pub(crate) fn interruption(limits: &str, told: &mut String) -> Result<()> {
    let mut from = Interrupted {
        before: 3,
        after: 2,
    };
    read_all(&mut from, &mut Given::new(limits), told)
}
