//! The list in a page, as JSON: an entry a line, which begins with the entry's kind.

use crate::fixed::{BEGIN_SCRIPT, END_OF_LIST, END_SCRIPT, HEAD, LIST};
use crate::style::STYLE;
use std::alloc::{AllocError, Global};
use tc_base::ThreadName;

/// An item of an entry.
#[derive(Clone, Copy)]
pub(crate) enum Item<'a> {
    Nothing,
    Number(i64),
    Text(&'a str),
    Thread(&'a ThreadName),
}

impl<'a> Item<'a> {
    /// A number, if there is one.
    pub(crate) fn number(number: Option<u32>) -> Item<'a> {
        match number {
            Some(number) => Item::Number(i64::from(number)),
            None => Item::Nothing,
        }
    }

    /// A thread, if there is one.
    pub(crate) fn thread(name: Option<&'a ThreadName>) -> Item<'a> {
        match name {
            Some(name) => Item::Thread(name),
            None => Item::Nothing,
        }
    }

    /// A text, if there is one.
    pub(crate) fn text(text: Option<&'a String>) -> Item<'a> {
        match text {
            Some(text) => Item::Text(text.as_str()),
            None => Item::Nothing,
        }
    }

    /// A value, if there is one.
    pub(crate) fn value(value: Option<i32>) -> Item<'a> {
        match value {
            Some(value) => Item::Number(i64::from(value)),
            None => Item::Nothing,
        }
    }

    /// Adds the item.
    fn push(self, out: &mut String) -> Result<(), AllocError> {
        match self {
            Item::Nothing => out.push_str("null"),
            Item::Number(number) => write!(out, "{number}"),
            Item::Text(text) => push_text(out, text),
            Item::Thread(name) => write!(out, "\"{name}\""),
        }
    }
}

/// A page up to its list.
pub(crate) fn begin_page(alloc: Global) -> Result<String, AllocError> {
    let mut out = String::new(alloc);
    push_all(&mut out, &[HEAD, STYLE, LIST])?;
    Ok(out)
}

/// Ends the list, and adds the rest of a page of a kind, with the parts of its script.
pub(crate) fn end_page(out: &mut String, body: &str, script: &[&str]) -> Result<(), AllocError> {
    push_all(out, &[END_OF_LIST, body, BEGIN_SCRIPT])?;
    push_all(out, script)?;
    out.push_str(END_SCRIPT)
}

/// Adds texts, one after another.
fn push_all(out: &mut String, texts: &[&str]) -> Result<(), AllocError> {
    for text in texts {
        out.push_str(text)?;
    }
    Ok(())
}

/// Adds an entry to the list.
pub(crate) fn push_entry(
    out: &mut String,
    kind: &str,
    items: &[Item<'_>],
) -> Result<(), AllocError> {
    write!(out, "[\"{kind}\"")?;
    for item in items {
        out.push(',')?;
        item.push(out)?;
    }
    out.push_str("],\n")
}

/// Adds a text. No `<` is left in it, so nothing there ends the list's element.
fn push_text(out: &mut String, text: &str) -> Result<(), AllocError> {
    out.push('"')?;
    for c in text.chars() {
        push_char(out, c)?;
    }
    out.push('"')
}

/// Adds a character of a text.
fn push_char(out: &mut String, c: char) -> Result<(), AllocError> {
    if c < ' ' || c == '"' || c == '\\' || c == '<' {
        let code = c as u32;
        write!(out, "\\u{code:04x}")
    } else {
        out.push(c)
    }
}
